//! What is done by each kind of actor, and what it comes to, by the rules that each controller keeps: which kinds it lists and
//! watches, in which order; a list, a watch or a call of an agent's start whose answer is lost is made again; what is refused
//! or lost of the work on a key is taken up again once the actor is woken, which its work does as often as it is idle.

use crate::works::{NOTHING, Works, wrong};
use call_types::request::SeatKind;

const VOLUME: &str =
    r#"create {"apiVersion":"v1","kind":"PersistentVolume","metadata":{"name":"a"},"spec":{"capacity":{"storage":"5Gi"},"accessModes":["ReadWriteOnce"],"nfs":{"server":"s","path":"/a"}}}"#;

/// The update takes the finalizer from the deleted volume.
const UNGUARDED: &str =
    r#"list volume, watch volume 2, watch volume 2, update 2 {"apiVersion":"v1","kind":"PersistentVolume","metadata":{"creationTimestamp":"2000-01-01T00:00:00Z","deletionTimestamp":"2000-01-01T00:00:00Z","name":"a","resourceVersion":"2","uid":"00000000-0000-8000-8000-000000000001"},"spec":{"capacity":{"storage":"5Gi"},"accessModes":["ReadWriteOnce"],"nfs":{"server":"s","path":"/a"}},"status":{"phase":"Pending"}}"#;

const CLASS: &str =
    r#"create {"apiVersion":"storage.k8s.io/v1","kind":"StorageClass","metadata":{"name":"fast"},"provisioner":"csi"}"#;

const CLAIM: &str =
    r#"create {"apiVersion":"v1","kind":"PersistentVolumeClaim","metadata":{"name":"c"},"spec":{"resources":{"requests":{"storage":"3Gi"}},"accessModes":["ReadWriteOnce"],"storageClassName":"fast"}}"#;

/// No pool has room for the claim.
const PROVISIONED_TWICE: &str =
    "list volume, list claim, list class, list node, provision pvc-00000000-0000-8000-8000-000000000002 csi 3221225472, watch volume 2, watch claim 2, watch class 2, watch node 2, watch volume 2, watch claim 2, watch class 2, watch node 2, provision pvc-00000000-0000-8000-8000-000000000002 csi 3221225472";

const NODE: &str = r#"create {"apiVersion":"v1","kind":"Node","metadata":{"name":"n"}}"#;

const POD: &str = r#"create {"apiVersion":"v1","kind":"Pod","metadata":{"name":"p"},"spec":{}}"#;

const BOUND_POD: &str =
    r#"create {"apiVersion":"v1","kind":"Pod","metadata":{"name":"p"},"spec":{"nodeName":"n"}}"#;

const BINDERS: [Works; 6] = [
    Works {
        name: "calls are lost",
        unmade: &[2],
        untold: &[4],
        calls: 9,
        made: 9,
        told: &[9, 0],
        lives: &[
            "list volume, list claim, lost list class, list class, watch volume 0, watch claim 0, watch class 0, watch volume 0",
        ],
        ..NOTHING
    },
    Works {
        name: "new lives, of which the first and the last make no call",
        restarts: &[0, 3, 8],
        calls: 8,
        made: 8,
        told: &[0, 3, 5, 0, 0],
        lives: &[
            "",
            "list volume, list claim, list class",
            "list volume, list claim, list class, watch volume 0, watch claim 0",
            "",
        ],
        ..NOTHING
    },
    Works {
        name: "a call is lost before a new life begins, and one after it",
        unmade: &[2],
        untold: &[3],
        restarts: &[2],
        calls: 6,
        made: 6,
        told: &[2, 4, 0],
        lives: &[
            "list volume",
            "lost list volume, list volume, list claim, list class",
        ],
        ..NOTHING
    },
    Works {
        name: "the node is taken",
        calls: 1,
        taken: 1,
        more: 4,
        made: 5,
        told: &[5, 1],
        lives: &["list volume, list claim, list class, watch volume 0, watch claim 0"],
        ..NOTHING
    },
    Works {
        name: "the node is taken, and a new life begins after that",
        restarts: &[2],
        calls: 1,
        taken: 1,
        more: 4,
        made: 5,
        told: &[2, 3, 1],
        lives: &[
            "list volume, list claim",
            "list volume, list claim, list class",
        ],
        ..NOTHING
    },
    Works {
        name: "a lost write is made once it is woken",
        lines: &[VOLUME],
        unmade: &[4],
        calls: 11,
        made: 11,
        told: &[11, 0],
        lives: &[
            "list volume, list claim, list class, watch volume 1, watch claim 1, watch class 1, watch volume 1, watch claim 1, watch class 1, status volume - a Available 1",
        ],
        ..NOTHING
    },
];

const PROVISIONERS: [Works; 6] = [
    Works {
        name: "calls are lost",
        unmade: &[2],
        untold: &[4],
        calls: 9,
        made: 9,
        told: &[9, 0],
        lives: &[
            "list volume, list claim, lost list class, list class, list node, watch volume 0, watch claim 0, watch class 0",
        ],
        ..NOTHING
    },
    Works {
        name: "new lives, of which the first and the last make no call",
        restarts: &[0, 3, 8],
        calls: 8,
        made: 8,
        told: &[0, 3, 5, 0, 0],
        lives: &[
            "",
            "list volume, list claim, list class",
            "list volume, list claim, list class, list node, watch volume 0",
            "",
        ],
        ..NOTHING
    },
    Works {
        name: "a call is lost before a new life begins, and one after it",
        unmade: &[2],
        untold: &[3],
        restarts: &[2],
        calls: 6,
        made: 6,
        told: &[2, 4, 0],
        lives: &[
            "list volume",
            "lost list volume, list volume, list claim, list class",
        ],
        ..NOTHING
    },
    Works {
        name: "the node is taken",
        calls: 1,
        taken: 1,
        more: 4,
        made: 5,
        told: &[5, 1],
        lives: &["list volume, list claim, list class, list node, watch volume 0"],
        ..NOTHING
    },
    Works {
        name: "the node is taken, and a new life begins after that",
        restarts: &[2],
        calls: 1,
        taken: 1,
        more: 4,
        made: 5,
        told: &[2, 3, 1],
        lives: &[
            "list volume, list claim",
            "list volume, list claim, list class",
        ],
        ..NOTHING
    },
    Works {
        name: "what is refused is tried again once it is woken",
        lines: &[CLASS, CLAIM],
        calls: 14,
        made: 14,
        told: &[14, 0],
        lives: &[PROVISIONED_TWICE],
        ..NOTHING
    },
];

const SCHEDULERS: [Works; 6] = [
    Works {
        name: "calls are lost",
        unmade: &[2],
        untold: &[4],
        calls: 9,
        made: 9,
        told: &[9, 0],
        lives: &[
            "list volume, list claim, lost list class, list class, list node, list pod, watch volume 0, watch claim 0",
        ],
        ..NOTHING
    },
    Works {
        name: "new lives, of which the first and the last make no call",
        restarts: &[0, 3, 8],
        calls: 8,
        made: 8,
        told: &[0, 3, 5, 0, 0],
        lives: &[
            "",
            "list volume, list claim, list class",
            "list volume, list claim, list class, list node, list pod",
            "",
        ],
        ..NOTHING
    },
    Works {
        name: "a call is lost before a new life begins, and one after it",
        unmade: &[2],
        untold: &[3],
        restarts: &[2],
        calls: 6,
        made: 6,
        told: &[2, 4, 0],
        lives: &[
            "list volume",
            "lost list volume, list volume, list claim, list class",
        ],
        ..NOTHING
    },
    Works {
        name: "the node is taken",
        calls: 1,
        taken: 1,
        more: 4,
        made: 5,
        told: &[5, 1],
        lives: &["list volume, list claim, list class, list node, list pod"],
        ..NOTHING
    },
    Works {
        name: "the node is taken, and a new life begins after that",
        restarts: &[2],
        calls: 1,
        taken: 1,
        more: 4,
        made: 5,
        told: &[2, 3, 1],
        lives: &[
            "list volume, list claim",
            "list volume, list claim, list class",
        ],
        ..NOTHING
    },
    Works {
        name: "a write whose answer is lost was made",
        lines: &[NODE, POD],
        untold: &[6],
        calls: 12,
        made: 12,
        told: &[12, 0],
        lives: &[
            "list volume, list claim, list class, list node, list pod, lost bind pod default p 2 n, watch volume 2, watch claim 2, watch class 2, watch node 2, watch pod 2, watch volume 3",
        ],
        ..NOTHING
    },
];

const CLAIM_PROTECTORS: [Works; 6] = [
    Works {
        name: "calls are lost",
        unmade: &[2],
        untold: &[4],
        calls: 8,
        made: 8,
        told: &[8, 0],
        lives: &[
            "list claim, list pod, lost watch claim 0, watch claim 0, watch pod 0, watch claim 0, watch pod 0",
        ],
        ..NOTHING
    },
    Works {
        name: "new lives, of which the first and the last make no call",
        restarts: &[0, 3, 8],
        calls: 8,
        made: 8,
        told: &[0, 3, 5, 0, 0],
        lives: &[
            "",
            "list claim, list pod, watch claim 0",
            "list claim, list pod, watch claim 0, watch pod 0, watch claim 0",
            "",
        ],
        ..NOTHING
    },
    Works {
        name: "a call is lost before a new life begins, and one after it",
        unmade: &[2],
        untold: &[3],
        restarts: &[2],
        calls: 6,
        made: 6,
        told: &[2, 4, 0],
        lives: &[
            "list claim",
            "lost list claim, list claim, list pod, watch claim 0",
        ],
        ..NOTHING
    },
    Works {
        name: "the node is taken",
        calls: 1,
        taken: 1,
        more: 4,
        made: 5,
        told: &[5, 1],
        lives: &["list claim, list pod, watch claim 0, watch pod 0, watch claim 0"],
        ..NOTHING
    },
    Works {
        name: "the node is taken, and a new life begins after that",
        restarts: &[2],
        calls: 1,
        taken: 1,
        more: 4,
        made: 5,
        told: &[2, 3, 1],
        lives: &[
            "list claim, list pod",
            "list claim, list pod, watch claim 0",
        ],
        ..NOTHING
    },
    Works {
        name: "a read whose answer is lost is made once it is woken",
        lines: &[CLAIM, "delete claim default c"],
        untold: &[3],
        calls: 8,
        made: 8,
        told: &[8, 0],
        lives: &[
            "list claim, list pod, lost list pod default, watch claim 2, watch pod 2, watch claim 2, watch pod 2, list pod default",
        ],
        ..NOTHING
    },
];

const VOLUME_PROTECTORS: [Works; 6] = [
    Works {
        name: "calls are lost",
        unmade: &[2],
        untold: &[4],
        calls: 7,
        made: 7,
        told: &[7, 0],
        lives: &[
            "list volume, watch volume 0, lost watch volume 0, watch volume 0, watch volume 0, watch volume 0",
        ],
        ..NOTHING
    },
    Works {
        name: "new lives, of which the first and the last make no call",
        restarts: &[0, 3, 8],
        calls: 8,
        made: 8,
        told: &[0, 3, 5, 0, 0],
        lives: &[
            "",
            "list volume, watch volume 0, watch volume 0",
            "list volume, watch volume 0, watch volume 0, watch volume 0, watch volume 0",
            "",
        ],
        ..NOTHING
    },
    Works {
        name: "a call is lost before a new life begins, and one after it",
        unmade: &[2],
        untold: &[3],
        restarts: &[2],
        calls: 6,
        made: 6,
        told: &[2, 4, 0],
        lives: &[
            "list volume",
            "lost list volume, list volume, watch volume 0, watch volume 0",
        ],
        ..NOTHING
    },
    Works {
        name: "the node is taken",
        calls: 1,
        taken: 1,
        more: 4,
        made: 5,
        told: &[5, 1],
        lives: &["list volume, watch volume 0, watch volume 0, watch volume 0, watch volume 0"],
        ..NOTHING
    },
    Works {
        name: "the node is taken, and a new life begins after that",
        restarts: &[2],
        calls: 1,
        taken: 1,
        more: 4,
        made: 5,
        told: &[2, 3, 1],
        lives: &[
            "list volume, watch volume 0",
            "list volume, watch volume 0, watch volume 0",
        ],
        ..NOTHING
    },
    Works {
        name: "a lost write is made once it is woken",
        lines: &[VOLUME, "delete volume - a"],
        unmade: &[2],
        calls: 5,
        made: 5,
        told: &[5, 0],
        lives: &[UNGUARDED],
        ..NOTHING
    },
];

const AGENTS: [Works; 15] = [
    Works {
        name: "calls are lost",
        unmade: &[2],
        untold: &[4],
        calls: 7,
        made: 7,
        told: &[7, 0],
        lives: &["take n, mounts n 1, lost list pod, list pod, watch pod 0, watch pod 0"],
        ..NOTHING
    },
    Works {
        name: "new lives, of which the first and the last make no call",
        restarts: &[0, 3, 8],
        calls: 8,
        made: 8,
        told: &[0, 3, 5, 0, 0],
        lives: &[
            "",
            "take n, mounts n 1, list pod",
            "take n, mounts n 2, list pod, watch pod 0, watch pod 0",
            "",
        ],
        ..NOTHING
    },
    Works {
        name: "a call is lost before a new life begins, and one after it",
        unmade: &[2],
        untold: &[3],
        restarts: &[2],
        calls: 6,
        made: 6,
        told: &[2, 4, 0],
        lives: &["take n", "lost take n, take n, mounts n 3, list pod"],
        ..NOTHING
    },
    Works {
        name: "the node is taken",
        calls: 1,
        taken: 1,
        more: 4,
        made: 2,
        told: &[2, 1],
        lives: &["take n, stale mounts n 1"],
        ..NOTHING
    },
    Works {
        name: "the node is taken, and a new life begins after that",
        restarts: &[2],
        calls: 1,
        taken: 1,
        more: 4,
        made: 5,
        told: &[2, 3, 1],
        lives: &["take n, stale mounts n 1", "take n, mounts n 3, list pod"],
        ..NOTHING
    },
    Works {
        name: "the node is taken, and a new life would begin later",
        restarts: &[3],
        calls: 1,
        taken: 1,
        more: 4,
        made: 2,
        told: &[2, 0, 1],
        lives: &["take n, stale mounts n 1", ""],
        ..NOTHING
    },
    Works {
        name: "the node is taken, and a new life begins before that is told",
        restarts: &[1],
        calls: 1,
        taken: 1,
        more: 4,
        made: 5,
        told: &[1, 4, 1],
        lives: &["take n", "take n, mounts n 3, list pod, watch pod 0"],
        ..NOTHING
    },
    Works {
        name: "the node is taken, and what says so is lost",
        untold: &[2],
        calls: 1,
        taken: 1,
        more: 4,
        made: 3,
        told: &[3, 1],
        lives: &["take n, lost mounts n 1, stale mounts n 1"],
        ..NOTHING
    },
    Works {
        name: "the node is taken, and what would say so is not made",
        unmade: &[2],
        calls: 1,
        taken: 1,
        more: 4,
        made: 3,
        told: &[3, 1],
        lives: &["take n, stale mounts n 1"],
        ..NOTHING
    },
    Works {
        name: "the node is taken, and the last call says so",
        calls: 1,
        taken: 1,
        more: 1,
        made: 2,
        told: &[2, 1],
        lives: &["take n, stale mounts n 1"],
        ..NOTHING
    },
    Works {
        name: "its own call is lost that takes the node",
        untold: &[1],
        calls: 4,
        made: 4,
        told: &[4, 0],
        lives: &["lost take n, take n, mounts n 2, list pod"],
        ..NOTHING
    },
    Works {
        name: "a pod is mounted",
        lines: &[NODE, BOUND_POD],
        calls: 5,
        made: 5,
        told: &[5, 0],
        lives: &["take n, mounts n 1, list pod, mount n 1 2, watch pod 2"],
        ..NOTHING
    },
    Works {
        name: "the node is taken before a pod is mounted",
        lines: &[NODE, BOUND_POD],
        calls: 3,
        taken: 1,
        more: 9,
        made: 4,
        told: &[4, 1],
        lives: &["take n, mounts n 1, list pod, stale mount n 1 2"],
        ..NOTHING
    },
    Works {
        name: "the node is taken before a pod is mounted, and a new life begins after that",
        lines: &[NODE, BOUND_POD],
        restarts: &[4],
        calls: 3,
        taken: 1,
        more: 5,
        made: 8,
        told: &[4, 4, 1],
        lives: &[
            "take n, mounts n 1, list pod, stale mount n 1 2",
            "take n, mounts n 3, list pod, mount n 3 2",
        ],
        ..NOTHING
    },
    Works {
        name: "a deleted pod is unmounted and finished",
        lines: &[NODE, BOUND_POD, "delete pod default p"],
        calls: 6,
        made: 6,
        told: &[6, 0],
        lives: &[
            "take n, mounts n 1, list pod, unmount n 1 2, mounts n 1, finish pod default p 2 n 1",
        ],
        ..NOTHING
    },
];

#[test]
fn binders(rt: HostRuntime) {
    let wrong = wrong(&rt, rt.alloc(), SeatKind::Binder, &BINDERS);
    assert_eq!(rt; wrong, None);
}

#[test]
fn provisioners(rt: HostRuntime) {
    let wrong = wrong(&rt, rt.alloc(), SeatKind::Ops, &PROVISIONERS);
    assert_eq!(rt; wrong, None);
}

#[test]
fn schedulers(rt: HostRuntime) {
    let wrong = wrong(&rt, rt.alloc(), SeatKind::Scheduler, &SCHEDULERS);
    assert_eq!(rt; wrong, None);
}

#[test]
fn claim_protectors(rt: HostRuntime) {
    let wrong = wrong(&rt, rt.alloc(), SeatKind::ClaimProtect, &CLAIM_PROTECTORS);
    assert_eq!(rt; wrong, None);
}

#[test]
fn volume_protectors(rt: HostRuntime) {
    let wrong = wrong(&rt, rt.alloc(), SeatKind::VolumeProtect, &VOLUME_PROTECTORS);
    assert_eq!(rt; wrong, None);
}

#[test]
fn agents(rt: HostRuntime) {
    let wrong = wrong(&rt, rt.alloc(), SeatKind::Agent, &AGENTS);
    assert_eq!(rt; wrong, None);
}
