//! Where the scheduler may choose a node for a claim, or bind a pod to one.

ghost use Rattle.std.specs.Prelude.{◌≡◌, [], IsTrue};
ghost use Rattle.call_types.specs.declared.request.Request.TheVariants as requests;
ghost use Rattle.call_types.specs.declared.request.SeatKind.TheVariants as seats;
ghost use Rattle.binder_model.specs.Licence.{AtClaim, RowAllows};
ghost use Rattle.binder_model.specs.SchedulerLicence.{AreReadyOn, IsReadyOn, MayAssign, MaySelectNode};
ghost use Rattle.licence_record.specs.Judged.{Judges};
ghost use Rattle.licence_rows.specs.Scheduling.{IsAdmitted, IsAssignable, IsDelayed, IsNodeTold, SelectsNode};

use crate::binder::takes;
use evidence_pages::sought::Sought;
use kube_types::bindings::{SELECTED_NODE, class_of_claim, is_completed};
use kube_types::copies::Plain;
use kube_types::key::Key;
use kube_types::objects::{Claim, Node, Object, Pod, Version};
use kube_types::parts::Kind;
use kube_types::text::Text;
use kube_types::uid::Uid;
use label_rules::admits;
use licence_record::newest::{newest_claim, newest_class, newest_node, newest_pod, newest_volume};
use licence_record::record::Record;
use licence_record::sure::{SureClaim, told_claim_at};
use licence_rows::parts::is_known;
use licence_rows::scheduler::is_with_node;

// a node for a claim

/// Whether the newest told class of the claim is delayed.
fn is_delayed<R: Record>(seat: &R, claim: &Claim) -> bool
    ensures { Judges (R.whole seat.now) result (IsDelayed (R.told seat.now) claim.now) }
{
    match newest_class(seat, class_of_claim(claim)) {
        None => false,
        Some(class) => class.delayed,
    }
}

/// Whether the newest told of the name is a node of this name.
fn is_node_told<R: Record>(seat: &R, name: &Text) -> bool
    ensures { Judges (R.whole seat.now) result (IsNodeTold (R.told seat.now) name.now) }
{
    match newest_node(seat, name.as_str()) {
        None => false,
        Some(node) => node.meta.name.same(name),
    }
}

fn selects_node<R: Record>(seat: &R, old: &Claim, new: &Claim, name: &Text) -> bool
    ensures { Judges (R.whole seat.now) result (SelectsNode (R.told seat.now) old.now new.now name.now) }
{
    if is_completed(old) {
        return false;
    }
    if !is_with_node(name.as_str(), old, new) {
        return false;
    }
    if !is_node_told(seat, name) {
        return false;
    }
    is_delayed(seat, old)
}

fn selects<R: Record>(seat: &R, old: &Claim, new: &Claim) -> bool
    ensures { Judges (R.whole seat.now) result (MaySelectNode (R.told seat.now) old.now new.now) }
{
    match new.meta.annotations.get(SELECTED_NODE) {
        None => false,
        Some(name) => selects_node(seat, old, new, name),
    }
}

/// The annotation that names a node may be set on the claim.
#[derive(Drop)]
struct SelectNode<'a, R> {
    seat: &'a R,
    new: &'a Claim,
}

impl<'a, R: Record> SureClaim for SelectNode<'a, R> {
    ghost allows = { λ t c. MaySelectNode (R.told t.seat.now) c t.new.now };

    ghost sure = { λ t. R.whole t.seat.now };

    fn test(&self, claim: &Claim) -> bool {
        selects(self.seat, claim, self.new)
    }
}

fn may_select<R: Record>(seat: &R, new: &Claim, given: Option<Version>) -> bool
    ensures { Judges (R.whole seat.now) result (AtClaim (R.told seat.now) new.now given (λ o. MaySelectNode (R.told seat.now) o new.now)) }
{
    let namespace = &new.meta.namespace;
    let name = &new.meta.name;
    let row = SelectNode { seat, new };
    let page = seat.about(
        Kind::PersistentVolumeClaim,
        namespace.as_str(),
        name.as_str(),
        Sought::Version(given),
    );
    told_claim_at(&row, page, given, namespace, name)
}

/// Whether the scheduler may write the object.
pub fn scheduler_update<R: Record>(seat: &R, object: &Object, given: Option<Version>) -> bool
    ensures { Judges (R.whole seat.now) result (RowAllows seats.Scheduler (R.told seat.now) (requests.Update object.now given)) }
{
    match object {
        Object::Volume(new) => takes(seat, new, given),
        Object::Claim(new) => may_select(seat, new, given),
        _ => false,
    }
}

// a pod to a node

/// Whether the newest told volume of the claim admits the node.
fn is_admitted<R: Record>(seat: &R, node: &Node, claim: &Claim) -> bool
    ensures { Judges (R.whole seat.now) result (IsAdmitted (R.told seat.now) node.now claim.now) }
{
    match newest_volume(seat, claim.volume_name.as_str()) {
        None => false,
        Some(volume) => admits(volume.terms.as_ref(), &node.meta.labels),
    }
}

/// Whether the newest told claim of the name is completed, and its volume admits the node.
fn is_ready_on<R: Record>(seat: &R, node: &Node, namespace: &Text, name: &Text) -> bool
    ensures { Judges (R.whole seat.now) result (IsReadyOn (R.told seat.now) node.now namespace.now name.now) }
{
    match newest_claim(seat, namespace.as_str(), name.as_str()) {
        None => false,
        Some(claim) => {
            if !is_completed(claim) {
                return false;
            }
            is_admitted(seat, node, claim)
        }
    }
}

fn are_ready_on<R: Record>(seat: &R, node: &Node, namespace: &Text, names: &[Text]) -> bool
    ensures { Judges (R.whole seat.now) result (AreReadyOn (R.told seat.now) node.now namespace.now names.now) }
{
    for name in names {
        if !is_ready_on(seat, node, namespace, name) {
            return false;
        }
    }
    true
}

fn is_assignable<R: Record>(seat: &R, pod: &Pod, uid: Uid, on: &Node) -> bool
    ensures { Judges (R.whole seat.now) result (IsAssignable (R.told seat.now) pod.now uid on.now) }
{
    if !is_known(&pod.meta, uid) {
        return false;
    }
    if !pod.node.as_str().is_empty() {
        return false;
    }
    are_ready_on(seat, on, &pod.meta.namespace, pod.claims.as_slice())
}

/// Whether the pod may be bound to the node.
pub fn may_assign<R: Record>(seat: &R, key: &Key, uid: Uid, node: &Text) -> bool
    ensures { Judges (R.whole seat.now) result (MayAssign (R.told seat.now) key.now uid node.now) }
{
    match newest_pod(seat, key) {
        None => false,
        Some(pod) => match newest_node(seat, node.as_str()) {
            None => false,
            Some(on) => is_assignable(seat, pod, uid, on),
        },
    }
}
