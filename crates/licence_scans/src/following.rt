//! Where a seat stands with a kind.

ghost use Rattle.std.specs.Prelude.{◌≡◌, ◌↔◌, ℕ, IsTrue, reverse, None};
ghost use Rattle.call_types.specs.declared.request.Request.TheVariants as requests;
ghost use Rattle.call_types.specs.declared.request.SeatKind.TheVariants as seats;
ghost use Rattle.kube_objects.specs.Keys.{same_kind};
ghost use Rattle.binder_model.specs.Reading.{IsFrom, IsUnlisted, follow_on, following_of, follows};
ghost use Rattle.licence_scans.specs.Following.{as_following};

use call_types::entry::Entry;
use call_types::reply::{Refusal, Reply};
use call_types::request::{Request, SeatKind};
use kube_types::key::same_kind;
use kube_types::objects::Version;
use kube_types::parts::Kind;

/// Where the seat stands after the answer to a list of a whole kind.
fn follow_list(
    listed: Kind,
    reply: &Reply,
    kind: Kind,
    before: Option<(Version, Option<Version>)>,
) -> Option<(Version, Option<Version>)>
    ensures { as_following result ≡ follow_on (requests.List listed None) reply.now kind (as_following before) }
{
    match reply {
        Reply::Listed { items: _, version } => {
            if same_kind(listed, kind) {
                Some((*version, None))
            } else {
                before
            }
        }
        _ => before,
    }
}

/// Where the seat stands after the answer to a watch.
fn follow_watch(
    watched: Kind,
    reply: &Reply,
    kind: Kind,
    before: Option<(Version, Option<Version>)>,
) -> Option<(Version, Option<Version>)>
    ensures { (from : ℕ) → as_following result ≡ follow_on (requests.Watch watched from) reply.now kind (as_following before) }
{
    if !same_kind(watched, kind) {
        return before;
    }
    match reply {
        Reply::Refused(Refusal::Gone { oldest: _ }) => None,
        Reply::Events(events) => match before {
            None => None,
            Some((version, _)) => Some((version, Some(events.upto))),
        },
        _ => before,
    }
}

/// Where the seat stands after an answer.
fn follow_on(
    request: &Request,
    reply: &Reply,
    kind: Kind,
    before: Option<(Version, Option<Version>)>,
) -> Option<(Version, Option<Version>)>
    ensures { as_following result ≡ follow_on request.now reply.now kind (as_following before) }
{
    match request {
        Request::List {
            kind: listed,
            namespace: None,
        } => follow_list(*listed, reply, kind, before),
        Request::Watch {
            kind: watched,
            from: _,
        } => follow_watch(*watched, reply, kind, before),
        _ => before,
    }
}

/// Where the seat with these entries, the oldest first, stands with a kind: the version of its list,
/// and the one that a watch has reached since.
#[tactic(auto, using(model_laws::proofs::Evidence::newest_first))]
pub fn following_of(mine: &[Entry], kind: Kind) -> Option<(Version, Option<Version>)>
    ensures { as_following result ≡ following_of (reverse mine.now) kind }
{
    let mut stands = None;
    for entry in mine {
        if entry.told {
            stands = follow_on(&entry.request, &entry.reply, kind, stands);
        }
    }
    stands
}

/// Whether controllers of this kind follow the objects of a kind.
pub fn follows(seat: SeatKind, kind: Kind) -> bool
    ensures { result ≡ follows seat kind }
{
    match seat {
        SeatKind::User => false,
        SeatKind::Binder => binder_follows(kind),
        SeatKind::Ops => ops_follows(kind),
        SeatKind::Scheduler => true,
        SeatKind::ClaimProtect => claim_protect_follows(kind),
        SeatKind::VolumeProtect => same_kind(kind, Kind::PersistentVolume),
        SeatKind::Agent => same_kind(kind, Kind::Pod),
    }
}

fn binder_follows(kind: Kind) -> bool
    ensures { result ≡ follows seats.Binder kind }
{
    match kind {
        Kind::PersistentVolume => true,
        Kind::PersistentVolumeClaim => true,
        Kind::StorageClass => true,
        Kind::Node => false,
        Kind::Pod => false,
    }
}

fn ops_follows(kind: Kind) -> bool
    ensures { result ≡ follows seats.Ops kind }
{
    match kind {
        Kind::Pod => false,
        _ => true,
    }
}

fn claim_protect_follows(kind: Kind) -> bool
    ensures { result ≡ follows seats.ClaimProtect kind }
{
    match kind {
        Kind::PersistentVolumeClaim => true,
        Kind::Pod => true,
        _ => false,
    }
}

/// Whether the seat was told no list of the kind since its last Gone.
pub fn is_unlisted(mine: &[Entry], kind: Kind) -> bool
    ensures { IsTrue result ↔ IsUnlisted (following_of (reverse mine.now) kind) }
{
    match following_of(mine, kind) {
        None => true,
        Some(_) => false,
    }
}

/// Whether a watch of the kind may begin at this version.
pub fn is_from(mine: &[Entry], kind: Kind, from: Version) -> bool
    ensures { IsTrue result ↔ IsFrom from (following_of (reverse mine.now) kind) }
{
    match following_of(mine, kind) {
        None => false,
        Some((version, reached)) => {
            if from == version {
                return true;
            }
            match reached {
                None => false,
                Some(reached) => reached == from,
            }
        }
    }
}
