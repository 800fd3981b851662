//! Lists of attachments: what is attached, what forbids, and where a new attachment stands.

ghost use Rattle.std.specs.Prelude.{◌≡◌, ◌≤◌, ◌++◌, ◌∷◌, OnOk, OnErr, Some, drop, filter, length, take};
ghost use Rattle.std.specs.Option.{option_copied};
ghost use Rattle.std.specs.List.{list_all};
ghost use Rattle.attach_law.specs.Attached.{claim_with, is_attached, is_claim_attached, is_of};
ghost use Rattle.attach_law.specs.Calls.{forbids, has_many, least_node, lesser, new_attachment, put_attachment, stands_before, without_attachment};

use crate::objects::{claim_with, own_volume};
use attach_law::attachment::Attachment;
use kube_types::copies::{OutOfMemory, Plain};
use kube_types::lookup::Lookup;
use kube_types::objects::{Claim, Volume};
use kube_types::parts::Modes;
use kube_types::text::Text;
use kube_types::uid::Uid;
use std::alloc::Global;
use std::cmp::Ordering;

/// Whether the attachment is of the volume, and to the node.
fn is_of(attachment: &Attachment, volume: Uid, node: &Text) -> bool
    ensures { result ≡ is_of volume node.now attachment.now }
{
    attachment.volume == volume && attachment.node.is(node.as_str())
}

/// Whether the volume is attached to the node.
pub(crate) fn is_attached(list: &[Attachment], volume: Uid, node: &Text) -> bool
    ensures { result ≡ is_attached volume node.now list.now }
{
    for attachment in list {
        if is_of(attachment, volume, node) {
            return true;
        }
    }
    false
}

/// Whether the claim's own volume is attached to the node.
fn is_claim_attached<L: Lookup>(
    lookup: &L,
    claim: Option<&Claim>,
    node: &Text,
    list: &[Attachment],
) -> bool
    ensures { result ≡ is_claim_attached (L.rows lookup.now) (option_copied claim.entry) node.now list.now }
{
    match claim {
        None => false,
        Some(claim) => match own_volume(lookup, claim) {
            None => false,
            Some(volume) => match volume.meta.uid {
                None => false,
                Some(uid) => is_attached(list, uid, node),
            },
        },
    }
}

/// Whether each of these claims has its own volume attached to the node.
pub(crate) fn are_attached<L: Lookup>(
    lookup: &L,
    claims: &[Uid],
    node: &Text,
    list: &[Attachment],
) -> bool
    ensures { result ≡ list_all (λ u. is_claim_attached (L.rows lookup.now) (claim_with u (L.rows lookup.now)) node.now list.now) claims.now }
{
    for claim in claims {
        if !is_claim_attached(lookup, claim_with(lookup, *claim), node, list) {
            return false;
        }
    }
    true
}

/// Whether the modes allow several nodes.
pub(crate) fn has_many(modes: Modes) -> bool
    ensures { result ≡ has_many modes }
{
    modes.rox || modes.rwx
}

/// Whether the attachment forbids that the volume comes to this node too, where its modes now say `many`.
fn forbids(attachment: &Attachment, volume: Uid, node: &Text, many: bool) -> bool
    ensures { result ≡ forbids volume node.now many attachment.now }
{
    attachment.volume == volume && !attachment.node.is(node.as_str()) && !(attachment.many && many)
}

/// The lesser of two nodes by name, of which the second may be absent.
fn lesser<'a>(node: &'a Text, best: Option<&'a Text>) -> &'a Text
    ensures { Some result.now ≡ lesser node.now (option_copied best.entry) }
{
    match best {
        None => node,
        Some(other) => match node.as_str().cmp(other.as_str()) {
            Ordering::Greater => other,
            Ordering::Less | Ordering::Equal => node,
        },
    }
}

/// The least node by name whose attachment forbids that the volume comes to this node too.
pub(crate) fn least_node<'a>(
    list: &'a [Attachment],
    volume: Uid,
    node: &Text,
    many: bool,
) -> Option<&'a Text>
    ensures { option_copied result ≡ least_node (filter (forbids volume node.now many) list.now) }
{
    let mut best: Option<&'a Text> = None;
    let mut at = list.len();
    while at > 0 {
        at -= 1;
        let attachment = &list[at];
        if forbids(attachment, volume, node, many) {
            best = Some(lesser(&attachment.node, best));
        }
    }
    best
}

/// Whether the first stands before the second.
fn stands_before(a: &Attachment, b: &Attachment) -> bool
    ensures { result ≡ stands_before a.now b.now }
{
    if a.name.is(b.name.as_str()) {
        match a.node.as_str().cmp(b.node.as_str()) {
            Ordering::Less => true,
            Ordering::Equal | Ordering::Greater => false,
        }
    } else {
        match a.name.as_str().cmp(b.name.as_str()) {
            Ordering::Less => true,
            Ordering::Equal | Ordering::Greater => false,
        }
    }
}

/// The place of the first that does not stand before the new one.
fn place_of(list: &[Attachment], new: &Attachment) -> usize
    ensures bound { result ≤ length list.now }
    ensures place { put_attachment new.now list.now ≡ take result list.now ++ new.now ∷ drop result list.now }
{
    let mut at = 0;
    while at < list.len() {
        if !stands_before(&list[at], new) {
            return at;
        }
        at += 1;
    }
    at
}

/// Puts the volume's new attachment in its place.
pub(crate) fn put_volume(
    alloc: Global,
    list: &mut Vec<Attachment>,
    found: &Volume,
    volume: Uid,
    node: &Text,
) -> Result<(), OutOfMemory>
    ensures ok { OnOk result (list.new.items ≡ put_attachment (new_attachment found.now volume node.now) list.old.items) }
    ensures err { OnErr result (list.new.items ≡ list.old.items) }
{
    let new = Attachment {
        volume,
        name: found.meta.name.copy(alloc)?,
        node: node.copy(alloc)?,
        many: has_many(found.modes),
    };
    let place = place_of(list, &new);
    list.insert(place, new)?;
    Ok(())
}

/// Takes the attachment of the volume to the node out.
pub(crate) fn take_out(list: &mut Vec<Attachment>, volume: Uid, node: &Text)
    ensures { list.new.items ≡ without_attachment volume node.now list.old.items }
{
    list.retain(|attachment| !is_of(attachment, volume, node));
}
