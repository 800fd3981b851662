//! The writes that the store and the world are timed with.

use call_types::edit::Edit;
use call_types::request::Request;
use kube_types::copies::OutOfMemory;
use kube_types::objects::{Amount, Object};
use kube_types::shared::Shared;
use kube_types::text::Text;
use sample_objects::claims::wanting_claim;
use sample_objects::keys::{numbered, volume_key};
use sample_objects::pods::node;
use sample_objects::volumes::volume;
use std::alloc::Global;

/// The creation of the node of this number.
pub fn create_node(alloc: Global, number: u64) -> Result<Request, OutOfMemory> {
    let name = numbered(alloc, "n", number)?;
    let node = node(alloc, name.as_str(), None, 0, "")?;
    Ok(Request::Create {
        object: Object::Node(Shared::new(alloc, node)?),
    })
}

/// The creation of the volume of this number.
pub fn create_volume(alloc: Global, number: u64) -> Result<Request, OutOfMemory> {
    let name = numbered(alloc, "v", number)?;
    let volume = volume(alloc, name.as_str(), None, 0)?;
    Ok(Request::Create {
        object: Object::Volume(Shared::new(alloc, volume)?),
    })
}

fn amount(alloc: Global, bytes: u64) -> Result<Amount, OutOfMemory> {
    let text = numbered(alloc, "", bytes)?;
    Ok(Amount { text, bytes })
}

/// The creation of the volume of this number, with so many bytes.
pub fn create_sized_volume(alloc: Global, number: u64, bytes: u64) -> Result<Request, OutOfMemory> {
    let name = numbered(alloc, "v", number)?;
    let mut volume = volume(alloc, name.as_str(), None, 0)?;
    volume.amount = amount(alloc, bytes)?;
    Ok(Request::Create {
        object: Object::Volume(Shared::new(alloc, volume)?),
    })
}

/// The creation of the claim of this number, which asks for so many bytes of the class of all volumes.
pub fn create_claim(alloc: Global, number: u64, bytes: u64) -> Result<Request, OutOfMemory> {
    let name = numbered(alloc, "c", number)?;
    let mut claim = wanting_claim(alloc, name.as_str(), None, 0, "")?;
    claim.amount = amount(alloc, bytes)?;
    Ok(Request::Create {
        object: Object::Claim(Shared::new(alloc, claim)?),
    })
}

/// The edit that labels the volume of this number.
pub fn label(alloc: Global, number: u64, round: u64) -> Result<Request, OutOfMemory> {
    let name = numbered(alloc, "v", number)?;
    let key = volume_key(alloc, name.as_str())?;
    let edit = Edit::SetLabel {
        key: Text::new(alloc, "round")?,
        value: numbered(alloc, "v", round)?,
    };
    Ok(Request::Edit { key, edit })
}
