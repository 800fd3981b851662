//! Names of data, compared without memory.

ghost use Rattle.std.specs.Prelude.{◌≡◌, ◌↔◌, ◌∷◌, ◌++◌, IsTrue, codes, drop};
ghost use Rattle.kube_objects.specs.Sources.{data_id_of, driver_by, handle_by};
ghost use Rattle.kube_parts.specs.Uids.{uid_text};
ghost use Rattle.binder_model.specs.Provisioning.{data_name};

use kube_types::objects::{DataId, Source};
use kube_types::parts::SourceKind;
use kube_types::uid::Uid;
use plain_data::copies::Plain;
use plain_data::text::Text;
use uuid::Uuid;

/// Whether the text is the front, the mark and the back.
fn is_joined(text: &[u8], front: &[u8], mark: u8, back: &[u8]) -> bool
    ensures { IsTrue result ↔ (text.now ≡ front.now ++ mark ∷ back.now) }
{
    let mut place = 0;
    while place < front.len() {
        if place >= text.len() {
            return false;
        }
        if text[place] != front[place] {
            return false;
        }
        place += 1;
    }
    goes_on(text, place, mark, back)
}

fn is_same(left: &[u8], right: &[u8]) -> bool
    ensures { IsTrue result ↔ (left.now ≡ right.now) }
{
    left == right
}

/// Whether the text from the place on is the mark and the back.
fn goes_on(text: &[u8], place: usize, mark: u8, back: &[u8]) -> bool
    ensures { IsTrue result ↔ (drop place text.now ≡ mark ∷ back.now) }
{
    if place >= text.len() {
        return false;
    }
    if text[place] != mark {
        return false;
    }
    is_same(&text[place + 1..], back)
}

/// Whether the text is the name of the data of the claim with this UID.
#[tactic(auto, unfolding(kube_parts::specs::Uids::uid_text))]
pub fn is_data_name(text: &Text, uid: Uid) -> bool
    ensures { IsTrue result ↔ (text.now ≡ data_name uid) }
{
    let mut buffer = Uuid::encode_buffer();
    let uuid = Uuid::from_u128(uid.0);
    let back = uuid.hyphenated().encode_lower(&mut buffer);
    is_joined(text.as_str().as_bytes(), b"pvc", b'-', back.as_bytes())
}

fn is_server_path(text: &Text, server: &Text, path: &Text) -> bool
    ensures { IsTrue result ↔ (text.now ≡ (server.now ++ codes ":") ++ path.now) }
{
    let text = text.as_str().as_bytes();
    let server = server.as_str().as_bytes();
    let path = path.as_str().as_bytes();
    is_joined(text, server, b':', path)
}

fn is_driver(driver: &Text, source: &Source) -> bool
    ensures { IsTrue result ↔ (driver.now ≡ driver_by source.now.kind source.now.first) }
{
    match source.kind {
        SourceKind::Csi => driver.same(&source.first),
        SourceKind::Nfs => driver.as_str() == "nfs",
        SourceKind::Local => driver.as_str() == "local",
        SourceKind::HostPath => driver.as_str() == "hostPath",
    }
}

fn is_handle(id: &Text, source: &Source) -> bool
    ensures { IsTrue result ↔ (id.now ≡ handle_by source.now.kind source.now.first source.now.second) }
{
    match source.kind {
        SourceKind::Csi => id.same(&source.second),
        SourceKind::Nfs => is_server_path(id, &source.first, &source.second),
        SourceKind::Local => id.same(&source.first),
        SourceKind::HostPath => id.same(&source.first),
    }
}

/// Whether the id is that of the source's data.
pub fn is_id_of(id: &DataId, source: &Source) -> bool
    ensures { IsTrue result ↔ (id.now ≡ data_id_of source.now) }
{
    if !is_driver(&id.driver, source) {
        return false;
    }
    is_handle(&id.id, source)
}
