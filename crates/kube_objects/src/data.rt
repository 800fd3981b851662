//! The data of volumes.

ghost use Rattle.std.specs.Prelude.{◌≡◌, ◌++◌, IfOk, codes};
ghost use Rattle.kube_objects.specs.Sources.{data_id_of, driver_by, handle_by};

use crate::objects::{DataId, Source, Volume};
use kube_parts::parts::SourceKind;
use plain_data::copies::{OutOfMemory, Plain};
use plain_data::text::Text;
use std::alloc::Global;

/// What names the data of a volume: the kind of its source and the source's two texts.
pub fn volume_id(volume: &Volume) -> (SourceKind, &Text, &Text)
    ensures kind { result.0 ≡ volume.now.source.kind }
    ensures first { result.1.now ≡ volume.now.source.first }
    ensures second { result.2.now ≡ volume.now.source.second }
{
    let source = &volume.source;
    (source.kind, &source.first, &source.second)
}

/// The name of the data of a source.
pub fn data_id(alloc: Global, source: &Source) -> Result<DataId, OutOfMemory>
    ensures { IfOk result (λ id. id ≡ data_id_of source.now) }
{
    Ok(DataId {
        driver: Text::new(alloc, driver_of(source))?,
        id: handle_of(alloc, source)?,
    })
}

fn driver_of(source: &Source) -> &str
    ensures { result.now ≡ driver_by source.now.kind source.now.first }
{
    match source.kind {
        SourceKind::Csi => source.first.as_str(),
        SourceKind::Nfs => "nfs",
        SourceKind::Local => "local",
        SourceKind::HostPath => "hostPath",
    }
}

fn handle_of(alloc: Global, source: &Source) -> Result<Text, OutOfMemory>
    ensures { IfOk result (λ text. text ≡ handle_by source.now.kind source.now.first source.now.second) }
{
    match source.kind {
        SourceKind::Csi => source.second.copy(alloc),
        SourceKind::Nfs => server_path(alloc, source.first.as_str(), source.second.as_str()),
        SourceKind::Local => source.first.copy(alloc),
        SourceKind::HostPath => source.first.copy(alloc),
    }
}

fn server_path(alloc: Global, server: &str, path: &str) -> Result<Text, OutOfMemory>
    ensures { IfOk result (λ text. text ≡ (server.now ++ codes ":") ++ path.now) }
{
    let mut text = Text::new(alloc, server)?;
    text.push_str(":")?;
    text.push_str(path)?;
    Ok(text)
}
