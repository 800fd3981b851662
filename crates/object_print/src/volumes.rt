//! Volumes as JSON.

ghost use Rattle.std.specs.Prelude.{◌≡◌, [], Some, OnOk, codes};
ghost use Rattle.json_text.specs.Members.{with_options};
ghost use Rattle.json_text.specs.Writing.{written, with_some, with_value};
ghost use Rattle.object_print.specs.Volumes.{volume_front, volume_back, volume_spec, volume_status};

use crate::members::{AsJson, MemberSink, put_filled, put_optional};
use crate::metadata::put_head;
use json_text::member_texts::MemberTexts;
use json_text::writing::JsonText;
use kube_types::copies::OutOfMemory;
use kube_types::objects::Volume;
use kube_types::words::volume_mode;

fn put_volume_front<S: MemberSink>(out: &mut S, volume: &Volume) -> Result<(), OutOfMemory>
    ensures ok { OnOk result (S.state out.new
        ≡ with_options S.with_member (volume_front volume.now) (S.state out.old)) }
{
    out.put("accessModes", &volume.modes)?;
    out.put("capacity", &volume.amount)?;
    put_optional(out, "claimRef", &volume.claim_ref)?;
    out.put(volume.source.kind.name(), &volume.source)
}

fn put_volume_back<S: MemberSink>(out: &mut S, volume: &Volume) -> Result<(), OutOfMemory>
    ensures ok { OnOk result (S.state out.new
        ≡ with_options S.with_member (volume_back volume.now) (S.state out.old)) }
{
    put_optional(out, "nodeAffinity", &volume.terms)?;
    out.put_text("persistentVolumeReclaimPolicy", volume.policy.name())?;
    put_filled(out, "storageClassName", volume.class.as_str())?;
    out.put_text("volumeMode", volume_mode(volume.block))
}

#[tactic(auto, using(crate::proofs::ClosingVolumes::closes_volume_spec))]
fn write_plain_spec(out: &mut JsonText, volume: &Volume) -> Result<(), OutOfMemory>
    requires { volume.now.extra ≡ [] }
    ensures ok { OnOk result (written out.new ≡ with_value (volume_spec volume.now) (written out.old)) }
{
    out.begin_object()?;
    put_volume_front(out, volume)?;
    put_volume_back(out, volume)?;
    out.end_object()
}

/// Over the members that are kept.
#[tactic(auto, using(crate::proofs::ClosingVolumes::closes_full_volume_spec))]
fn write_full_spec(out: &mut JsonText, volume: &Volume) -> Result<(), OutOfMemory>
    ensures ok { OnOk result (written out.new ≡ with_value (volume_spec volume.now) (written out.old)) }
{
    let mut members = MemberTexts::kept(out.allocator(), volume.extra.as_str())?;
    put_volume_front(&mut members, volume)?;
    put_volume_back(&mut members, volume)?;
    members.write(out)
}

fn write_spec(out: &mut JsonText, volume: &Volume) -> Result<(), OutOfMemory>
    ensures ok { OnOk result (written out.new ≡ with_value (volume_spec volume.now) (written out.old)) }
{
    if volume.extra.as_str().is_empty() {
        write_plain_spec(out, volume)
    } else {
        write_full_spec(out, volume)
    }
}

#[tactic(auto, using(crate::proofs::ClosingVolumes::closes_volume_status))]
fn write_status(out: &mut JsonText, volume: &Volume) -> Result<(), OutOfMemory>
    ensures ok { OnOk result (written out.new ≡ with_value (volume_status volume.now) (written out.old)) }
{
    out.begin_object()?;
    out.put_text("phase", volume.phase.name())?;
    out.end_object()
}

#[tactic(auto, unfolding(json_text::specs::Members::with_option))]
fn put_spec(out: &mut JsonText, volume: &Volume) -> Result<(), OutOfMemory>
    ensures ok { OnOk result (written out.new
        ≡ with_some (codes "spec") (Some (volume_spec volume.now)) (written out.old)) }
{
    out.key("spec")?;
    write_spec(out, volume)
}

#[tactic(auto, unfolding(json_text::specs::Members::with_option))]
fn put_status(out: &mut JsonText, volume: &Volume) -> Result<(), OutOfMemory>
    ensures ok { OnOk result (written out.new
        ≡ with_some (codes "status") (Some (volume_status volume.now)) (written out.old)) }
{
    out.key("status")?;
    write_status(out, volume)
}

impl AsJson for Volume {
    ghost use Rattle.object_print.specs.Volumes.{volume_data};

    ghost json = { volume_data };

    #[tactic(auto, using(crate::proofs::ClosingVolumes::closes_volume))]
    fn write(&self, out: &mut JsonText) -> Result<(), OutOfMemory> {
        out.begin_object()?;
        put_head(out, "v1", "PersistentVolume", false, &self.meta)?;
        put_spec(out, self)?;
        put_status(out, self)?;
        out.end_object()
    }
}
