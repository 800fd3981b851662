//! Claims as JSON.

ghost use Rattle.std.specs.Prelude.{◌≡◌, [], Some, OnOk, codes};
ghost use Rattle.json_text.specs.Members.{with_options};
ghost use Rattle.json_text.specs.Writing.{written, with_some, with_all, with_value};
ghost use Rattle.object_print.specs.Claims.{claim_front, claim_back, got_modes, claim_status_pairs, claim_spec, claim_status};

use crate::members::{AsJson, MemberSink, put_filled, put_filled_list, put_optional};
use crate::metadata::put_head;
use crate::parts::Requests;
use json_text::member_texts::MemberTexts;
use json_text::writing::JsonText;
use kube_types::copies::OutOfMemory;
use kube_types::objects::{Amount, Claim};
use kube_types::parts::Modes;
use kube_types::words::volume_mode;

fn put_claim_front<S: MemberSink>(out: &mut S, claim: &Claim) -> Result<(), OutOfMemory>
    ensures ok { OnOk result (S.state out.new
        ≡ with_options S.with_member (claim_front claim.now) (S.state out.old)) }
{
    out.put("accessModes", &claim.modes)?;
    let requests = Requests {
        amount: &claim.amount,
    };
    out.put("resources", &requests)?;
    put_optional(out, "selector", &claim.selector)
}

fn put_claim_back<S: MemberSink>(out: &mut S, claim: &Claim) -> Result<(), OutOfMemory>
    ensures ok { OnOk result (S.state out.new
        ≡ with_options S.with_member (claim_back claim.now) (S.state out.old)) }
{
    put_optional(out, "storageClassName", &claim.class)?;
    out.put_text("volumeMode", volume_mode(claim.block))?;
    put_filled(out, "volumeName", claim.volume_name.as_str())
}

#[tactic(auto, using(crate::proofs::ClosingClaims::closes_claim_spec))]
fn write_plain_spec(out: &mut JsonText, claim: &Claim) -> Result<(), OutOfMemory>
    requires { claim.now.extra ≡ [] }
    ensures ok { OnOk result (written out.new ≡ with_value (claim_spec claim.now) (written out.old)) }
{
    out.begin_object()?;
    put_claim_front(out, claim)?;
    put_claim_back(out, claim)?;
    out.end_object()
}

/// Over the members that are kept.
#[tactic(auto, using(crate::proofs::ClosingClaims::closes_full_claim_spec))]
fn write_full_spec(out: &mut JsonText, claim: &Claim) -> Result<(), OutOfMemory>
    ensures ok { OnOk result (written out.new ≡ with_value (claim_spec claim.now) (written out.old)) }
{
    let mut members = MemberTexts::kept(out.allocator(), claim.extra.as_str())?;
    put_claim_front(&mut members, claim)?;
    put_claim_back(&mut members, claim)?;
    members.write(out)
}

fn write_spec(out: &mut JsonText, claim: &Claim) -> Result<(), OutOfMemory>
    ensures ok { OnOk result (written out.new ≡ with_value (claim_spec claim.now) (written out.old)) }
{
    if claim.extra.as_str().is_empty() {
        write_plain_spec(out, claim)
    } else {
        write_full_spec(out, claim)
    }
}

fn put_got_modes(out: &mut JsonText, got: &Option<Amount>, modes: &Modes) -> Result<(), OutOfMemory>
    ensures ok { OnOk result (written out.new
        ≡ with_some (codes "accessModes") (got_modes got.now modes.now) (written out.old)) }
{
    match got {
        None => {
            let names = modes.names(out.allocator())?;
            put_filled_list(out, "accessModes", names.as_slice())
        }
        Some(_) => out.put("accessModes", modes),
    }
}

fn put_claim_state(out: &mut JsonText, claim: &Claim) -> Result<(), OutOfMemory>
    ensures ok { OnOk result (written out.new ≡ with_all (claim_status_pairs claim.now) (written out.old)) }
{
    put_got_modes(out, &claim.got, &claim.got_modes)?;
    put_optional(out, "capacity", &claim.got)?;
    out.put_text("phase", claim.phase.name())
}

#[tactic(auto, using(crate::proofs::ClosingClaims::closes_claim_status))]
fn write_status(out: &mut JsonText, claim: &Claim) -> Result<(), OutOfMemory>
    ensures ok { OnOk result (written out.new ≡ with_value (claim_status claim.now) (written out.old)) }
{
    out.begin_object()?;
    put_claim_state(out, claim)?;
    out.end_object()
}

#[tactic(auto, unfolding(json_text::specs::Members::with_option))]
fn put_spec(out: &mut JsonText, claim: &Claim) -> Result<(), OutOfMemory>
    ensures ok { OnOk result (written out.new
        ≡ with_some (codes "spec") (Some (claim_spec claim.now)) (written out.old)) }
{
    out.key("spec")?;
    write_spec(out, claim)
}

#[tactic(auto, unfolding(json_text::specs::Members::with_option))]
fn put_status(out: &mut JsonText, claim: &Claim) -> Result<(), OutOfMemory>
    ensures ok { OnOk result (written out.new
        ≡ with_some (codes "status") (Some (claim_status claim.now)) (written out.old)) }
{
    out.key("status")?;
    write_status(out, claim)
}

impl AsJson for Claim {
    ghost use Rattle.object_print.specs.Claims.{claim_data};

    ghost json = { claim_data };

    #[tactic(auto, using(crate::proofs::ClosingClaims::closes_claim))]
    fn write(&self, out: &mut JsonText) -> Result<(), OutOfMemory> {
        out.begin_object()?;
        put_head(out, "v1", "PersistentVolumeClaim", true, &self.meta)?;
        put_spec(out, self)?;
        put_status(out, self)?;
        out.end_object()
    }
}
