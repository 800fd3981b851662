//! Where data may be provisioned.

ghost use Rattle.std.specs.Prelude.{◌≡◌, IsTrue, Some, true};
ghost use Rattle.kube_objects.specs.declared.objects.Node.{Node as NodeData};
ghost use Rattle.kube_objects.specs.declared.objects.Object.TheVariants as objects;
ghost use Rattle.binder_model.specs.ObjectKeys.{node_key};
ghost use Rattle.binder_model.specs.OpsLicence.{AreLabels, MayProvision};
ghost use Rattle.binder_model.specs.Told.{IsNewest};
ghost use Rattle.licence_writes.specs.OpsRows.Providing.{IsProvided, IsProvidedBy};
ghost use Rattle.licence_record.specs.Judged.{Judges};

use crate::roles::ops::{Asked, provisions};
use evidence_pages::sought::Sought;
use kube_types::bindings::{SELECTED_NODE, class_of_claim};
use kube_types::copies::Plain;
use kube_types::objects::{Claim, Class};
use kube_types::pairs::Pairs;
use kube_types::text::Text;
use licence_record::newest::{newest_class, newest_node, some_newest};
use licence_record::record::Record;
use licence_record::sure::{OfRecordedClaims, SureClaim};
use licence_scans::rows::OfClaims as OfSomeClaims;

/// Whether the labels are those of the newest told node of the name.
fn are_labels_of<R: Record>(seat: &R, name: &Text, labels: &Option<Pairs>) -> bool
    ensures { Judges (R.whole seat.now) result ((node : NodeData) × (IsNewest (R.told seat.now) (node_key name.now) (objects.Node node) × (labels.now ≡ Some node.meta.labels))) }
{
    match newest_node(seat, name.as_str()) {
        None => false,
        Some(node) => match labels {
            None => false,
            Some(labels) => labels.same(&node.meta.labels),
        },
    }
}

fn are_node_labels<R: Record>(seat: &R, claim: &Claim, labels: &Option<Pairs>) -> bool
    ensures { Judges (R.whole seat.now) result (AreLabels (R.told seat.now) claim.now true labels.now) }
{
    match claim.meta.annotations.get(SELECTED_NODE) {
        None => false,
        Some(name) => are_labels_of(seat, name, labels),
    }
}

/// Whether the labels are those of the newest told selected node under a delayed class, else none.
fn are_labels<R: Record>(seat: &R, claim: &Claim, delayed: bool, labels: &Option<Pairs>) -> bool
    ensures { Judges (R.whole seat.now) result (AreLabels (R.told seat.now) claim.now delayed labels.now) }
{
    if delayed {
        are_node_labels(seat, claim, labels)
    } else {
        labels.is_none()
    }
}

fn is_provided_by<R: Record>(
    seat: &R,
    claim: &Claim,
    provisioner: &Text,
    labels: &Option<Pairs>,
    class: &Class,
) -> bool
    ensures { Judges (R.whole seat.now) result (IsProvidedBy (R.told seat.now) claim.now provisioner.now labels.now class.now) }
{
    if !provisioner.same(&class.provisioner) {
        return false;
    }
    if !provisions(class) {
        return false;
    }
    are_labels(seat, claim, class.delayed, labels)
}

fn is_provided<R: Record>(
    seat: &R,
    claim: &Claim,
    provisioner: &Text,
    labels: &Option<Pairs>,
) -> bool
    ensures { Judges (R.whole seat.now) result (IsProvided (R.told seat.now) claim.now provisioner.now labels.now) }
{
    match newest_class(seat, class_of_claim(claim)) {
        None => false,
        Some(class) => is_provided_by(seat, claim, provisioner, labels, class),
    }
}

/// The provisioner and the labels are those of the claim's class and node.
#[derive(Drop)]
struct Provided<'a, R> {
    seat: &'a R,
    provisioner: &'a Text,
    labels: &'a Option<Pairs>,
}

impl<'a, R: Record> SureClaim for Provided<'a, R> {
    ghost allows = { λ t c. IsProvided (R.told t.seat.now) c t.provisioner.now t.labels.now };

    ghost sure = { λ t. R.whole t.seat.now };

    fn test(&self, claim: &Claim) -> bool {
        is_provided(self.seat, claim, self.provisioner, self.labels)
    }
}

/// Whether the data may be provisioned.
pub fn may_provision<R: Record>(
    seat: &R,
    name: &Text,
    provisioner: &Text,
    bytes: u64,
    labels: &Option<Pairs>,
) -> bool
    ensures { Judges (R.whole seat.now) result (MayProvision (R.told seat.now) name.now provisioner.now bytes labels.now) }
{
    let asked = Asked { name, bytes };
    let provided = Provided {
        seat,
        provisioner,
        labels,
    };
    let may = OfSomeClaims { test: &asked };
    let row = OfRecordedClaims { test: &provided };
    some_newest(&may, &row, seat.provisioned(name, Sought::Last), seat)
}
