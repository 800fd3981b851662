//! Parts of the specs of objects as JSON.

ghost use Rattle.std.specs.Prelude.{◌≡◌, OnOk, Some, codes};
ghost use Rattle.serde_json.specs.Data.{string};
ghost use Rattle.json_text.specs.Writing.{written, with_some, with_all, with_value, items_after};
ghost use Rattle.kube_parts.specs.Words.{words_if};
ghost use Rattle.json_text.specs.Members.{items_data, within, array_data};
ghost use Rattle.object_print.specs.Parts.{source_pairs, term_data};

use crate::members::{AsJson, MemberSink, put_filled_list, put_filled_pairs, put_optional};
use json_text::writing::JsonText;
use kube_types::copies::OutOfMemory;
use kube_types::items::Items;
use kube_types::objects::{Amount, Expr, NodeTerms, Ref, Selector, Source};
use kube_types::parts::{Modes, SourceKind};

fn word_if(out: &mut JsonText, wanted: bool, word: &str) -> Result<(), OutOfMemory>
    ensures ok { OnOk result (written out.new ≡ items_after (items_data string (words_if wanted word.now)) (written out.old)) }
{
    if wanted { out.text(word) } else { Ok(()) }
}

impl AsJson for Modes {
    ghost use Rattle.object_print.specs.Parts.{modes_data};

    ghost json = { modes_data };

    #[tactic(auto, using(crate::proofs::Shapes::closes_modes))]
    fn write(&self, out: &mut JsonText) -> Result<(), OutOfMemory> {
        out.begin_array()?;
        word_if(out, self.rwo, "ReadWriteOnce")?;
        word_if(out, self.rox, "ReadOnlyMany")?;
        word_if(out, self.rwx, "ReadWriteMany")?;
        word_if(out, self.rwop, "ReadWriteOncePod")?;
        out.end_array()
    }
}

impl AsJson for Amount {
    ghost use Rattle.object_print.specs.Parts.{storage_data};

    ghost json = { storage_data };

    #[tactic(auto, using(crate::proofs::Shapes::closes_storage))]
    fn write(&self, out: &mut JsonText) -> Result<(), OutOfMemory> {
        out.begin_object()?;
        out.put_text("storage", self.text.as_str())?;
        out.end_object()
    }
}

/// What a claim requests.
#[derive(Clone, Copy)]
pub struct Requests<'a> {
    pub amount: &'a Amount,
}

impl<'a> AsJson for Requests<'a> {
    ghost use Rattle.object_print.specs.Parts.{requests_data};

    ghost json = { λ r. requests_data r.amount.now };

    #[tactic(auto, using(crate::proofs::Shapes::closes_requests))]
    fn write(&self, out: &mut JsonText) -> Result<(), OutOfMemory> {
        out.begin_object()?;
        out.put("requests", self.amount)?;
        out.end_object()
    }
}

impl AsJson for Ref {
    ghost use Rattle.object_print.specs.Parts.{ref_data};

    ghost json = { ref_data };

    #[tactic(auto, using(crate::proofs::Shapes::closes_ref))]
    fn write(&self, out: &mut JsonText) -> Result<(), OutOfMemory> {
        out.begin_object()?;
        out.put_text("name", self.name.as_str())?;
        out.put_text("namespace", self.namespace.as_str())?;
        put_optional(out, "uid", &self.uid)?;
        out.end_object()
    }
}

fn put_source(out: &mut JsonText, source: &Source) -> Result<(), OutOfMemory>
    ensures ok { OnOk result (written out.new
        ≡ with_all (source_pairs source.now.kind source.now.first source.now.second) (written out.old)) }
{
    let first = source.first.as_str();
    let second = source.second.as_str();
    match source.kind {
        SourceKind::Csi => {
            out.put_text("driver", first)?;
            out.put_text("volumeHandle", second)
        }
        SourceKind::Nfs => {
            out.put_text("path", second)?;
            out.put_text("server", first)
        }
        SourceKind::Local => out.put_text("path", first),
        SourceKind::HostPath => out.put_text("path", first),
    }
}

impl AsJson for Source {
    ghost use Rattle.object_print.specs.Parts.{source_data};

    ghost json = { source_data };

    #[tactic(auto, using(crate::proofs::Shapes::closes_source))]
    fn write(&self, out: &mut JsonText) -> Result<(), OutOfMemory> {
        out.begin_object()?;
        put_source(out, self)?;
        out.end_object()
    }
}

impl AsJson for Expr {
    ghost use Rattle.object_print.specs.Parts.{expr_data};

    ghost json = { expr_data };

    #[tactic(auto, using(crate::proofs::Shapes::closes_expr))]
    fn write(&self, out: &mut JsonText) -> Result<(), OutOfMemory> {
        out.begin_object()?;
        out.put_text("key", self.key.as_str())?;
        out.put_text("operator", self.op.name())?;
        put_filled_list(out, "values", self.values.as_slice())?;
        out.end_object()
    }
}

impl AsJson for Items<Expr> {
    ghost use Rattle.object_print.specs.Parts.{term_data};

    ghost json = { term_data };

    #[tactic(auto, using(crate::proofs::Shapes::closes_term))]
    fn write(&self, out: &mut JsonText) -> Result<(), OutOfMemory> {
        out.begin_object()?;
        put_filled_list(out, "matchExpressions", self.as_slice())?;
        out.end_object()
    }
}

#[tactic(auto, using(json_text::proofs::Closing::closes_within))]
fn write_terms(out: &mut JsonText, terms: &NodeTerms) -> Result<(), OutOfMemory>
    ensures ok { OnOk result (written out.new
        ≡ with_value (within (codes "nodeSelectorTerms") (array_data term_data terms.now.terms)) (written out.old)) }
{
    out.begin_object()?;
    out.put_list("nodeSelectorTerms", terms.terms.as_slice())?;
    out.end_object()
}

#[tactic(auto, unfolding(json_text::specs::Members::with_option))]
fn put_required(out: &mut JsonText, terms: &NodeTerms) -> Result<(), OutOfMemory>
    ensures ok { OnOk result (written out.new
        ≡ with_some (codes "required") (Some (within (codes "nodeSelectorTerms") (array_data term_data terms.now.terms))) (written out.old)) }
{
    out.key("required")?;
    write_terms(out, terms)
}

impl AsJson for NodeTerms {
    ghost use Rattle.object_print.specs.Parts.{node_terms_data};

    ghost json = { node_terms_data };

    #[tactic(auto, using(crate::proofs::Shapes::closes_node_terms))]
    fn write(&self, out: &mut JsonText) -> Result<(), OutOfMemory> {
        out.begin_object()?;
        put_required(out, self)?;
        out.end_object()
    }
}

impl AsJson for Selector {
    ghost use Rattle.object_print.specs.Parts.{selector_data};

    ghost json = { selector_data };

    #[tactic(auto, using(crate::proofs::Shapes::closes_selector))]
    fn write(&self, out: &mut JsonText) -> Result<(), OutOfMemory> {
        out.begin_object()?;
        put_filled_list(out, "matchExpressions", self.exprs.as_slice())?;
        put_filled_pairs(out, "matchLabels", &self.labels)?;
        out.end_object()
    }
}
