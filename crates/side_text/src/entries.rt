//! The lines of the side's entries.

ghost use Rattle.std.specs.Prelude.{◌≡◌, Some, OnOk, IfOk, codes};
ghost use Rattle.json_text.specs.Members.{with_member_text, with_option, with_options};
ghost use Rattle.json_text.specs.Writing.{with_some, with_value, written};
ghost use Rattle.side_text.specs.Entries.{ask_data, ask_pairs, create_pairs, error_pairs, grow_pairs, other_user, over_pairs, quota_pairs, reply_data, reply_pairs, side_line, step_pairs, ungrown_pairs};

use crate::words::{step_word, why_word};
use itoa::Buffer;
use json_text::member_texts::MemberTexts;
use json_text::writing::JsonText;
use kube_types::copies::OutOfMemory;
use kube_types::key::Key;
use kube_types::objects::Object;
use kube_types::text::Bytes;
use object_print::members::{AsJson, MemberSink, print, put_filled};
use side_calls::asks::{SideAsk, SideEntry, SideReply};
use side_calls::quotas::OverQuota;
use side_calls::sizes::{GrowError, StepKind};
use std::alloc::Global;

/// An entry of the side, and how many entries of the history come before it.
pub struct PlacedEntry {
    pub after: u64,
    pub entry: SideEntry,
}

impl Drop for PlacedEntry {
    fn drop(self) {
        let PlacedEntry { after: _, entry } = self;
        drop(entry);
    }
}

/// A number that may have more than 64 bits.
#[derive(Clone, Copy)]
pub struct Wide {
    pub number: u128,
}

impl AsJson for Wide {
    ghost use Rattle.json_text.specs.Build.{number_data};

    ghost json = { λ w. number_data w.number };

    fn write(&self, out: &mut JsonText) -> Result<(), OutOfMemory> {
        let mut buffer = Buffer::new();
        out.raw(buffer.format(self.number).as_bytes())
    }
}

// ---- asks

#[tactic(auto, unfolding(json_text::specs::Members::with_option))]
fn put_user(out: &mut MemberTexts, user: u64) -> Result<(), OutOfMemory>
    ensures ok { OnOk result (out.new ≡ with_option with_member_text (codes "user") (other_user user) out.old) }
{
    if user == 1 {
        Ok(())
    } else {
        out.put("user", &user)
    }
}

fn put_create(out: &mut MemberTexts, user: u64, object: &Object) -> Result<(), OutOfMemory>
    ensures ok { OnOk result (out.new ≡ with_options with_member_text (create_pairs user object.now) out.old) }
{
    out.put_text("do", "create")?;
    out.put("object", object)?;
    put_user(out, user)
}

fn put_grow(out: &mut MemberTexts, user: u64, key: &Key, bytes: u64) -> Result<(), OutOfMemory>
    ensures ok { OnOk result (out.new ≡ with_options with_member_text (grow_pairs user key.now bytes) out.old) }
{
    out.put("bytes", &bytes)?;
    out.put_text("do", "grow")?;
    out.put_text("name", key.name.as_str())?;
    out.put_text("namespace", key.namespace.as_str())?;
    put_user(out, user)
}

fn put_step(out: &mut MemberTexts, kind: StepKind, key: &Key) -> Result<(), OutOfMemory>
    ensures ok { OnOk result (out.new ≡ with_options with_member_text (step_pairs kind key.now) out.old) }
{
    out.put_text("do", step_word(kind))?;
    out.put_text("kind", key.kind.name())?;
    out.put_text("name", key.name.as_str())?;
    put_filled(out, "namespace", key.namespace.as_str())
}

fn put_ask(out: &mut MemberTexts, ask: &SideAsk) -> Result<(), OutOfMemory>
    ensures ok { OnOk result (out.new ≡ with_options with_member_text (ask_pairs ask.now) out.old) }
{
    match ask {
        SideAsk::Create { user, object } => put_create(out, *user, object),
        SideAsk::Grow { user, key, bytes } => put_grow(out, *user, key, *bytes),
        SideAsk::Step { kind, key } => put_step(out, *kind, key),
    }
}

#[tactic(auto, using(crate::proofs::Closings::closes_ask))]
fn write_ask(out: &mut JsonText, ask: &SideAsk) -> Result<(), OutOfMemory>
    ensures ok { OnOk result (written out.new ≡ with_value (ask_data ask.now) (written out.old)) }
{
    let mut members = MemberTexts::new(out.allocator());
    put_ask(&mut members, ask)?;
    members.write(out)
}

// ---- replies

fn put_over(out: &mut MemberTexts, word: &str, used: u128, limit: u64) -> Result<(), OutOfMemory>
    ensures ok { OnOk result (out.new ≡ with_options with_member_text (over_pairs word.now used limit) out.old) }
{
    out.put("limit", &limit)?;
    out.put_text("refused", word)?;
    out.put("used", &Wide { number: used })
}

fn put_quota(out: &mut MemberTexts, over: OverQuota) -> Result<(), OutOfMemory>
    ensures ok { OnOk result (out.new ≡ with_options with_member_text (quota_pairs over) out.old) }
{
    match over {
        OverQuota::OverBytes { used, limit } => put_over(out, "OverBytes", used, limit),
        OverQuota::OverClaims { used, limit } => put_over(out, "OverClaims", used as u128, limit),
    }
}

fn put_ungrown(out: &mut MemberTexts, why: &str) -> Result<(), OutOfMemory>
    ensures ok { OnOk result (out.new ≡ with_options with_member_text (ungrown_pairs why.now) out.old) }
{
    out.put_text("refused", "NotGrowable")?;
    out.put_text("why", why)
}

fn put_error(out: &mut MemberTexts, error: GrowError) -> Result<(), OutOfMemory>
    ensures ok { OnOk result (out.new ≡ with_options with_member_text (error_pairs error) out.old) }
{
    match error {
        GrowError::NotGrowable(why) => put_ungrown(out, why_word(why)),
        GrowError::OverBytes { used, limit } => put_over(out, "OverBytes", used, limit),
    }
}

fn put_reply(out: &mut MemberTexts, reply: &SideReply) -> Result<(), OutOfMemory>
    ensures ok { OnOk result (out.new ≡ with_options with_member_text (reply_pairs reply.now) out.old) }
{
    match reply {
        SideReply::Done => out.put("done", &true),
        SideReply::Bytes(bytes) => out.put("bytes", bytes),
        SideReply::OverQuota(over) => put_quota(out, *over),
        SideReply::NotGrown(error) => put_error(out, *error),
    }
}

#[tactic(auto, using(crate::proofs::Closings::closes_reply))]
fn write_reply(out: &mut JsonText, reply: &SideReply) -> Result<(), OutOfMemory>
    ensures ok { OnOk result (written out.new ≡ with_value (reply_data reply.now) (written out.old)) }
{
    let mut members = MemberTexts::new(out.allocator());
    put_reply(&mut members, reply)?;
    members.write(out)
}

// ---- entries

#[tactic(auto, unfolding(json_text::specs::Members::with_option))]
fn put_asked(out: &mut JsonText, ask: &SideAsk) -> Result<(), OutOfMemory>
    ensures ok { OnOk result (written out.new ≡ with_some (codes "ask") (Some (ask_data ask.now)) (written out.old)) }
{
    out.key("ask")?;
    write_ask(out, ask)
}

#[tactic(auto, unfolding(json_text::specs::Members::with_option))]
fn put_answered(out: &mut JsonText, reply: &SideReply) -> Result<(), OutOfMemory>
    ensures ok { OnOk result (written out.new ≡ with_some (codes "reply") (Some (reply_data reply.now)) (written out.old)) }
{
    out.key("reply")?;
    write_reply(out, reply)
}

impl AsJson for PlacedEntry {
    ghost use Rattle.side_text.specs.Entries.{side_data};

    ghost json = { side_data };

    #[tactic(auto, using(crate::proofs::Closings::closes_entry))]
    fn write(&self, out: &mut JsonText) -> Result<(), OutOfMemory> {
        out.begin_object()?;
        out.put("after", &self.after)?;
        put_asked(out, &self.entry.ask)?;
        put_answered(out, &self.entry.reply)?;
        out.end_object()
    }
}

/// The line of an entry, without a line feed.
pub fn print_entry(alloc: Global, entry: &PlacedEntry) -> Result<Bytes, OutOfMemory>
    ensures { IfOk result (λ b. b ≡ side_line entry.now) }
{
    print(alloc, entry)
}
