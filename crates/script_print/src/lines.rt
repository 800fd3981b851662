//! Lines of scripts as JSON.

ghost use Rattle.std.specs.Prelude.{◌≡◌, None, OnOk, codes, if◌then◌else◌};
ghost use Rattle.json_text.specs.Members.{text, with_option, with_options, with_member_text};
ghost use Rattle.json_text.specs.Writing.{written, with_value};
ghost use Rattle.script_text.specs.declared.script.Line.TheVariants.{Call, Lose, Restart, Turn};
ghost use Rattle.script_lines.specs.Members.{is_namespaced};
ghost use Rattle.script_print.specs.Printing.{user_pairs, line_key_pairs, call_pairs, when_word, actor_pairs, line_pairs, line_data, pool_pairs, pool_data, fault_data, import_data};

use call_types::request::Request;
use call_types::setup::Pool;
use history_text::asks::{ask_word, put_arguments, put_edit};
use history_text::replies::put_topology;
use json_text::member_texts::MemberTexts;
use json_text::writing::JsonText;
use kube_types::copies::OutOfMemory;
use kube_types::key::Key;
use kube_types::objects::Object;
use object_print::members::{MemberSink, put_optional};
use script_text::actors::Actor;
use script_text::keys::is_namespaced;
use script_text::script::Line;
use std::alloc::Global;

#[tactic(auto, unfolding(json_text::specs::Members::with_option))]
fn put_user(out: &mut MemberTexts, user: u64) -> Result<(), OutOfMemory>
    ensures ok { OnOk result (out.new ≡ with_options with_member_text (user_pairs user) out.old) }
{
    if user == 1 {
        Ok(())
    } else {
        out.put("user", &user)
    }
}

#[tactic(auto, unfolding(json_text::specs::Members::with_option))]
fn put_namespace(out: &mut MemberTexts, key: &Key) -> Result<(), OutOfMemory>
    ensures ok { OnOk result (out.new ≡ with_option with_member_text (codes "namespace") (if is_namespaced key.now.kind then text key.now.namespace else None) out.old) }
{
    if is_namespaced(key.kind) {
        out.put_text("namespace", key.namespace.as_str())
    } else {
        Ok(())
    }
}

fn put_key(out: &mut MemberTexts, key: &Key) -> Result<(), OutOfMemory>
    ensures ok { OnOk result (out.new ≡ with_options with_member_text (line_key_pairs key.now) out.old) }
{
    out.put_text("kind", key.kind.name())?;
    out.put_text("name", key.name.as_str())?;
    put_namespace(out, key)
}

fn put_call(out: &mut MemberTexts, request: &Request) -> Result<(), OutOfMemory>
    ensures ok { OnOk result (out.new ≡ with_options with_member_text (call_pairs request.now) out.old) }
{
    match request {
        Request::Create { object } => out.put("object", object),
        Request::Update { object, version: _ } => out.put("object", object),
        Request::Edit { key, edit } => {
            put_key(out, key)?;
            put_edit(out, edit)
        }
        Request::Delete { key, uid } => {
            put_key(out, key)?;
            put_optional(out, "uid", uid)
        }
        Request::Get { key } => put_key(out, key),
        _ => put_arguments(out, request),
    }
}

fn when_word(after: bool) -> &'static str
    ensures { result.now ≡ when_word after }
{
    if after { "after" } else { "before" }
}

fn put_actor(out: &mut MemberTexts, alloc: Global, actor: &Actor) -> Result<(), OutOfMemory>
    ensures ok { OnOk result (out.new ≡ with_options with_member_text (actor_pairs actor.now) out.old) }
{
    let name = actor.name(alloc)?;
    out.put_text("actor", name.as_str())
}

fn put_lose(
    out: &mut MemberTexts,
    alloc: Global,
    actor: &Actor,
    call: u64,
    after: bool,
) -> Result<(), OutOfMemory>
    ensures ok { OnOk result (out.new ≡ with_options with_member_text (line_pairs (Lose actor.now call after)) out.old) }
{
    out.put_text("do", "lose")?;
    put_actor(out, alloc, actor)?;
    out.put("call", &call)?;
    out.put_text("when", when_word(after))
}

fn put_restart(
    out: &mut MemberTexts,
    alloc: Global,
    actor: &Actor,
    after: u64,
) -> Result<(), OutOfMemory>
    ensures ok { OnOk result (out.new ≡ with_options with_member_text (line_pairs (Restart actor.now after)) out.old) }
{
    out.put_text("do", "restart")?;
    put_actor(out, alloc, actor)?;
    out.put("after", &after)
}

fn put_turn(
    out: &mut MemberTexts,
    alloc: Global,
    actor: &Actor,
    calls: u64,
) -> Result<(), OutOfMemory>
    ensures ok { OnOk result (out.new ≡ with_options with_member_text (line_pairs (Turn actor.now calls)) out.old) }
{
    out.put_text("do", "turn")?;
    put_actor(out, alloc, actor)?;
    out.put("calls", &calls)
}

fn put_users_call(out: &mut MemberTexts, user: u64, request: &Request) -> Result<(), OutOfMemory>
    ensures ok { OnOk result (out.new ≡ with_options with_member_text (line_pairs (Call user request.now)) out.old) }
{
    out.put_text("do", ask_word(request))?;
    put_call(out, request)?;
    put_user(out, user)
}

fn put_line(out: &mut MemberTexts, alloc: Global, line: &Line) -> Result<(), OutOfMemory>
    ensures ok { OnOk result (out.new ≡ with_options with_member_text (line_pairs line.now) out.old) }
{
    match line {
        Line::Call { user, request } => put_users_call(out, *user, request),
        Line::Lose { actor, call, after } => put_lose(out, alloc, actor, *call, *after),
        Line::Restart { actor, after } => put_restart(out, alloc, actor, *after),
        Line::Turn { actor, calls } => put_turn(out, alloc, actor, *calls),
        Line::Drain => out.put_text("do", "drain"),
    }
}

/// Puts a line at the end.
#[tactic(auto, using(crate::proofs::Closings::closes_line))]
pub fn write_line(out: &mut JsonText, line: &Line) -> Result<(), OutOfMemory>
    ensures ok { OnOk result (written out.new ≡ with_value (line_data line.now) (written out.old)) }
{
    let alloc = out.allocator();
    let mut members = MemberTexts::new(alloc);
    put_line(&mut members, alloc, line)?;
    members.write(out)
}

fn put_pool(out: &mut MemberTexts, pool: &Pool, size: &str) -> Result<(), OutOfMemory>
    ensures ok { OnOk result (out.new ≡ with_options with_member_text (pool_pairs pool.now size.now) out.old) }
{
    out.put_text("do", "pool")?;
    out.put_text("bytes", size)?;
    out.put_text("name", pool.name.as_str())?;
    out.put_text("provisioner", pool.provisioner.as_str())?;
    put_topology(out, &pool.topology)
}

/// Puts the line of a pool at the end, whose size is written so.
#[tactic(auto, using(crate::proofs::Closings::closes_pool))]
pub fn write_pool(out: &mut JsonText, pool: &Pool, size: &str) -> Result<(), OutOfMemory>
    ensures ok { OnOk result (written out.new ≡ with_value (pool_data pool.now size.now) (written out.old)) }
{
    let mut members = MemberTexts::new(out.allocator());
    put_pool(&mut members, pool, size)?;
    members.write(out)
}

/// Puts the line of a fault at the end.
#[tactic(auto, using(crate::proofs::Closings::closes_fault))]
pub fn write_fault(out: &mut JsonText, call: u64) -> Result<(), OutOfMemory>
    ensures ok { OnOk result (written out.new ≡ with_value (fault_data call) (written out.old)) }
{
    out.begin_object()?;
    out.put("call", &call)?;
    out.put_text("do", "fault")?;
    out.end_object()
}

/// Puts the line of an imported object at the end.
#[tactic(auto, using(crate::proofs::Closings::closes_import))]
pub fn write_import(out: &mut JsonText, object: &Object) -> Result<(), OutOfMemory>
    ensures { OnOk result (written out.new ≡ with_value (import_data object.now) (written out.old)) }
{
    out.begin_object()?;
    out.put_text("do", "import")?;
    out.put("object", object)?;
    out.end_object()
}
