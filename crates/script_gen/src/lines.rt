//! The lines of a generated script.

ghost use Rattle.std.specs.Prelude.{◌≡◌, ◌+◌, ◌*◌, ◌<◌, [], ◌∷◌, ◌++◌, IfOk, OnOk};
ghost use Rattle.kube_objects.specs.declared.objects.Object.TheVariants as objects;
ghost use Rattle.script_text.specs.declared.script.Line.TheVariants as lines;
ghost use Rattle.script_gen.specs.Objects.{class_named, zoned_node};
ghost use Rattle.script_gen.specs.Generated.{creates, volume_line, class_drawn, claim_line, late_claim_line, pod_line, delete_line, class_lines, node_lines, volume_lines, claim_lines, pod_lines, delete_lines, generated_lines};

use crate::draws::Draws;
use crate::objects::{claim_key, claim_of, class_named, node_in, numbered, pod_with, volume_of};
use call_types::request::Request;
use kube_types::copies::OutOfMemory;
use kube_types::items::Items;
use kube_types::objects::Object;
use kube_types::shared::Shared;
use script_text::script::Line;
use std::alloc::Global;

fn creates(object: Object) -> Line
    ensures { result ≡ creates object }
{
    Line::Call {
        user: 1,
        request: Request::Create { object },
    }
}

// ---- the lines of each number

#[tactic(auto, using(crate::proofs::Drawn::volume_at))]
fn volume_line(alloc: Global, draws: &mut Draws, i: u64) -> Result<Line, OutOfMemory>
    requires number { i < 256 }
    requires made { draws.old.made ≡ 2 * i }
    ensures line { IfOk result (λ line. line ≡ volume_line draws.old.seed i) }
    ensures seed { draws.new.seed ≡ draws.old.seed }
    ensures made { draws.new.made ≡ 2 * i + 2 }
{
    let size = 1 + draws.draw(16);
    let many = draws.draw(4) == 0;
    let volume = volume_of(alloc, i, size, many)?;
    Ok(creates(Object::Volume(Shared::new(alloc, volume)?)))
}

fn class_drawn(n: u64) -> &'static str
    ensures { result.now ≡ class_drawn n }
{
    if n == 3 { "fast" } else { "slow" }
}

#[tactic(auto, using(crate::proofs::Drawn::claim_at))]
fn claim_line(alloc: Global, draws: &mut Draws, i: u64) -> Result<Line, OutOfMemory>
    requires number { i < 256 }
    requires made { draws.old.made ≡ 2 * i + 512 }
    ensures line { IfOk result (λ line. line ≡ claim_line draws.old.seed i) }
    ensures seed { draws.new.seed ≡ draws.old.seed }
    ensures made { draws.new.made ≡ 2 * i + 514 }
{
    let size = 1 + draws.draw(16);
    let class = class_drawn(draws.draw(4));
    let name = numbered(alloc, "c", i)?;
    let claim = claim_of(alloc, name, size, class)?;
    Ok(creates(Object::Claim(Shared::new(alloc, claim)?)))
}

fn late_claim_line(alloc: Global, i: u64) -> Result<Line, OutOfMemory>
    ensures { IfOk result (λ line. line ≡ late_claim_line i) }
{
    let name = numbered(alloc, "l", i)?;
    let claim = claim_of(alloc, name, 1, "late")?;
    Ok(creates(Object::Claim(Shared::new(alloc, claim)?)))
}

fn pod_line(alloc: Global, i: u64) -> Result<Line, OutOfMemory>
    ensures { IfOk result (λ line. line ≡ pod_line i) }
{
    let name = numbered(alloc, "p", i)?;
    let claim = numbered(alloc, "l", i)?;
    let pod = pod_with(alloc, name, &claim)?;
    Ok(creates(Object::Pod(Shared::new(alloc, pod)?)))
}

#[tactic(auto, using(crate::proofs::Drawn::delete_at))]
fn delete_line(alloc: Global, draws: &mut Draws, i: u64) -> Result<Line, OutOfMemory>
    requires number { i < 64 }
    requires made { draws.old.made ≡ i + 1024 }
    ensures line { IfOk result (λ line. line ≡ delete_line draws.old.seed i) }
    ensures seed { draws.new.seed ≡ draws.old.seed }
    ensures made { draws.new.made ≡ i + 1025 }
{
    let name = numbered(alloc, "c", draws.draw(256))?;
    let key = claim_key(alloc, name)?;
    Ok(Line::Call {
        user: 1,
        request: Request::Delete { key, uid: None },
    })
}

// ---- all lines

fn push_class(
    alloc: Global,
    lines: &mut Items<Line>,
    name: &str,
    delayed: bool,
) -> Result<(), OutOfMemory>
    ensures { OnOk result (lines.new ≡ lines.old ++ creates (objects.Class (class_named name.now delayed)) ∷ []) }
{
    let class = class_named(alloc, name, delayed)?;
    lines.push(creates(Object::Class(Shared::new(alloc, class)?)))
}

fn push_node(
    alloc: Global,
    lines: &mut Items<Line>,
    name: &str,
    zone: &str,
) -> Result<(), OutOfMemory>
    ensures { OnOk result (lines.new ≡ lines.old ++ creates (objects.Node (zoned_node name.now zone.now)) ∷ []) }
{
    let node = node_in(alloc, name, zone)?;
    lines.push(creates(Object::Node(Shared::new(alloc, node)?)))
}

/// The lines of the classes and the nodes.
fn first_lines(alloc: Global) -> Result<Items<Line>, OutOfMemory>
    ensures { IfOk result (λ lines. lines ≡ class_lines ++ node_lines) }
{
    let mut lines = Items::new(alloc);
    push_class(alloc, &mut lines, "fast", false)?;
    push_class(alloc, &mut lines, "late", true)?;
    push_node(alloc, &mut lines, "n0", "z0")?;
    push_node(alloc, &mut lines, "n1", "z1")?;
    push_node(alloc, &mut lines, "n2", "z0")?;
    push_node(alloc, &mut lines, "n3", "z1")?;
    Ok(lines)
}

fn push_volumes(
    alloc: Global,
    lines: &mut Items<Line>,
    draws: &mut Draws,
) -> Result<(), OutOfMemory>
    requires { draws.old.made ≡ 0 }
    ensures lines { OnOk result (lines.new ≡ lines.old ++ volume_lines draws.old.seed) }
    ensures seed { OnOk result (draws.new.seed ≡ draws.old.seed) }
    ensures made { OnOk result (draws.new.made ≡ 512) }
{
    for i in 0..256 {
        lines.push(volume_line(alloc, draws, i)?)?;
    }
    Ok(())
}

fn push_claims(alloc: Global, lines: &mut Items<Line>, draws: &mut Draws) -> Result<(), OutOfMemory>
    requires { draws.old.made ≡ 512 }
    ensures lines { OnOk result (lines.new ≡ lines.old ++ claim_lines draws.old.seed) }
    ensures seed { OnOk result (draws.new.seed ≡ draws.old.seed) }
    ensures made { OnOk result (draws.new.made ≡ 1024) }
{
    for i in 0..256 {
        lines.push(claim_line(alloc, draws, i)?)?;
    }
    Ok(())
}

fn push_pods(alloc: Global, lines: &mut Items<Line>) -> Result<(), OutOfMemory>
    ensures { OnOk result (lines.new ≡ lines.old ++ pod_lines) }
{
    for i in 0..64 {
        lines.push(late_claim_line(alloc, i)?)?;
        lines.push(pod_line(alloc, i)?)?;
    }
    Ok(())
}

fn push_deletes(
    alloc: Global,
    lines: &mut Items<Line>,
    draws: &mut Draws,
) -> Result<(), OutOfMemory>
    requires { draws.old.made ≡ 1024 }
    ensures { OnOk result (lines.new ≡ lines.old ++ delete_lines draws.old.seed) }
{
    for i in 0..64 {
        lines.push(delete_line(alloc, draws, i)?)?;
    }
    Ok(())
}

/// All lines.
#[tactic(auto, unfolding(crate::specs::Generated::generated_lines))]
pub fn lines_of(alloc: Global, seed: u64) -> Result<Items<Line>, OutOfMemory>
    ensures { IfOk result (λ lines. lines ≡ generated_lines seed) }
{
    let mut draws = Draws::new(seed);
    let mut lines = first_lines(alloc)?;
    push_volumes(alloc, &mut lines, &mut draws)?;
    push_claims(alloc, &mut lines, &mut draws)?;
    push_pods(alloc, &mut lines)?;
    lines.push(Line::Drain)?;
    push_deletes(alloc, &mut lines, &mut draws)?;
    Ok(lines)
}
