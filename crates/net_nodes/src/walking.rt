ghost use Rattle.std.specs.Prelude.{◌≡◌, ◌^◌, ◌-◌, ◌<◌, length, Ok, Some, IfOk, IfErr, IfSome};
ghost use Rattle.net_nodes.specs.Links.{AreEnds, AreInside, AreKnown, IsInside, IsRefusal, IsStep, link_end, link_kind};
ghost use Rattle.net_nodes.specs.Nodes.{of_kind};
ghost use Rattle.net_nodes.specs.declared.nodes.Node.TheVariants as node_is;

use crate::links::Link;
use crate::nodes::{End, Node, NodeFault, ReferenceFault};
use net_model::RefKind;
use std::alloc::Global;
use wide_sums::Memory;

/// A step along a chain of references.
#[derive(Clone, Copy, Debug)]
pub(crate) enum Step {
    /// Where the chain leads in the end.
    Ended(Result<End, ReferenceFault>),
    /// It leads on, by the reference of this number.
    Onward(u32),
}

/// A node of one kind at the end of a chain of another.
fn matched(kind: RefKind, other: RefKind, end: End) -> Result<End, ReferenceFault>
    ensures { result ≡ of_kind kind other (Ok end) }
{
    if kind == other {
        return Ok(end);
    }
    Err(ReferenceFault::OtherKind)
}

/// The step of a chain of one kind to a node.
fn next_step(links: &[Link], known: &[Option<End>], kind: RefKind, target: Option<Node>) -> Step
    requires inside { IsInside (length links.now) target }
    requires known { AreKnown links.now known.now }
    ensures { IsStep links.now kind target result }
{
    match target {
        None => Step::Ended(Err(ReferenceFault::UnknownNode)),
        Some(Node::Place(at)) => Step::Ended(matched(kind, RefKind::Place, End::Place(at))),
        Some(Node::Transition(at)) => {
            Step::Ended(matched(kind, RefKind::Transition, End::Transition(at)))
        }
        Some(Node::Reference(at)) => {
            if links[at as usize].kind != kind {
                return Step::Ended(Err(ReferenceFault::OtherKind));
            }
            match known[at as usize] {
                Some(end) => Step::Ended(Ok(end)),
                None => Step::Onward(at),
            }
        }
    }
}

/// Where the chain of a reference leads. It goes no further than to a reference of which that is known, and a chain of more
/// references than there are has come round.
fn walk(links: &[Link], known: &[Option<End>], from: u32) -> Result<End, ReferenceFault>
    requires within { from < length links.now }
    requires inside { AreInside links.now }
    requires known { AreKnown links.now known.now }
    ensures { result ≡ link_end links.now from }
{
    let kind = links[from as usize].kind;
    let mut at = from;
    for _passed in 0..links.len() + 1 {
        match next_step(links, known, kind, links[at as usize].target) {
            Step::Ended(answer) => return answer,
            Step::Onward(next) => at = next,
        }
    }
    Err(ReferenceFault::Circle)
}

/// The number of a node that is a reference.
fn reference_at(node: Option<Node>) -> Option<u32>
    ensures { IfSome result (λ at. node ≡ Some (node_is.Reference at)) }
{
    match node {
        Some(Node::Reference(at)) => Some(at),
        _ => None,
    }
}

/// Writes down where all references of a chain lead, up to the first of which that is known.
fn mark(links: &[Link], known: &mut [Option<End>], from: u32, end: End)
    requires within { from < length links.now }
    requires inside { AreInside links.now }
    requires known { AreKnown links.now known.old }
    requires is { link_end links.now from ≡ Ok end }
    ensures { AreKnown links.now known.new }
{
    let mut at = from;
    for _passed in 0..links.len() {
        known[at as usize] = Some(end);
        let Some(next) = reference_at(links[at as usize].target) else {
            return;
        };
        if known[next as usize].is_some() {
            return;
        }
        at = next;
    }
}

/// Where the chain of a reference leads; no chain is walked twice.
fn end_of(links: &[Link], known: &mut [Option<End>], at: u32) -> Result<End, ReferenceFault>
    requires within { at < length links.now }
    requires inside { AreInside links.now }
    requires known { AreKnown links.now known.old }
    ensures is { result ≡ link_end links.now at }
    ensures known { AreKnown links.now known.new }
{
    if let Some(end) = known[at as usize] {
        return Ok(end);
    }
    let answer = walk(links, known, at);
    if let Ok(end) = answer {
        mark(links, known, at, end);
    }
    answer
}

fn nothing_known(alloc: Global, links: &[Link]) -> Result<Vec<Option<End>>, Memory>
    ensures { IfOk result (λ known. AreKnown links.now known.items) }
{
    Ok(vec![in alloc; None; links.len()]?)
}

/// Where each reference leads, in time linear in their number: a walk passes only references of which the end isn't known yet,
/// and afterwards it is known of all of them.
pub(crate) fn resolve(alloc: Global, links: &[Link]) -> Result<Vec<End>, NodeFault>
    requires few { length links.now < 2 ^ 32 - 1 }
    requires inside { AreInside links.now }
    ensures ends { IfOk result (λ ends. AreEnds links.now (length links.now) ends.items) }
    ensures refused { IfErr result (λ refused. IsRefusal links.now refused) }
{
    let mut known = match nothing_known(alloc, links) {
        Ok(known) => known,
        Err(_) => return Err(NodeFault::Memory),
    };
    let mut ends = Vec::new(alloc);
    for at in 0..links.len() as u32 {
        match end_of(links, known.as_mut_slice(), at) {
            Ok(end) => {
                if let Err(_) = ends.push(end) {
                    return Err(NodeFault::Memory);
                }
            }
            Err(fault) => {
                return Err(NodeFault::Broken {
                    reference: at,
                    fault,
                });
            }
        }
    }
    Ok(ends)
}
