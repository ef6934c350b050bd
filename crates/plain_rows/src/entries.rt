ghost use Rattle.std.specs.Prelude.{◌≡◌, IfOk, IfSome};
ghost use Rattle.plain_model.specs.Plain.{AreDistinct, node_ids};
ghost use Rattle.plain_rows.specs.Entries.{IsEntryOf, AreEntriesOf};

use crate::faults::BuildFault;
use crate::nodes::{Node, node_at};
use crate::numbers::Numbers;
use plain_model::{Arc, PlainNet};
use pt_net::Side;
use std::alloc::Global;

/// An arc by the numbers of its ends.
#[derive(Clone, Copy, Debug, PartialEq, Eq)]
pub struct Entry {
    /// Whether the arc enters its transition or leaves it.
    pub side: Side,
    /// The number of the transition.
    pub transition: u32,
    /// The number of the place.
    pub place: u32,
    /// The inscription.
    pub weight: u64,
}

/// The numbers under which the ends of an arc are looked for first.
#[derive(Clone, Copy, Debug)]
struct Guess {
    source: u32,
    target: u32,
}

/// The entry of an arc, `None` where it doesn't lead between a place and a transition.
///
/// The next arc is guessed to follow on a path: to begin where this one ends, and to end at the node
/// behind the one where this one begins.
fn entry_of(nodes: &Numbers<'_>, net: &PlainNet, arc: &Arc, guess: &mut Guess) -> Option<Entry>
    requires nodes { nodes.now ≡ node_ids net.now }
    requires distinct { AreDistinct nodes.now }
    ensures { IfSome result (IsEntryOf net.now arc.now) }
{
    let from = nodes.find_near(arc.source.bytes(), guess.source)?;
    let to = nodes.find_near(arc.target.bytes(), guess.target)?;
    guess.source = to;
    guess.target = from.wrapping_add(1);
    let source = node_at(net, from)?;
    let target = node_at(net, to)?;
    match (source, target) {
        (Node::Place(place), Node::Transition(transition)) => Some(Entry {
            side: Side::Pre,
            transition,
            place,
            weight: arc.weight,
        }),
        (Node::Transition(transition), Node::Place(place)) => Some(Entry {
            side: Side::Post,
            transition,
            place,
            weight: arc.weight,
        }),
        _ => None,
    }
}

/// The entries of all arcs of the net, in their order.
pub fn entries_of(
    alloc: Global,
    nodes: &Numbers<'_>,
    net: &PlainNet,
) -> Result<Vec<Entry>, BuildFault>
    requires nodes { nodes.now ≡ node_ids net.now }
    requires distinct { AreDistinct nodes.now }
    ensures { IfOk result (λ entries. AreEntriesOf net.now net.now.arcs entries.items) }
{
    let arcs = net.arcs.as_slice();
    let mut entries = Vec::with_capacity(alloc, arcs.len())?;
    let mut guess = Guess {
        source: 0,
        target: 0,
    };
    for arc in arcs {
        match entry_of(nodes, net, arc, &mut guess) {
            Some(entry) => entries.push(entry)?,
            None => return Err(BuildFault::NotYet),
        }
    }
    Ok(entries)
}
