ghost use Rattle.std.specs.Prelude.{◌≡◌, ℕ, ◌++◌, List, [], ◌∷◌, ◌<◌, ◌^◌, map, Some, All, OnOk, IfOk, IfSome};
ghost use Rattle.name_tables.specs.Numbering.{number_in};
ghost use Rattle.plain_model.specs.Plain.{IsId, node_ids, place_ids};
ghost use Rattle.plain_rows.specs.Nodes.{IsNode, IsFreshPlace, IsFreshArc, AreNumbered, AreNodes};

use crate::faults::BuildFault;
use crate::numbers::Numbers;
use name_tables::{Added, Name, is_id};
use plain_model::{Arc, Place, PlainNet};
use std::alloc::Global;

// 2^63 - 1, the largest count.
const MAX_COUNT: u64 = 9_223_372_036_854_775_807;

/// A place or a transition, by its number among its kind.
#[derive(Clone, Copy, Debug, PartialEq, Eq)]
pub enum Node {
    /// The place with this number.
    Place(u32),
    /// The transition with this number.
    Transition(u32),
}

/// Numbers one more node. `NotYet` comes where its id is none, or is taken.
fn add_node<'a>(ids: &mut Numbers<'a>, id: &'a Name) -> Result<(), BuildFault>
    requires { AreNumbered ids.old }
    ensures added { OnOk result (ids.new ≡ ids.old ++ id.now ∷ []) }
    ensures numbered { OnOk result (AreNumbered ids.new) }
    ensures id { OnOk result (IsId id.now) }
{
    if ids.count() == u32::MAX || !is_id(id.bytes()) {
        return Err(BuildFault::NotYet);
    }
    match ids.add(id.bytes())? {
        Added::New(_) => Ok(()),
        Added::Old(_) => Err(BuildFault::NotYet),
    }
}

/// Numbers these places.
pub fn add_places<'a>(ids: &mut Numbers<'a>, places: &'a [Place]) -> Result<(), BuildFault>
    requires { AreNumbered ids.old }
    ensures added { OnOk result (ids.new ≡ ids.old ++ map (λ place. place.id) places.now) }
    ensures numbered { OnOk result (AreNumbered ids.new) }
    ensures places { OnOk result (All IsFreshPlace places.now) }
{
    for place in places {
        if place.marking > MAX_COUNT {
            return Err(BuildFault::NotYet);
        }
        add_node(ids, &place.id)?;
    }
    Ok(())
}

/// Numbers these transitions.
fn add_transitions<'a>(ids: &mut Numbers<'a>, transitions: &'a [Name]) -> Result<(), BuildFault>
    requires { AreNumbered ids.old }
    ensures added { OnOk result (ids.new ≡ ids.old ++ transitions.now) }
    ensures numbered { OnOk result (AreNumbered ids.new) }
    ensures transitions { OnOk result (All IsId transitions.now) }
{
    for transition in transitions {
        add_node(ids, transition)?;
    }
    Ok(())
}

/// Numbers these arcs.
fn add_arcs<'a>(ids: &mut Numbers<'a>, arcs: &'a [Arc]) -> Result<(), BuildFault>
    requires { AreNumbered ids.old }
    ensures added { OnOk result (ids.new ≡ ids.old ++ map (λ arc. arc.id) arcs.now) }
    ensures numbered { OnOk result (AreNumbered ids.new) }
    ensures arcs { OnOk result (All IsFreshArc arcs.now) }
{
    for arc in arcs {
        if arc.weight == 0 || arc.weight > MAX_COUNT {
            return Err(BuildFault::NotYet);
        }
        add_node(ids, &arc.id)?;
    }
    Ok(())
}

/// How many nodes the net has.
fn node_count(net: &PlainNet) -> usize {
    let ends = net.places.len().saturating_add(net.transitions.len());
    ends.saturating_add(net.arcs.len())
}

/// Numbers all nodes of the net: its places, its transitions and its arcs, in this order.
pub fn number_nodes<'a>(alloc: Global, net: &'a PlainNet) -> Result<Numbers<'a>, BuildFault>
    ensures nodes { IfOk result (λ ids. ids ≡ node_ids net.now) }
    ensures in_form { OnOk result (AreNodes net.now) }
{
    let mut ids = Numbers::with_capacity(alloc, node_count(net))?;
    add_places(&mut ids, net.places.as_slice())?;
    add_transitions(&mut ids, net.transitions.as_slice())?;
    add_arcs(&mut ids, net.arcs.as_slice())?;
    Ok(ids)
}

/// The node with this number among the nodes of the net, `None` where it is no place and no
/// transition.
pub fn node_at(net: &PlainNet, number: u32) -> Option<Node>
    ensures { (id : List ℕ) → number_in (node_ids net.now) id ≡ Some number → IfSome result (IsNode net.now id) }
{
    let at = number as usize;
    let places = net.places.len();
    if at < places {
        return Some(Node::Place(number));
    }
    if at - places < net.transitions.len() {
        return Some(Node::Transition((at - places) as u32));
    }
    None
}
