ghost use Rattle.std.specs.Prelude.{◌≡◌, ◌<◌, ◌^◌, map, length, IfOk, OnOk};
ghost use Rattle.plain_model.specs.Plain.{IsId, IsPlainNet, place_ids};
ghost use Rattle.plain_rows.specs.Nodes.{AreNodes};
ghost use Rattle.plain_rows.specs.Entries.{IsRearranged, AreBuilt};
ghost use Rattle.plain_rows.specs.Rows.{AreRowsOf, ReachTheSame};

use crate::entries::{Entry, entries_of};
use crate::faults::BuildFault;
use crate::filling::{empty_instances, fill};
use crate::nodes::{add_places, number_nodes};
use crate::numbers::Numbers;
use name_tables::{Name, is_id};
use plain_model::{Place, PlainNet};
use pt_net::{Instance, PtNet};
use std::alloc::Global;

/// The net of a file, by the numbers of its places and transitions.
#[derive(Drop)]
pub struct PlainRows<'a> {
    /// The ids of its places, numbered in their order.
    pub places: Numbers<'a>,
    /// Its initial marking, and an instance for each transition.
    pub net: PtNet,
}

/// The ids of the places, numbered.
fn number_places<'a>(alloc: Global, net: &'a PlainNet) -> Result<Numbers<'a>, BuildFault>
    ensures { IfOk result (λ ids. ids ≡ place_ids net.now) }
{
    let places = net.places.as_slice();
    let mut ids = Numbers::with_capacity(alloc, places.len())?;
    add_places(&mut ids, places)?;
    Ok(ids)
}

/// The entries of the net, sorted by their places.
fn sorted_entries(alloc: Global, net: &PlainNet) -> Result<Vec<Entry>, BuildFault>
    ensures nodes { OnOk result (AreNodes net.now) }
    ensures entries { IfOk result (λ sorted. IsRearranged net.now sorted.items) }
{
    let nodes = number_nodes(alloc, net)?;
    let mut entries = entries_of(alloc, &nodes, net)?;
    entries.sort_unstable_by_key(|entry| entry.place);
    Ok(entries)
}

/// How many these transitions are.
fn count_of(transitions: &[Name]) -> u32
    requires { length transitions.now < 2 ^ 32 }
    ensures { result ≡ length transitions.now }
{
    transitions.len() as u32
}

/// The instances of the transitions of the net.
fn instances_of(alloc: Global, net: &PlainNet) -> Result<Vec<Instance>, BuildFault>
    ensures nodes { OnOk result (AreNodes net.now) }
    ensures instances { IfOk result (λ instances. AreBuilt net.now instances.items) }
{
    let entries = sorted_entries(alloc, net)?;
    let count = count_of(net.transitions.as_slice());
    let mut instances = empty_instances(alloc, count)?;
    fill(instances.as_mut_slice(), entries.as_slice())?;
    Ok(instances)
}

/// The initial marking of these places.
fn initial_counts(alloc: Global, places: &[Place]) -> Result<Vec<u64>, BuildFault>
    ensures { IfOk result (λ counts. counts.items ≡ map (λ place. place.marking) places.now) }
{
    let counts = places.iter().map(|place| place.marking).collect(alloc)?;
    Ok(counts)
}

/// The net of sparse rows.
fn net_of(alloc: Global, net: &PlainNet) -> Result<PtNet, BuildFault>
    ensures plain { OnOk result (IsId net.now.id → IsPlainNet net.now) }
    ensures rows { IfOk result (AreRowsOf net.now) }
    ensures reach { IfOk result (ReachTheSame net.now) }
{
    let instances = instances_of(alloc, net)?;
    let initial = initial_counts(alloc, net.places.as_slice())?;
    Ok(PtNet::new(alloc, initial, instances)?)
}

/// The numbers and the rows of the net of a file, in a time of about `n log n` of its size.
///
/// `NotYet` comes where the net isn't a plain net: where an id is none or is taken, an arc doesn't
/// lead between a place and a transition, two arcs have both ends in common, a count is above
/// 2^63 - 1 or a weight 0, or the net has 2^32 nodes or more.
pub fn build<'a>(alloc: Global, net: &'a PlainNet) -> Result<PlainRows<'a>, BuildFault>
    ensures plain { OnOk result (IsPlainNet net.now) }
    ensures places { IfOk result (λ rows. rows.places ≡ place_ids net.now) }
    ensures rows { IfOk result (λ rows. AreRowsOf net.now rows.net) }
    ensures reach { IfOk result (λ rows. ReachTheSame net.now rows.net) }
{
    if !is_id(net.id.bytes()) {
        return Err(BuildFault::NotYet);
    }
    let places = number_places(alloc, net)?;
    let net = net_of(alloc, net)?;
    Ok(PlainRows { places, net })
}
