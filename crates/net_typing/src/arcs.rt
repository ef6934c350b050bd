ghost use Rattle.std.specs.Prelude.{◌≡◌, [], None, IfOk, IfErr};
ghost use Rattle.net_model.specs.declared.nets.Net.{Net};
ghost use Rattle.multiset_terms.specs.Context.{Context};
ghost use Rattle.multiset_terms.specs.Parts.{IsScope};
ghost use Rattle.multiset_terms.specs.Usable.{IsUsable};
ghost use Rattle.net_typing.specs.Refusals.{arcs_refusal, joined};
ghost use Rattle.net_typing.specs.Rules.{IsRefusal};
ghost use Rattle.net_typing.specs.Standing.{AreTyped};
ghost use Rattle.net_typing.specs.TypedArcs.{IsArcAnswer, IsArcTyping, IsGathered, IsMovedAnswer, IsReady, some_joined};

use crate::faults::{NetFault, Unfit};
use crate::inscribed::Inscribed;
use crate::places::PlaceTyping;
use crate::scope::Scope;
use crate::weights::first_overweight;
use colour_sorts::{Rule, Sort};
use net_model::{Arc, Label};
use net_nodes::{End, NodeTable};
use std::alloc::Global;
use wide_sums::Memory;

/// What an arc joins.
#[derive(Clone, Copy, Debug, PartialEq, Eq)]
pub struct Ends {
    /// The number of the transition.
    pub transition: u32,
    /// The number of the place.
    pub place: u32,
    /// Whether it leads from the place to the transition, and not away from it.
    pub is_input: bool,
}

/// An arc as it is typed.
#[derive(Debug, Drop)]
pub struct ArcTyping {
    /// The place and the transition, references followed.
    pub ends: Ends,
    /// What it moves.
    pub moves: Inscribed,
}

impl Ends {
    /// The ends of an arc that leads from one node to another, if one is a place and the other is a transition.
    fn joining(source: End, target: End) -> Option<Ends>
        ensures { some_joined result ≡ joined source target }
    {
        match source {
            End::Place(place) => match target {
                End::Place(_) => None,
                End::Transition(transition) => Some(Ends {
                    transition,
                    place,
                    is_input: true,
                }),
            },
            End::Transition(transition) => match target {
                End::Place(place) => Some(Ends {
                    transition,
                    place,
                    is_input: false,
                }),
                End::Transition(_) => None,
            },
        }
    }
}

/// What an arc moves over the sort of its place, or the first rule that it breaks. Only where the sort is the dot's can it be left out.
fn moved(alloc: Global, scope: &Scope, sort: &Sort, label: &Label) -> Result<Inscribed, Unfit>
    requires { IsUsable scope.now.domains scope.now.variables }
    ensures { (ctx : Context) → IsScope ctx scope.now.domains scope.now.variables → IsMovedAnswer ctx sort.now label.now result }
{
    if let Label::Absent = label {
        let Sort::Dot = sort else {
            return Err(Unfit::Broken(Rule::NoInscription));
        };
    }
    Inscribed::inscription(alloc, scope, sort, label)
}

/// An arc with its ends and what it moves, or the first rule that it breaks.
fn typed_arc(
    alloc: Global,
    scope: &Scope,
    table: &NodeTable,
    places: &[PlaceTyping],
    arc: &Arc,
) -> Result<ArcTyping, Unfit>
    ghost net: { Net }
    requires { IsReady net scope.now table.now places.now }
    ensures { IsArcAnswer net arc.now result }
{
    let Some(source) = table.end(arc.source.bytes()) else {
        return Err(Unfit::Broken(Rule::UnknownNode));
    };
    let Some(target) = table.end(arc.target.bytes()) else {
        return Err(Unfit::Broken(Rule::UnknownNode));
    };
    let Some(ends) = Ends::joining(source, target) else {
        return Err(Unfit::Broken(Rule::SameSide));
    };
    let sort = places[ends.place as usize].sort.get(&scope.domains);
    match moved(alloc, scope, sort, &arc.label) {
        Ok(moves) => Ok(ArcTyping { ends, moves }),
        Err(unfit) => Err(unfit),
    }
}

// The arcs that are typed, and why the one behind them is refused by itself.
#[derive(Debug, Drop)]
struct Gathered {
    typed: Vec<ArcTyping>,
    stop: Option<NetFault>,
}

/// Types arcs until one is refused by itself.
fn gather(
    alloc: Global,
    scope: &Scope,
    table: &NodeTable,
    places: &[PlaceTyping],
    arcs: &[Arc],
) -> Result<Gathered, Memory>
    ghost net: { Net }
    requires { IsReady net scope.now table.now places.now }
    ensures { IfOk result (IsGathered net arcs.now) }
{
    let mut typed = Vec::with_capacity(alloc, arcs.len())?;
    for arc in arcs {
        match typed_arc(alloc, scope, table, places, arc) {
            Ok(found) => typed.push(found)?,
            Err(unfit) => {
                let stop = Some(unfit.of(alloc, &arc.id));
                return Ok(Gathered { typed, stop });
            }
        }
    }
    Ok(Gathered { typed, stop: None })
}

/// The arcs of a net as they are typed, or the first that breaks a rule or moves too much, together with those in front of it that
/// join the same in the same direction.
pub fn typed_arcs(
    alloc: Global,
    scope: &Scope,
    table: &NodeTable,
    places: &[PlaceTyping],
    arcs: &[Arc],
) -> Result<Vec<ArcTyping>, NetFault>
    ghost net: { Net }
    requires { IsReady net scope.now table.now places.now }
    ensures arcs { IfOk result (λ typed. AreTyped (IsArcTyping net) arcs.now typed.items) }
    ensures sound { IfOk result (λ typed. arcs_refusal net [] arcs.now ≡ None) }
    ensures refused { IfErr result (IsRefusal (arcs_refusal net [] arcs.now)) }
{
    let Gathered { typed, stop } = gather(alloc, scope, table, places, arcs)?;
    if let Some(at) = first_overweight(alloc, typed.as_slice())? {
        return Err(NetFault::too_heavy(alloc, &arcs[at].id));
    }
    match stop {
        Some(fault) => Err(fault),
        None => Ok(typed),
    }
}
