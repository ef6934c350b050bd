//! The search for the first transition that doesn't keep the weighted sum of a flow.
//!
//! Only the transitions at the flow's places are tested, each once: the others keep every sum in
//! which these places alone have coefficients.
ghost use Rattle.std.specs.Prelude.{◌≡◌, ◌<◌, ◌≤◌, ℕ, length, map, true, All};
ghost use Rattle.plain_judge.specs.Incidences.{AreIndexed};
ghost use Rattle.plain_judge.specs.Judging.{instance_check};
ghost use Rattle.plain_judge.specs.Searching.{IsFirstFailing, IsFirstMarked, KeepAtPlaces, keeps};
ghost use Rattle.plain_model.specs.Forms.{weight_on};
ghost use Rattle.pt_net.specs.Systems.{instance_at};

use crate::incidences::{Incidence, Incidences, at_place};
use crate::numbered::NumberedFlow;
use crate::steps::check_step;
use plain_model::Check;
use pt_net::{PtNet, Side};

/// What firing the transition does to the weighted sum.
pub fn check_transition(system: &PtNet, coefficients: &[i64], transition: u32) -> Check
    requires long { length coefficients.now ≡ length system.now.initial }
    requires transition { transition < length system.now.instances }
    ensures { result ≡ instance_check coefficients.now (instance_at system.now transition) }
{
    let taken = system.cells(Side::Pre, transition);
    let put = system.cells(Side::Post, transition);
    check_step(coefficients, taken, put)
}

/// Whether firing the transition keeps the weighted sum.
fn keeps_sum(system: &PtNet, coefficients: &[i64], transition: u32) -> bool
    requires long { length coefficients.now ≡ length system.now.initial }
    requires transition { transition < length system.now.instances }
    ensures { result ≡ keeps coefficients.now system.now transition }
{
    match check_transition(system, coefficients, transition) {
        Check::True => true,
        Check::False | Check::Wide => false,
    }
}

/// Tests a transition below `least` that isn't marked yet, and marks it. Gives the least number of
/// one that failed, and `least` itself where this one didn't.
fn visit(
    system: &PtNet,
    coefficients: &[i64],
    transition: u32,
    marks: &mut [u32],
    mark: u32,
    least: u32,
) -> u32
    requires long { length coefficients.now ≡ length system.now.initial }
    requires transition { transition < length system.now.instances }
    requires marks { length marks.old ≡ length system.now.instances }
    requires low { All (λ other. other ≤ mark) marks.old }
    requires before { IsFirstMarked coefficients.now system.now marks.old mark least }
    ensures low { All (λ other. other ≤ mark) marks.new }
    ensures after { IsFirstMarked coefficients.now system.now marks.new mark result }
    ensures lower { result ≤ least }
    ensures tested { transition < result → keeps coefficients.now system.now transition ≡ true }
{
    if transition >= least || marks[transition as usize] == mark {
        return least;
    }
    marks[transition as usize] = mark;
    if keeps_sum(system, coefficients, transition) {
        return least;
    }
    transition
}

/// Visits the transitions of the incidences, where `known` is the least that failed before.
fn visit_all(
    system: &PtNet,
    coefficients: &[i64],
    incidences: &[Incidence],
    marks: &mut [u32],
    mark: u32,
    known: u32,
) -> u32
    requires long { length coefficients.now ≡ length system.now.initial }
    requires within { All (λ one. one.transition < length system.now.instances) incidences.now }
    requires marks { length marks.old ≡ length system.now.instances }
    requires low { All (λ other. other ≤ mark) marks.old }
    requires before { IsFirstMarked coefficients.now system.now marks.old mark known }
    ensures low { All (λ other. other ≤ mark) marks.new }
    ensures after { IsFirstMarked coefficients.now system.now marks.new mark result }
    ensures lower { result ≤ known }
    ensures tested { All (λ one. one.transition < result → keeps coefficients.now system.now one.transition ≡ true) incidences.now }
{
    let mut least = known;
    for incidence in incidences {
        let transition = incidence.transition;
        least = visit(system, coefficients, transition, marks, mark, least);
    }
    least
}

/// Visits the transitions at the places of the flow: the least number of one that failed, or
/// the number of transitions where none did.
fn visit_places(
    flow: &NumberedFlow<'_>,
    system: &PtNet,
    incidences: &Incidences,
    coefficients: &[i64],
    marks: &mut [u32],
    mark: u32,
) -> u32
    requires ids { length flow.now.ids ≡ length system.now.initial }
    requires long { length coefficients.now ≡ length system.now.initial }
    requires index { AreIndexed system.now incidences.now }
    requires marks { length marks.old ≡ length system.now.instances }
    requires low { All (λ other. other < mark) marks.old }
    ensures low { All (λ other. other ≤ mark) marks.new }
    ensures first { IsFirstMarked coefficients.now system.now marks.new mark result }
    ensures tested { KeepAtPlaces flow.now.ids flow.now.flow.weights incidences.now.list.items coefficients.now system.now result }
{
    let mut least = system.instances();
    let places = flow.places();
    for at in 0..places.len() {
        let here = at_place(system, incidences, places[at]);
        least = visit_all(system, coefficients, here, marks, mark, least);
    }
    least
}

/// The first transition that doesn't keep the sum with the coefficients of the flow, or the
/// number of transitions where all keep it.
///
/// The marks are below `mark`, and no greater than it afterwards.
pub fn first_failing(
    flow: &NumberedFlow<'_>,
    system: &PtNet,
    incidences: &Incidences,
    coefficients: &[i64],
    marks: &mut [u32],
    mark: u32,
) -> u32
    requires ids { length flow.now.ids ≡ length system.now.initial }
    requires index { AreIndexed system.now incidences.now }
    requires spread { coefficients.now ≡ map (weight_on flow.now.flow.weights) flow.now.ids }
    requires marks { length marks.old ≡ length system.now.instances }
    requires low { All (λ other. other < mark) marks.old }
    ensures low { All (λ other. other ≤ mark) marks.new }
    ensures first { IsFirstFailing coefficients.now system.now result }
{
    visit_places(flow, system, incidences, coefficients, marks, mark)
}
