//! The obligations of flows, each with each transition.
//!
//! A flow is tested at the transitions of its places alone, so judging it costs about its own
//! length and that of their rows.
ghost use Rattle.std.specs.Prelude.{◌≡◌, ◌<◌, ◌≤◌, ◌+◌, ◌^◌, length, map, pos, replicate, All, IfOk, OnOk};
ghost use Rattle.plain_judge.specs.Incidences.{AreIndexed};
ghost use Rattle.plain_judge.specs.Judging.{flows_judged, instance_check, judged_rows, row_checks, step_judged};
ghost use Rattle.plain_model.specs.Forms.{weight_on};
ghost use Rattle.plain_model.specs.Plain.{place_ids};
ghost use Rattle.plain_rows.specs.Rows.{AreRowsOf};
ghost use Rattle.pt_net.specs.Systems.{instance_at};

use crate::faults::{JudgeFault, NotYet};
use crate::incidences::{Incidences, incidences_of};
use crate::marks::no_marks;
use crate::numbered::{NumberedFlow, NumberedFlows};
use crate::residuals::empty_coefficients;
use crate::searches::{check_transition, first_failing};
use crate::spreads::{clear_weights, spread_on_zeros};
use plain_model::{Check, Judged, PlainNet, Spot};
use pt_net::PtNet;
use std::alloc::Global;

/// What the step of a flow at this transition says.
fn judge_step(system: &PtNet, coefficients: &[i64], flow: u32, transition: u32) -> Judged
    requires long { length coefficients.now ≡ length system.now.initial }
    requires transition { transition < length system.now.instances }
    ensures { result ≡ step_judged flow transition (instance_check coefficients.now (instance_at system.now transition)) }
{
    match check_transition(system, coefficients, transition) {
        Check::True => Judged::Shown,
        Check::False => Judged::NotShown(Spot::Step { flow, transition }),
        Check::Wide => Judged::Range(Spot::Step { flow, transition }),
    }
}

/// Judges the steps of one flow: the first transition that doesn't keep its value decides.
///
/// The marks are at most the number of the flow, and at most one more afterwards.
fn judge_steps(
    flow: &NumberedFlow<'_>,
    system: &PtNet,
    incidences: &Incidences,
    coefficients: &[i64],
    marks: &mut [u32],
    number: u32,
) -> Judged
    requires ids { length flow.now.ids ≡ length system.now.initial }
    requires index { AreIndexed system.now incidences.now }
    requires spread { coefficients.now ≡ map (weight_on flow.now.flow.weights) flow.now.ids }
    requires marks { length marks.old ≡ length system.now.instances }
    requires low { All (λ other. other ≤ number) marks.old }
    requires next { number + 1 < 2 ^ 32 }
    ensures low { All (λ other. other ≤ number + 1) marks.new }
    ensures judged { result ≡ judged_rows number 0 (row_checks coefficients.now system.now.instances) }
{
    let first = first_failing(flow, system, incidences, coefficients, marks, number + 1);
    if first == system.instances() {
        return Judged::Shown;
    }
    judge_step(system, coefficients, number, first)
}

/// Judges one flow with coefficients that are 0 before and afterwards.
fn judge_flow(
    flow: &NumberedFlow<'_>,
    system: &PtNet,
    incidences: &Incidences,
    coefficients: &mut [i64],
    marks: &mut [u32],
    number: u32,
) -> Result<Judged, NotYet>
    requires ids { length flow.now.ids ≡ length system.now.initial }
    requires index { AreIndexed system.now incidences.now }
    requires zeros { coefficients.old ≡ replicate (length flow.now.ids) (pos 0) }
    requires marks { length marks.old ≡ length system.now.instances }
    requires low { All (λ other. other ≤ number) marks.old }
    requires next { number + 1 < 2 ^ 32 }
    ensures low { OnOk result (All (λ other. other ≤ number + 1) marks.new) }
    ensures zeros { OnOk result (coefficients.new ≡ replicate (length flow.now.ids) (pos 0)) }
    ensures judged { IfOk result (λ judged. judged ≡ judged_rows number 0 (row_checks (map (weight_on flow.now.flow.weights) flow.now.ids) system.now.instances)) }
{
    spread_on_zeros(flow, coefficients)?;
    let judged = judge_steps(flow, system, incidences, coefficients, marks, number);
    clear_weights(flow, coefficients);
    Ok(judged)
}

/// Judges the flows in order, with coefficients and marks that are 0 before.
fn judge_each(
    net: &PlainNet,
    flows: &NumberedFlows<'_>,
    system: &PtNet,
    incidences: &Incidences,
    coefficients: &mut [i64],
    marks: &mut [u32],
) -> Result<Judged, NotYet>
    requires places { flows.now.ids ≡ place_ids net.now }
    requires rows { AreRowsOf net.now system.now }
    requires index { AreIndexed system.now incidences.now }
    requires zeros { coefficients.old ≡ replicate (length flows.now.ids) (pos 0) }
    requires marks { marks.old ≡ replicate (length system.now.instances) 0 }
    ensures { IfOk result (λ judged. judged ≡ flows_judged net.now flows.now.flows) }
{
    for number in 0..flows.count() {
        let flow = flows.flow(number);
        match judge_flow(&flow, system, incidences, coefficients, marks, number) {
            Ok(Judged::Shown) => {}
            Ok(Judged::NotShown(spot)) => return Ok(Judged::NotShown(spot)),
            Ok(Judged::Range(spot)) => return Ok(Judged::Range(spot)),
            Err(NotYet) => return Err(NotYet),
        }
    }
    Ok(Judged::Shown)
}

/// Judges the flows of a certificate in order: the first obligation that isn't true decides.
pub fn judge_flows(
    alloc: Global,
    net: &PlainNet,
    flows: &NumberedFlows<'_>,
    system: &PtNet,
) -> Result<Judged, JudgeFault>
    requires places { flows.now.ids ≡ place_ids net.now }
    requires rows { AreRowsOf net.now system.now }
    ensures { IfOk result (λ judged. judged ≡ flows_judged net.now flows.now.flows) }
{
    let incidences = incidences_of(alloc, system)?;
    let mut coefficients = empty_coefficients(alloc, system.places() as usize)?;
    let mut marks = no_marks(alloc, system.instances() as usize)?;
    match judge_each(
        net,
        flows,
        system,
        &incidences,
        &mut coefficients,
        &mut marks,
    ) {
        Ok(judged) => Ok(judged),
        Err(NotYet) => Err(JudgeFault::NotYet),
    }
}
