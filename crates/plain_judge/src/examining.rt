//! Whether a certificate is of the first grammar.
ghost use Rattle.std.specs.Prelude.{◌≡◌, ◌<◌, ◌^◌, map, length, unsigned_abs, OnOk, All, AllPairs};
ghost use Rattle.std.specs.Bool.{OnTrue};
ghost use Rattle.plain_model.specs.Plain.{AreDistinct, IsPlainCertificate, IsPlainFlow, IsPlainMultiplier, IsPlainWeight, MultiplyApart, place_ids};

use crate::faults::JudgeFault;
use crate::marks::no_marks;
use crate::numbered::{NumberedFlow, NumberedFlows};
use name_tables::is_id;
use plain_model::{Certificate, Multiplier, PlainNet, Property};
use plain_rows::Numbers;
use std::alloc::Global;

/// Whether a value of a certificate is in range.
fn is_in_range(value: i64) -> bool
    ensures { OnTrue result (unsigned_abs value < 2 ^ 63) }
{
    value != i64::MIN
}

/// Whether the weights of the flow are in range, with each place at most once.
///
/// A place with this mark already was met among these weights; the marks of earlier ones are lower.
fn are_weights(flow: &NumberedFlow<'_>, marks: &mut [u32], mark: u32) -> bool
    requires { length marks.old ≡ length flow.now.ids }
    ensures long { length marks.new ≡ length marks.old }
    ensures plain { OnTrue result (All (IsPlainWeight flow.now.ids) flow.now.flow.weights) }
    ensures once { OnTrue result (AreDistinct (map (λ weight. weight.place) flow.now.flow.weights)) }
{
    let weights = flow.weights();
    let places = flow.places();
    for at in 0..weights.len() {
        let place = places[at] as usize;
        if marks[place] == mark || !is_in_range(weights[at].value) {
            return false;
        }
        marks[place] = mark;
    }
    true
}

/// Whether the flow has a name and coefficients in form.
fn is_flow(flow: &NumberedFlow<'_>, marks: &mut [u32], mark: u32) -> bool
    requires { length marks.old ≡ length flow.now.ids }
    ensures long { length marks.new ≡ length marks.old }
    ensures plain { OnTrue result (IsPlainFlow flow.now.ids flow.now.flow) }
{
    is_id(flow.name()) && are_weights(flow, marks, mark)
}

/// Whether all flows are in form.
fn are_flows(flows: &NumberedFlows<'_>, marks: &mut [u32]) -> bool
    requires { length marks.old ≡ length flows.now.ids }
    ensures { OnTrue result (All (IsPlainFlow flows.now.ids) flows.now.flows) }
{
    for number in 0..flows.count() {
        let flow = flows.flow(number);
        if !is_flow(&flow, marks, number + 1) {
            return false;
        }
    }
    true
}

/// Whether the summands multiply facts of the certificate and the one hypothesis, each at most once.
fn are_multipliers(names: &Numbers<'_>, close: &[Multiplier], marks: &mut [u32]) -> bool
    requires { length marks.old ≡ length names.now }
    ensures plain { OnTrue result (All (IsPlainMultiplier names.now) close.now) }
    ensures once { OnTrue result (AllPairs MultiplyApart close.now) }
{
    let mut is_hypothesis_met = false;
    for multiplier in close {
        match multiplier {
            Multiplier::Fact(factor) => {
                let fact = match names.find(factor.fact.bytes()) {
                    Some(fact) => fact as usize,
                    None => return false,
                };
                if marks[fact] == 1 || !is_in_range(factor.value) {
                    return false;
                }
                marks[fact] = 1;
            }
            Multiplier::Hypothesis { value, number } => {
                if is_hypothesis_met || *number != 1 || !is_in_range(*value) {
                    return false;
                }
                is_hypothesis_met = true;
            }
        }
    }
    true
}

/// Examines the certificate for the property, with its flows numbered; `NotYet` comes where it
/// isn't of the first grammar.
pub fn examine(
    alloc: Global,
    net: &PlainNet,
    property: &Property,
    certificate: &Certificate,
    flows: &NumberedFlows<'_>,
) -> Result<(), JudgeFault>
    requires places { flows.now.ids ≡ place_ids net.now }
    requires flows { flows.now.flows ≡ certificate.now.flows }
    ensures { OnOk result (IsPlainCertificate net.now property.now certificate.now) }
{
    if certificate.property.bytes() != property.id.bytes() {
        return Err(JudgeFault::NotYet);
    }
    let mut marks = no_marks(alloc, net.places.len() as usize)?;
    if !are_flows(flows, &mut marks) {
        return Err(JudgeFault::NotYet);
    }
    let names = flows.names();
    let mut facts = no_marks(alloc, names.count() as usize)?;
    if !are_multipliers(names, certificate.close.as_slice(), &mut facts) {
        return Err(JudgeFault::NotYet);
    }
    Ok(())
}
