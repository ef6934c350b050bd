//! The obligation of a `close` line.
ghost use Rattle.std.specs.Prelude.{◌≡◌, length, map, pos, replicate, IfOk, OnOk, Err, true};
ghost use Rattle.plain_judge.specs.Closing.{AddsSlack, AreResiduals, IsConstantInRange, IsSlackWide, residual_check, sums_check};
ghost use Rattle.plain_judge.specs.Residuals.{AreInRange};
ghost use Rattle.plain_model.specs.Forms.{flow_slack, flow_slack_of, hypothesis_slack, multiplier_of, slack_of};
ghost use Rattle.plain_model.specs.Obligations.{close_check, close_sums, is_signed_well, parts, residual_constant};
ghost use Rattle.plain_model.specs.Plain.{AreDistinct, place_ids};
ghost use Rattle.plain_model.specs.Sums.{sum_of};
ghost use Rattle.std.specs.List.{list_all, list_any};
ghost use Rattle.plain_model.specs.Sums.{is_wide};
ghost use Rattle.wide_sums.specs.Total.{zero_total};

use crate::constants::constant_of_hypothesis;
use crate::faults::{JudgeFault, NotYet, SumFault};
use crate::numbered::{NumberedFlow, NumberedFlows};
use crate::properties::NumberedProperty;
use crate::residuals::{add_multiple, add_part, empty_coefficients, empty_sums, is_none_positive};
use crate::settling::settle_weights;
use crate::spreads::spread_on_zeros;
use name_tables::Name;
use plain_model::{Certificate, Check, Multiplier, PlainNet};
use std::alloc::Global;
use wide_sums::{Sum, Wide};

/// Adds a multiple of a flow's slack form to the sums, and gives the form's constant. The
/// coefficients are 0 before and afterwards.
fn add_flow(
    net: &PlainNet,
    flow: &NumberedFlow<'_>,
    multiplier: i64,
    coefficients: &mut [i64],
    sums: &mut [Sum],
) -> Result<i128, SumFault>
    requires places { flow.now.ids ≡ place_ids net.now }
    requires zeros { coefficients.old ≡ replicate (length flow.now.ids) (pos 0) }
    requires sums { length sums.old ≡ length flow.now.ids }
    requires in_range { AreInRange (length flow.now.ids) sums.old }
    ensures zeros { OnOk result (coefficients.new ≡ replicate (length flow.now.ids) (pos 0)) }
    ensures adds { IfOk result (AddsSlack flow.now.ids multiplier (flow_slack net.now flow.now.flow) sums.old sums.new) }
    ensures wide { result ≡ Err SumFault.Wide → IsSlackWide flow.now.ids multiplier (flow_slack net.now flow.now.flow) sums.old }
{
    match spread_on_zeros(flow, coefficients) {
        Ok(()) => {}
        Err(NotYet) => return Err(SumFault::NotYet),
    }
    match settle_weights(flow, net.places.as_slice(), multiplier, coefficients, sums) {
        Ok(constant) => Ok(constant),
        Err(Wide) => Err(SumFault::Wide),
    }
}

/// Adds a multiple of the slack form of the flow with this name.
fn add_named(
    net: &PlainNet,
    flows: &NumberedFlows<'_>,
    name: &Name,
    multiplier: i64,
    coefficients: &mut [i64],
    sums: &mut [Sum],
) -> Result<i128, SumFault>
    requires places { flows.now.ids ≡ place_ids net.now }
    requires zeros { coefficients.old ≡ replicate (length flows.now.ids) (pos 0) }
    requires sums { length sums.old ≡ length flows.now.ids }
    requires in_range { AreInRange (length flows.now.ids) sums.old }
    ensures zeros { OnOk result (coefficients.new ≡ replicate (length flows.now.ids) (pos 0)) }
    ensures adds { IfOk result (AddsSlack flows.now.ids multiplier (flow_slack_of net.now flows.now.flows name.now) sums.old sums.new) }
    ensures wide { result ≡ Err SumFault.Wide → IsSlackWide flows.now.ids multiplier (flow_slack_of net.now flows.now.flows name.now) sums.old }
{
    match flows.names().find(name.bytes()) {
        Some(number) => {
            let flow = flows.flow(number);
            add_flow(net, &flow, multiplier, coefficients, sums)
        }
        None => Err(SumFault::NotYet),
    }
}

/// Adds a multiple of the slack form of the negated invariant.
fn add_hypothesis(
    property: &NumberedProperty<'_>,
    multiplier: i64,
    sums: &mut [Sum],
) -> Result<i128, SumFault>
    requires sums { length sums.old ≡ length property.now.ids }
    ensures adds { IfOk result (AddsSlack property.now.ids multiplier (hypothesis_slack property.now.property) sums.old sums.new) }
    ensures wide { result ≡ Err SumFault.Wide → IsSlackWide property.now.ids multiplier (hypothesis_slack property.now.property) sums.old }
{
    match add_part(sums, multiplier, property.coefficients()) {
        Ok(()) => Ok(constant_of_hypothesis(property.property())),
        Err(Wide) => Err(SumFault::Wide),
    }
}

/// Adds a multiple of the slack form that a summand multiplies, and gives the form's constant.
fn add_slack(
    net: &PlainNet,
    property: &NumberedProperty<'_>,
    flows: &NumberedFlows<'_>,
    multiplier: &Multiplier,
    coefficients: &mut [i64],
    sums: &mut [Sum],
) -> Result<i128, SumFault>
    requires places { flows.now.ids ≡ place_ids net.now }
    requires property { property.now.ids ≡ flows.now.ids }
    requires zeros { coefficients.old ≡ replicate (length flows.now.ids) (pos 0) }
    requires sums { length sums.old ≡ length flows.now.ids }
    requires in_range { AreInRange (length flows.now.ids) sums.old }
    ensures zeros { OnOk result (coefficients.new ≡ replicate (length flows.now.ids) (pos 0)) }
    ensures adds { IfOk result (AddsSlack flows.now.ids (multiplier_of multiplier.now) (slack_of net.now property.now.property flows.now.flows multiplier.now) sums.old sums.new) }
    ensures wide { result ≡ Err SumFault.Wide → IsSlackWide flows.now.ids (multiplier_of multiplier.now) (slack_of net.now property.now.property flows.now.flows multiplier.now) sums.old }
{
    match multiplier {
        Multiplier::Fact(factor) => add_named(
            net,
            flows,
            &factor.fact,
            factor.value,
            coefficients,
            sums,
        ),
        Multiplier::Hypothesis { value, .. } => add_hypothesis(property, *value, sums),
    }
}

/// The multiplier of a summand.
fn value_of(multiplier: &Multiplier) -> i64
    ensures { result ≡ multiplier_of multiplier.now }
{
    match multiplier {
        Multiplier::Fact(factor) => factor.value,
        Multiplier::Hypothesis { value, .. } => *value,
    }
}

/// Whether the multiplier isn't negative where it is one of a hypothesis.
fn has_right_sign(multiplier: &Multiplier) -> bool
    ensures { result ≡ is_signed_well multiplier.now }
{
    match multiplier {
        Multiplier::Fact(_) => true,
        Multiplier::Hypothesis { value, .. } => *value >= 0,
    }
}

/// Adds up the summands: the residual's coefficients into the sums, and its constant.
fn add_up(
    net: &PlainNet,
    property: &NumberedProperty<'_>,
    certificate: &Certificate,
    flows: &NumberedFlows<'_>,
    coefficients: &mut [i64],
    sums: &mut [Sum],
) -> Result<i128, SumFault>
    requires places { flows.now.ids ≡ place_ids net.now }
    requires property { property.now.ids ≡ flows.now.ids }
    requires zeros { coefficients.old ≡ replicate (length flows.now.ids) (pos 0) }
    requires flows { flows.now.flows ≡ certificate.now.flows }
    requires empty { sums.old ≡ replicate (length flows.now.ids) zero_total }
    ensures sums { OnOk result (AreResiduals flows.now.ids (parts net.now property.now.property certificate.now) sums.new) }
    ensures value { IfOk result (λ value. value ≡ sum_of (residual_constant (parts net.now property.now.property certificate.now))) }
    ensures fits { OnOk result (IsConstantInRange (parts net.now property.now.property certificate.now)) }
    ensures wide { result ≡ Err SumFault.Wide → list_any is_wide (close_sums net.now (parts net.now property.now.property certificate.now)) ≡ true }
{
    let mut total = Sum::zero();
    for multiplier in certificate.close.as_slice() {
        let constant = match add_slack(net, property, flows, multiplier, coefficients, sums) {
            Ok(constant) => constant,
            Err(fault) => return Err(fault),
        };
        match add_multiple(&mut total, value_of(multiplier), constant) {
            Ok(()) => {}
            Err(Wide) => return Err(SumFault::Wide),
        }
    }
    Ok(total.value())
}

/// Whether no coefficient of the residual is positive and its constant is below 0.
fn refutes(sums: &[Sum], constant: i128) -> Check
    ensures { result ≡ residual_check sums.now constant }
{
    if is_none_positive(sums) && constant < 0 {
        Check::True
    } else {
        Check::False
    }
}

/// Whether the multipliers of hypotheses aren't negative.
fn have_right_signs(multipliers: &[Multiplier]) -> bool
    ensures { result ≡ list_all is_signed_well multipliers.now }
{
    multipliers.iter().all(has_right_sign)
}

/// Whether the `close` line, whose signs are right, refutes the negated invariant.
fn check_sums(
    net: &PlainNet,
    property: &NumberedProperty<'_>,
    certificate: &Certificate,
    flows: &NumberedFlows<'_>,
    coefficients: &mut [i64],
    sums: &mut [Sum],
) -> Result<Check, JudgeFault>
    requires places { flows.now.ids ≡ place_ids net.now }
    requires property { property.now.ids ≡ flows.now.ids }
    requires zeros { coefficients.old ≡ replicate (length flows.now.ids) (pos 0) }
    requires flows { flows.now.flows ≡ certificate.now.flows }
    requires empty { sums.old ≡ replicate (length flows.now.ids) zero_total }
    ensures { IfOk result (λ check. check ≡ sums_check net.now property.now.property certificate.now) }
{
    match add_up(net, property, certificate, flows, coefficients, sums) {
        Ok(constant) => Ok(refutes(sums, constant)),
        Err(SumFault::Wide) => Ok(Check::Wide),
        Err(SumFault::NotYet) => Err(JudgeFault::NotYet),
    }
}

/// Whether the `close` line refutes the negated invariant.
pub fn check_close(
    alloc: Global,
    net: &PlainNet,
    property: &NumberedProperty<'_>,
    certificate: &Certificate,
    flows: &NumberedFlows<'_>,
) -> Result<Check, JudgeFault>
    requires places { flows.now.ids ≡ place_ids net.now }
    requires property { property.now.ids ≡ flows.now.ids }
    requires flows { flows.now.flows ≡ certificate.now.flows }
    ensures { IfOk result (λ check. check ≡ close_check net.now property.now.property certificate.now) }
{
    if !have_right_signs(certificate.close.as_slice()) {
        return Ok(Check::False);
    }
    let places = flows.ids().count() as usize;
    let mut coefficients = empty_coefficients(alloc, places)?;
    let mut sums = empty_sums(alloc, places)?;
    let check = check_sums(
        net,
        property,
        certificate,
        flows,
        &mut coefficients,
        &mut sums,
    )?;
    Ok(check)
}
