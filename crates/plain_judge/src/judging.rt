//! The judgement of a whole certificate.
ghost use Rattle.std.specs.Prelude.{◌≡◌, IfOk, OnOk};
ghost use Rattle.plain_model.specs.Obligations.{judgement};
ghost use Rattle.plain_model.specs.Plain.{IsPlainCertificate, IsPlainNet, place_ids};
ghost use Rattle.plain_rows.specs.Rows.{AreRowsOf};

use crate::closes::check_close;
use crate::examining::examine;
use crate::faults::JudgeFault;
use crate::flows::judge_flows;
use crate::numbered::NumberedFlows;
use crate::properties::NumberedProperty;
use plain_model::{Certificate, Check, Judged, PlainNet, Spot};
use plain_rows::PlainRows;
use pt_net::PtNet;
use std::alloc::Global;

/// Judges all obligations in order: the first one that isn't true decides.
fn judge_all(
    alloc: Global,
    net: &PlainNet,
    system: &PtNet,
    property: &NumberedProperty<'_>,
    certificate: &Certificate,
    flows: &NumberedFlows<'_>,
) -> Result<Judged, JudgeFault>
    requires places { flows.now.ids ≡ place_ids net.now }
    requires property { property.now.ids ≡ flows.now.ids }
    requires rows { AreRowsOf net.now system.now }
    requires flows { flows.now.flows ≡ certificate.now.flows }
    ensures { IfOk result (λ judged. judged ≡ judgement net.now property.now.property certificate.now) }
{
    match judge_flows(alloc, net, flows, system) {
        Ok(Judged::Shown) => {}
        Ok(Judged::NotShown(spot)) => return Ok(Judged::NotShown(spot)),
        Ok(Judged::Range(spot)) => return Ok(Judged::Range(spot)),
        Err(fault) => return Err(fault),
    }
    match check_close(alloc, net, property, certificate, flows) {
        Ok(Check::True) => Ok(Judged::Shown),
        Ok(Check::False) => Ok(Judged::NotShown(Spot::Close)),
        Ok(Check::Wide) => Ok(Judged::Range(Spot::Close)),
        Err(fault) => Err(fault),
    }
}

/// Judges the certificate for the property on the net: the first obligation in the order of the
/// flows, each with each transition, and then `close`, that isn't true decides.
///
/// `rows` are those that `plain_rows::build` gives for the net, and the property is numbered by the
/// ids of its places. `NotYet` comes where the certificate isn't of the first grammar for this net
/// and property.
pub fn judge(
    alloc: Global,
    net: &PlainNet,
    rows: &PlainRows<'_>,
    property: &NumberedProperty<'_>,
    certificate: &Certificate,
) -> Result<Judged, JudgeFault>
    requires plain { IsPlainNet net.now }
    requires places { rows.now.places ≡ place_ids net.now }
    requires rows { AreRowsOf net.now rows.now.net }
    requires property { property.now.ids ≡ place_ids net.now }
    ensures plain { OnOk result (IsPlainCertificate net.now property.now.property certificate.now) }
    ensures judged { IfOk result (λ judged. judged ≡ judgement net.now property.now.property certificate.now) }
{
    let flows = NumberedFlows::new(alloc, &rows.places, certificate.flows.as_slice())?;
    examine(alloc, net, property.property(), certificate, &flows)?;
    judge_all(alloc, net, &rows.net, property, certificate, &flows)
}
