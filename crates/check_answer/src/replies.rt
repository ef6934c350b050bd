ghost use Rattle.std.specs.Prelude.{◌≡◌, ◌≤◌, IfOk, OnOk};
ghost use Rattle.plain_model.specs.Obligations.{judgement};
ghost use Rattle.plain_model.specs.Plain.{AreDistinct, IsId, IsPlainCertificate, IsPlainCount, IsPlainNet, place_ids};
ghost use Rattle.plain_rows.specs.Rows.{AreRowsOf};
ghost use Rattle.plain_text.specs.Certificates.{certificate_text};
ghost use Rattle.plain_text.specs.Nets.{net_text};
ghost use Rattle.plain_text.specs.Properties.{property_text};
ghost use Rattle.check_answer.specs.Verdicts.{IsJudged, IsNotYet, IsVerdict};
ghost use Rattle.pnml_inputs.specs.Answers.{IsQuiet, ReadsBy};
ghost use Rattle.pnml_inputs.specs.Reading.{inputs_reading};

use crate::refusals::Refusal;
use crate::report::report_text;
use crate::verdicts::verdict_of;
use answers::{Reply, Verdict, refusal_text};
use host_io::{Files, Gate, Phase};
use name_tables::{Name, is_id};
use plain_judge::{NumberedProperty, judge};
use plain_model::{Certificate, Judged, PlainNet, Property};
use plain_rows::{Numbers, PlainRows, build};
use plain_text::{read_certificate, read_net, read_property};
use pnml_inputs::{Inputs, Role, Stop, read_inputs};
use std::alloc::Global;
use wide_sums::Memory;

/// The names of the files of `check`.
#[derive(Clone, Copy)]
pub struct Operands<'a> {
    /// The net.
    pub net: &'a Name,
    /// The properties.
    pub formula: &'a Name,
    /// The certificate.
    pub certificate: &'a Name,
}

/// The reply where this file isn't taken yet.
fn not_yet(alloc: Global, role: Role) -> Result<Reply, Memory>
    ensures { IfOk result (λ reply. IsNotYet reply.verdict reply.text.items) }
{
    let text = refusal_text(alloc, role, b"not-yet")?;
    Ok(Reply {
        verdict: Verdict::Refused,
        text,
    })
}

/// The net of this file.
fn net_of(alloc: Global, bytes: &[u8]) -> Result<PlainNet, Refusal>
    ensures { IfOk result (λ net. net_text net ≡ bytes.now) }
{
    match read_net(alloc, bytes) {
        Ok(net) => Ok(net),
        Err(fault) => Err(Refusal::of_text(Role::Net, fault)),
    }
}

/// The net by the numbers of its places and transitions, in one job.
fn rows_of<'a, G: Gate>(
    alloc: Global,
    net: &'a PlainNet,
    gate: &G,
) -> Result<PlainRows<'a>, Refusal>
    ensures plain { OnOk result (IsPlainNet net.now) }
    ensures places { IfOk result (λ rows. rows.places ≡ place_ids net.now) }
    ensures rows { IfOk result (λ rows. AreRowsOf net.now rows.net) }
{
    gate.enter(Phase::Unfold, 0);
    let rows = build(alloc, net)?;
    Ok(rows)
}

/// The property of this file, whose id is one.
fn property_of(alloc: Global, bytes: &[u8]) -> Result<Property, Refusal>
    ensures read { IfOk result (λ property. property_text property ≡ bytes.now) }
    ensures id { IfOk result (λ property. IsId property.id) }
{
    match read_property(alloc, bytes) {
        Ok(property) => {
            if is_id(property.id.bytes()) {
                Ok(property)
            } else {
                Err(Refusal::NotYet(Role::Formula))
            }
        }
        Err(fault) => Err(Refusal::of_text(Role::Formula, fault)),
    }
}

/// The property over the numbers of the net's places.
fn numbered_property<'a>(
    alloc: Global,
    places: &'a Numbers<'a>,
    property: &'a Property,
) -> Result<NumberedProperty<'a>, Refusal>
    requires { AreDistinct places.now }
    ensures ids { IfOk result (λ numbered. numbered.ids ≡ places.now) }
    ensures property { IfOk result (λ numbered. numbered.property ≡ property.now) }
    ensures left { OnOk result (IsPlainCount places.now property.now.left) }
    ensures right { OnOk result (IsPlainCount places.now property.now.right) }
{
    match NumberedProperty::new(alloc, places, property) {
        Ok(numbered) => Ok(numbered),
        Err(fault) => Err(Refusal::of_judge(Role::Formula, fault)),
    }
}

/// The certificate of this file.
fn certificate_of(alloc: Global, bytes: &[u8]) -> Result<Certificate, Refusal>
    ensures { IfOk result (λ certificate. certificate_text certificate ≡ bytes.now) }
{
    match read_certificate(alloc, bytes) {
        Ok(certificate) => Ok(certificate),
        Err(fault) => Err(Refusal::of_text(Role::Cert, fault)),
    }
}

/// What the obligations show, in one job.
fn judgement_of<G: Gate>(
    alloc: Global,
    net: &PlainNet,
    rows: &PlainRows<'_>,
    property: &NumberedProperty<'_>,
    certificate: &Certificate,
    gate: &G,
) -> Result<Judged, Refusal>
    requires plain { IsPlainNet net.now }
    requires places { rows.now.places ≡ place_ids net.now }
    requires rows { AreRowsOf net.now rows.now.net }
    requires property { property.now.ids ≡ place_ids net.now }
    ensures plain { OnOk result (IsPlainCertificate net.now property.now.property certificate.now) }
    ensures judged { IfOk result (λ judged. judged ≡ judgement net.now property.now.property certificate.now) }
{
    gate.enter(Phase::Judge, 0);
    match judge(alloc, net, rows, property, certificate) {
        Ok(judged) => Ok(judged),
        Err(fault) => Err(Refusal::of_judge(Role::Cert, fault)),
    }
}

/// The report on the texts of this net, whose rows are these, of a property and of a certificate.
fn reply_on<G: Gate>(
    alloc: Global,
    inputs: &Inputs,
    net: &PlainNet,
    rows: &PlainRows<'_>,
    gate: &G,
) -> Result<Reply, Refusal>
    requires file { net_text net.now ≡ inputs.now.net }
    requires plain { IsPlainNet net.now }
    requires places { rows.now.places ≡ place_ids net.now }
    requires rows { AreRowsOf net.now rows.now.net }
    ensures { IfOk result (λ reply. IsJudged inputs.now reply.verdict reply.text.items) }
{
    let property = property_of(alloc, inputs.formula())?;
    let numbered = numbered_property(alloc, &rows.places, &property)?;
    let certificate = certificate_of(alloc, inputs.certificate())?;
    let judged = judgement_of(alloc, net, rows, &numbered, &certificate, gate)?;
    let text = report_text(alloc, net, &property, &certificate, &judged)?;
    Ok(Reply {
        verdict: verdict_of(&judged),
        text,
    })
}

/// The report on the three texts. The first that isn't taken yet, in their order, is refused.
fn judged_reply<G: Gate>(alloc: Global, inputs: &Inputs, gate: &G) -> Result<Reply, Refusal>
    ensures { IfOk result (λ reply. IsJudged inputs.now reply.verdict reply.text.items) }
{
    let net = net_of(alloc, inputs.net())?;
    let rows = rows_of(alloc, &net, gate)?;
    reply_on(alloc, inputs, &net, &rows, gate)
}

/// The reply to three texts: the report, or the line `refused ROLE not-yet` for the first of them
/// that isn't taken yet. [`Memory`] comes for want of memory.
///
/// The gate is passed as the net is numbered, and as the obligations are judged.
fn verdict<G: Gate>(alloc: Global, inputs: &Inputs, gate: &G) -> Result<Reply, Memory>
    ensures { IfOk result (λ reply. IsVerdict inputs.now reply.verdict reply.text.items) }
{
    match judged_reply(alloc, inputs, gate) {
        Ok(reply) => Ok(reply),
        Err(Refusal::NotYet(role)) => not_yet(alloc, role),
        Err(Refusal::Memory) => Err(Memory),
    }
}

/// What `check` says of the files with these names, of a net, of properties and of a certificate, which are held whole: the report,
/// or the line `refused ROLE not-yet` for the first of them that isn't taken yet.
///
/// Where it is told which names are held, the answer is that to the bytes of the files, or [`Stop::TooLong`] of the first
/// that is longer than the limit. [`Stop::Fault`] comes only where the count of faults rose in this call, or where the name
/// of a file isn't held before which none is too long, and [`Stop::Memory`] for want of memory.
pub fn check<F: Files, G: Gate>(
    alloc: Global,
    names: Operands<'_>,
    files: &mut F,
    gate: &G,
) -> Result<Reply, Stop>
    ensures same { F.held files.new ≡ F.held files.old }
    ensures later { F.faults files.old ≤ F.faults files.new }
    ensures quiet { IsQuiet (F.faults files.old) (F.faults files.new) result }
    ensures read { ReadsBy (λ texts reply. IsVerdict texts reply.verdict reply.text.items) (F.held files.old)
        (inputs_reading names.entry.net.now names.entry.formula.now names.entry.certificate.now)
        (F.faults files.old) (F.faults files.new) result }
{
    let inputs = match read_inputs(alloc, names.net, names.formula, names.certificate, files) {
        Ok(inputs) => inputs,
        Err(stop) => return Err(stop),
    };
    match verdict(alloc, &inputs, gate) {
        Ok(reply) => Ok(reply),
        Err(Memory) => Err(Stop::Memory),
    }
}
