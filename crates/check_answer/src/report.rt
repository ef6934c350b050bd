ghost use Rattle.std.specs.Prelude.{◌≡◌, ℕ, ◌+◌, ◌<◌, ◌^◌, ◌++◌, ◌∷◌, [], map, length, codes, decimal, slice_index_or, IfOk, OnOk};
ghost use Rattle.plain_model.specs.Report.{counts_line, failed_line, flow_name, line_feed, property_line, report};
ghost use Rattle.check_answer.specs.Lines.{counts_text, step_text};

use answers::{put, put_number};
use name_tables::Name;
use plain_model::{Certificate, Flow, Judged, PlainNet, Property, Spot};
use std::alloc::Global;
use wide_sums::Memory;

/// Appends a word and a number.
fn put_labelled(text: &mut Vec<u8>, label: &[u8], number: u64) -> Result<(), Memory>
    ensures { OnOk result (text.new.items ≡ text.old.items ++ label.now ++ decimal number) }
{
    put(text, label)?;
    put_number(text, number)?;
    Ok(())
}

/// Appends a word and a name.
fn put_named(text: &mut Vec<u8>, label: &[u8], name: &[u8]) -> Result<(), Memory>
    ensures { OnOk result (text.new.items ≡ text.old.items ++ label.now ++ name.now) }
{
    put(text, label)?;
    put(text, name)?;
    Ok(())
}

fn put_property_line(text: &mut Vec<u8>, property: &Property, word: &[u8]) -> Result<(), Memory>
    ensures { OnOk result (text.new.items ≡ text.old.items ++ property_line property.now word.now) }
{
    put(text, b"property ")?;
    put(text, property.id.bytes())?;
    put(text, b" ")?;
    put(text, word)?;
    put(text, b"\n")?;
    Ok(())
}

/// The numbers of the places and of the transitions.
fn put_counts(text: &mut Vec<u8>, places: u64, transitions: u64) -> Result<(), Memory>
    ensures { OnOk result (text.new.items ≡ text.old.items ++ counts_text places transitions) }
{
    put_labelled(text, b"places ", places)?;
    put_labelled(text, b" constant 0 instances ", transitions)?;
    put_labelled(text, b" live ", transitions)?;
    put_labelled(text, b" kept ", transitions)?;
    put(text, b"\n")?;
    Ok(())
}

fn put_counts_line(text: &mut Vec<u8>, net: &PlainNet) -> Result<(), Memory>
    ensures { OnOk result (text.new.items ≡ text.old.items ++ counts_line net.now) }
{
    let places = net.places.as_slice().len();
    let transitions = net.transitions.as_slice().len();
    put_counts(text, places as u64, transitions as u64)
}

/// The name of the flow with this number.
fn name_of_flow(flows: &[Flow], flow: u32) -> &[u8]
    ensures { result.now ≡ slice_index_or (map (λ f. f.name) flows.now) flow [] }
{
    match flows.get(flow as usize) {
        Some(flow) => flow.name.bytes(),
        None => &[],
    }
}

/// The id of the transition with this number.
fn id_of_transition(transitions: &[Name], transition: u32) -> &[u8]
    ensures { result.now ≡ slice_index_or transitions.now transition [] }
{
    match transitions.get(transition as usize) {
        Some(transition) => transition.bytes(),
        None => &[],
    }
}

/// The line, the fact with this name that stands in it, and the transition with this id.
fn put_step_line(text: &mut Vec<u8>, line: u64, name: &[u8], id: &[u8]) -> Result<(), Memory>
    ensures { OnOk result (text.new.items ≡ text.old.items ++ step_text line name.now id.now) }
{
    put_labelled(text, b"failed line ", line)?;
    put_named(text, b" fact ", name)?;
    put_named(text, b" step ", id)?;
    put_named(text, b"@0", b"\n")?;
    Ok(())
}

fn put_failed_step(
    text: &mut Vec<u8>,
    net: &PlainNet,
    certificate: &Certificate,
    flow: u32,
    transition: u32,
) -> Result<(), Memory>
    ensures { OnOk result (text.new.items ≡ text.old.items
        ++ failed_line net.now certificate.now (Spot.Step flow transition)) }
{
    let name = name_of_flow(certificate.flows.as_slice(), flow);
    let id = id_of_transition(net.transitions.as_slice(), transition);
    put_step_line(text, 3 + u64::from(flow), name, id)
}

fn put_failed_close(text: &mut Vec<u8>, flows: &[Flow]) -> Result<(), Memory>
    ensures { OnOk result (text.new.items ≡ text.old.items
        ++ codes "failed line " ++ decimal (length flows.now + 4) ++ codes " node" ++ line_feed) }
{
    put_labelled(text, b"failed line ", flows.len() as u64 + 4)?;
    put(text, b" node\n")?;
    Ok(())
}

fn put_failed_line(
    text: &mut Vec<u8>,
    net: &PlainNet,
    certificate: &Certificate,
    spot: Spot,
) -> Result<(), Memory>
    ensures { OnOk result (text.new.items ≡ text.old.items ++ failed_line net.now certificate.now spot) }
{
    match spot {
        Spot::Step { flow, transition } => put_failed_step(
            text,
            net,
            certificate,
            flow,
            transition,
        )?,
        Spot::Close => put_failed_close(text, certificate.flows.as_slice())?,
    }
    Ok(())
}

/// The first line, the line of the property and that of the counts.
fn put_head(
    text: &mut Vec<u8>,
    first: &[u8],
    property: &Property,
    word: &[u8],
    net: &PlainNet,
) -> Result<(), Memory>
    ensures { OnOk result (text.new.items ≡ text.old.items ++ first.now ++ line_feed
        ++ property_line property.now word.now ++ counts_line net.now) }
{
    put(text, first)?;
    put(text, b"\n")?;
    put_property_line(text, property, word)?;
    put_counts_line(text, net)?;
    Ok(())
}

/// The report of what the obligations show of a net, a property and a certificate.
pub fn report_text(
    alloc: Global,
    net: &PlainNet,
    property: &Property,
    certificate: &Certificate,
    judged: &Judged,
) -> Result<Vec<u8>, Memory>
    ensures { IfOk result (λ text. text.items ≡ report net.now property.now certificate.now judged.now) }
{
    let mut text = Vec::new(alloc);
    match judged {
        Judged::Shown => {
            put_head(&mut text, b"holds", property, b"TRUE", net)?;
        }
        Judged::NotShown(spot) => {
            put_head(&mut text, b"not shown", property, b"UNKNOWN", net)?;
            put_failed_line(&mut text, net, certificate, *spot)?;
        }
        Judged::Range(spot) => {
            put_head(&mut text, b"out of range", property, b"UNKNOWN", net)?;
            put_failed_line(&mut text, net, certificate, *spot)?;
        }
    }
    Ok(text)
}
