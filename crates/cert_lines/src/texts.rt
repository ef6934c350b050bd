ghost use Rattle.std.specs.Prelude.{◌≡◌, ◌++◌, IfOk, OnOk, codes, flat_map};
ghost use Rattle.std.specs.Fmt.{signed_decimal};
ghost use Rattle.cert_lines.specs.Order.{body_lines, claim_of, end_line, fact_lines, node_line, origin_of, property_lines, section_lines, step_line, tree_lines, version_line};
ghost use Rattle.cert_lines.specs.Statements.{word_for};
ghost use Rattle.cert_lines.specs.Texts.{certificate_text, claim_text, line_text, node_text};
ghost use Rattle.line_words.specs.Texts.{all_spaced, ended, instance_text, spaced, weight_text};

use crate::certificates::{Cert, Fact, FactKind, Node, NodeForm, Section, Step, Version};
use crate::lines::first_word;
use crate::statements::Keyword;
use line_words::{Spelled, Text, Weight};
use std::alloc::Global;
use wide_sums::Memory;

/// The canonical text of the certificate in its version: one space between words, a line feed after each
/// line, numbers without leading zeros. Its lines spell the same certificate, apart from the numbers of lines.
pub fn write_cert(alloc: Global, cert: &Cert) -> Result<Vec<u8>, Memory>
    ensures { IfOk result (λ text. text.items ≡ certificate_text cert.now) }
{
    let mut text = Text::new(alloc);
    write_version(&mut text, cert.version)?;
    write_body(&mut text, cert)?;
    write_end(&mut text)?;
    Ok(text.into_bytes())
}

fn write_version(text: &mut Text, version: Version) -> Result<(), Memory>
    ensures { OnOk result (text.new ≡ text.old ++ line_text (version_line version)) }
{
    write_first(text, Keyword::Certificate)?;
    match version {
        Version::One => text.put(b" 1\n"),
        Version::Two => text.put(b" 2\n"),
    }
}

fn write_end(text: &mut Text) -> Result<(), Memory>
    ensures { OnOk result (text.new ≡ text.old ++ line_text end_line) }
{
    write_first(text, Keyword::End)?;
    text.put(b"\n")?;
    Ok(())
}

fn write_body(text: &mut Text, cert: &Cert) -> Result<(), Memory>
    ensures { OnOk result (text.new ≡ text.old
        ++ flat_map line_text (body_lines cert.now.version cert.now.facts cert.now.sections)) }
{
    let facts = cert.facts.as_slice();
    let sections = cert.sections.as_slice();
    match cert.version {
        Version::One => write_property_first(text, facts, sections),
        Version::Two => write_facts_first(text, facts, sections),
    }
}

fn write_property_first(text: &mut Text, facts: &[Fact], sections: &[Section]) -> Result<(), Memory>
    ensures { OnOk result (text.new ≡ text.old ++ flat_map line_text (body_lines Version.One facts.now sections.now)) }
{
    write_properties(text, sections)?;
    write_facts(text, facts)?;
    write_trees(text, sections)?;
    Ok(())
}

fn write_facts_first(text: &mut Text, facts: &[Fact], sections: &[Section]) -> Result<(), Memory>
    ensures { OnOk result (text.new ≡ text.old ++ flat_map line_text (body_lines Version.Two facts.now sections.now)) }
{
    write_facts(text, facts)?;
    write_sections(text, sections)?;
    Ok(())
}

fn write_properties(text: &mut Text, sections: &[Section]) -> Result<(), Memory>
    ensures { OnOk result (text.new ≡ text.old ++ flat_map (λ section. flat_map line_text (property_lines section)) sections.now) }
{
    for section in sections {
        write_property(text, section)?;
    }
    Ok(())
}

fn write_trees(text: &mut Text, sections: &[Section]) -> Result<(), Memory>
    ensures { OnOk result (text.new ≡ text.old ++ flat_map (λ section. flat_map line_text (tree_lines section)) sections.now) }
{
    for section in sections {
        write_tree(text, section)?;
    }
    Ok(())
}

fn write_sections(text: &mut Text, sections: &[Section]) -> Result<(), Memory>
    ensures { OnOk result (text.new ≡ text.old ++ flat_map (λ section. flat_map line_text (section_lines section)) sections.now) }
{
    for section in sections {
        write_section(text, section)?;
    }
    Ok(())
}

fn write_section(text: &mut Text, section: &Section) -> Result<(), Memory>
    ensures { OnOk result (text.new ≡ text.old ++ flat_map line_text (section_lines section.now)) }
{
    write_property(text, section)?;
    write_tree(text, section)?;
    Ok(())
}

fn write_property(text: &mut Text, section: &Section) -> Result<(), Memory>
    ensures { OnOk result (text.new ≡ text.old ++ flat_map line_text (property_lines section.now)) }
{
    write_first(text, Keyword::Property)?;
    text.spaced(section.property.bytes())?;
    text.put(b"\n")?;
    Ok(())
}

fn write_tree(text: &mut Text, section: &Section) -> Result<(), Memory>
    ensures { OnOk result (text.new ≡ text.old ++ flat_map line_text (tree_lines section.now)) }
{
    write_first(text, Keyword::Proof)?;
    text.put(b"\n")?;
    write_nodes(text, section.tree.as_slice())?;
    Ok(())
}

/// Writes the first word of a line.
fn write_first(text: &mut Text, keyword: Keyword) -> Result<(), Memory>
    ensures { OnOk result (text.new ≡ text.old ++ word_for keyword) }
{
    text.put(first_word(keyword))
}

fn write_facts(text: &mut Text, facts: &[Fact]) -> Result<(), Memory>
    ensures { OnOk result (text.new ≡ text.old ++ flat_map (λ fact. flat_map line_text (fact_lines fact)) facts.now) }
{
    for fact in facts {
        write_fact(text, fact)?;
    }
    Ok(())
}

fn write_fact(text: &mut Text, fact: &Fact) -> Result<(), Memory>
    ensures { OnOk result (text.new ≡ text.old ++ flat_map line_text (fact_lines fact.now)) }
{
    write_claim(text, fact.name.bytes(), &fact.kind)?;
    if let FactKind::Bound { steps, .. } = &fact.kind {
        write_steps(text, steps.as_slice())?;
    }
    Ok(())
}

fn write_claim(text: &mut Text, name: &[u8], kind: &FactKind) -> Result<(), Memory>
    ensures { OnOk result (text.new ≡ text.old ++ ended (claim_text name.now (claim_of kind.now))) }
{
    match kind {
        FactKind::Flow(weights) => write_named(text, Keyword::Flow, name, weights.as_slice()),
        FactKind::Trap(places) => write_named(text, Keyword::Trap, name, places.as_slice()),
        FactKind::Bound { limit, weights, .. } => {
            write_bound(text, name, *limit, weights.as_slice())
        }
    }
}

fn write_named<T: Spelled>(
    text: &mut Text,
    first: Keyword,
    name: &[u8],
    values: &[T],
) -> Result<(), Memory>
    ensures { OnOk result (text.new ≡ text.old ++ ended (word_for first ++ spaced name.now ++ all_spaced T.spelling values.now)) }
{
    write_first(text, first)?;
    text.spaced(name)?;
    text.list(values)?;
    text.put(b"\n")?;
    Ok(())
}

fn write_bound(text: &mut Text, name: &[u8], limit: i64, weights: &[Weight]) -> Result<(), Memory>
    ensures { OnOk result (text.new ≡ text.old
        ++ ended (codes "bound" ++ spaced name.now ++ spaced (signed_decimal limit) ++ all_spaced weight_text weights.now)) }
{
    write_first(text, Keyword::Bound)?;
    text.spaced(name)?;
    text.spaced_signed(limit)?;
    text.list(weights)?;
    text.put(b"\n")?;
    Ok(())
}

fn write_steps(text: &mut Text, steps: &[Step]) -> Result<(), Memory>
    ensures { OnOk result (text.new ≡ text.old ++ flat_map (λ step. line_text (step_line step)) steps.now) }
{
    for step in steps {
        write_step(text, step)?;
    }
    Ok(())
}

fn write_step(text: &mut Text, step: &Step) -> Result<(), Memory>
    ensures { OnOk result (text.new ≡ text.old ++ line_text (step_line step.now)) }
{
    write_first(text, Keyword::Step)?;
    write_instance(text, step)?;
    text.spaced_signed(step.scale)?;
    text.spaced_signed(step.keep)?;
    text.list(step.factors.as_slice())?;
    text.put(b"\n")?;
    Ok(())
}

/// Writes a space and the transition instance of the step.
fn write_instance(text: &mut Text, step: &Step) -> Result<(), Memory>
    ensures { OnOk result (text.new ≡ text.old ++ spaced (instance_text (origin_of step.now))) }
{
    text.spaced(step.transition.bytes())?;
    text.marked(b"@", step.binding)?;
    Ok(())
}

fn write_nodes(text: &mut Text, nodes: &[Node]) -> Result<(), Memory>
    ensures { OnOk result (text.new ≡ text.old ++ flat_map (λ node. line_text (node_line node)) nodes.now) }
{
    for node in nodes {
        write_node(text, &node.form)?;
    }
    Ok(())
}

fn write_node(text: &mut Text, form: &NodeForm) -> Result<(), Memory>
    ensures { OnOk result (text.new ≡ text.old ++ ended (node_text form.now)) }
{
    match form {
        NodeForm::Close(multipliers) => {
            write_first(text, Keyword::Close)?;
            text.list(multipliers.as_slice())?;
        }
        NodeForm::Clash(place) => {
            write_first(text, Keyword::Clash)?;
            text.spaced_value(place)?;
        }
        NodeForm::Split { limit, weights } => {
            write_first(text, Keyword::Split)?;
            text.spaced_signed(*limit)?;
            text.list(weights.as_slice())?;
        }
        NodeForm::Cases { choice, branches } => {
            write_first(text, Keyword::Cases)?;
            text.marked(b" ", *choice)?;
            text.marked(b" ", *branches)?;
        }
        NodeForm::Each { choice } => {
            write_first(text, Keyword::Each)?;
            text.marked(b" ", *choice)?;
        }
    }
    text.put(b"\n")?;
    Ok(())
}
