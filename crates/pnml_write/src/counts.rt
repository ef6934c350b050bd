ghost use Rattle.std.specs.Prelude.{◌≡◌, [], ◌∷◌, ◌++◌, OnOk, codes, map};
ghost use Rattle.std.specs.Fmt.{decimal};
ghost use Rattle.doc_model.specs.Texts.{attribute_text, content_text, start_text, text_of};
ghost use Rattle.doc_model.specs.Trees.{attribute};
ghost use Rattle.net_elements.specs.declared.roles.Role.TheVariants as role;
ghost use Rattle.net_elements.specs.Table.{word_of};
ghost use Rattle.pnml_write.specs.Canon.{attribute_id, branch, text_label, unless_usual};

use doc_model::TextWriter;
use itoa::Buffer;
use net_elements::{Role, word_of};
use wide_sums::Memory;

/// Writes a place of a place/transition net, from its id and its marking.
pub fn put_counted_place(writer: &mut TextWriter, id: &[u8], count: u64) -> Result<(), Memory>
    ensures { OnOk result (writer.new ≡ writer.old ++ text_of (branch role.Place (attribute_id id.now ∷ []) (unless_usual 0 role.InitialMarking count))) }
{
    put_id(writer, Role::Place, id)?;
    put_count(writer, Role::Place, 0, Role::InitialMarking, count)?;
    Ok(())
}

/// Writes a transition without a guard, from its id.
pub fn put_plain_transition(writer: &mut TextWriter, id: &[u8]) -> Result<(), Memory>
    ensures { OnOk result (writer.new ≡ writer.old ++ text_of (branch role.Transition (attribute_id id.now ∷ []) [])) }
{
    put_id(writer, Role::Transition, id)?;
    writer.end_empty()?;
    Ok(())
}

/// Writes an arc of a place/transition net, from its id, its source, its target and its weight.
pub fn put_counted_arc(
    writer: &mut TextWriter,
    id: &[u8],
    source: &[u8],
    target: &[u8],
    count: u64,
) -> Result<(), Memory>
    ensures { OnOk result (writer.new ≡ writer.old ++ text_of (branch role.Arc
        (attribute_id id.now ∷ attribute (codes "source") source.now ∷ attribute (codes "target") target.now ∷ []) (unless_usual 1 role.Inscription count))) }
{
    put_id(writer, Role::Arc, id)?;
    writer.attribute(b"source", source)?;
    writer.attribute(b"target", target)?;
    put_count(writer, Role::Arc, 1, Role::Inscription, count)?;
    Ok(())
}

/// Writes the beginning of an element of a role, with its id.
fn put_id(writer: &mut TextWriter, role: Role, id: &[u8]) -> Result<(), Memory>
    ensures { OnOk result (writer.new ≡ writer.old ++ start_text (word_of role) ++ attribute_text (attribute_id id.now)) }
{
    writer.start(word_of(role))?;
    writer.attribute(b"id", id)?;
    Ok(())
}

/// Writes what follows the attributes of an element of a role: a label with a number, or nothing where it is the usual one.
fn put_count(
    writer: &mut TextWriter,
    role: Role,
    usual: u64,
    label: Role,
    count: u64,
) -> Result<(), Memory>
    ensures { OnOk result (writer.new ≡ writer.old ++ content_text (word_of role) (map text_of (unless_usual usual label count)) []) }
{
    if count == usual {
        writer.end_empty()?;
        return Ok(());
    }
    writer.end_start()?;
    put_label(writer, label, count)?;
    writer.end(word_of(role))?;
    Ok(())
}

/// Writes a label with a number.
fn put_label(writer: &mut TextWriter, label: Role, count: u64) -> Result<(), Memory>
    ensures { OnOk result (writer.new ≡ writer.old ++ text_of (text_label label count)) }
{
    writer.start(word_of(label))?;
    writer.end_start()?;
    put_number(writer, count)?;
    writer.end(word_of(label))?;
    Ok(())
}

/// Writes an element with the decimal text of a number.
fn put_number(writer: &mut TextWriter, number: u64) -> Result<(), Memory>
    ensures { OnOk result (writer.new ≡ writer.old ++ start_text (word_of role.Text) ++ content_text (word_of role.Text) [] (decimal number)) }
{
    writer.start(word_of(Role::Text))?;
    writer.text_and_end(word_of(Role::Text), Buffer::new().format(number).as_bytes())?;
    Ok(())
}
