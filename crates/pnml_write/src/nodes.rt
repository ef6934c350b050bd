ghost use Rattle.std.specs.Prelude.{◌≡◌, ◌++◌, IfOk, OnOk, map};
ghost use Rattle.doc_model.specs.Texts.{text_of};
ghost use Rattle.pnml_write.specs.Canon.{arc_tree, block_tree, member_tree, named_sort_tree, partition_tree, place_tree, reference_role, reference_tree, transition_tree, variable_tree};

use crate::counts::{put_counted_arc, put_counted_place, put_plain_transition};
use crate::elements::{add_attribute, bare, branch, declared_id, leaf_with, one_attribute, only};
use crate::labels::{add_condition, add_inscription, add_marking, add_type};
use crate::sorts::sort_tree;
use crate::terms::{operator_tree, range_constant_tree};
use doc_model::{Element, TextWriter};
use net_elements::Role;
use net_model::{
    Arc, Block, Kind, Label, Member, NamedSort, Partition, Place, RefKind, Reference, Transition,
    VariableDecl,
};
use sqlite_items::Items;
use std::alloc::Global;
use wide_sums::Memory;

/// Writes a place; with a number as its marking no tree is made.
pub fn put_place(
    alloc: Global,
    writer: &mut TextWriter,
    kind: Kind,
    place: &Place,
) -> Result<(), Memory>
    ensures { OnOk result (writer.new ≡ writer.old ++ text_of (place_tree kind place.now)) }
{
    match (kind, &place.marking) {
        (Kind::Pt, Label::Count(count)) => { put_counted_place(writer, place.id.bytes(), *count) }
        _ => writer.element(&place_tree(alloc, kind, place)?),
    }
}

/// Writes a transition; without a guard no tree is made.
pub fn put_transition(
    alloc: Global,
    writer: &mut TextWriter,
    transition: &Transition,
) -> Result<(), Memory>
    ensures { OnOk result (writer.new ≡ writer.old ++ text_of (transition_tree transition.now)) }
{
    match &transition.guard {
        None => put_plain_transition(writer, transition.id.bytes()),
        Some(_) => writer.element(&transition_tree(alloc, transition)?),
    }
}

/// Writes an arc; with a number as its inscription no tree is made.
pub fn put_arc(alloc: Global, writer: &mut TextWriter, arc: &Arc) -> Result<(), Memory>
    ensures { OnOk result (writer.new ≡ writer.old ++ text_of (arc_tree arc.now)) }
{
    match &arc.label {
        Label::Count(count) => put_counted_arc(
            writer,
            arc.id.bytes(),
            arc.source.bytes(),
            arc.target.bytes(),
            *count,
        ),
        _ => writer.element(&arc_tree(alloc, arc)?),
    }
}

/// The tree of a place.
fn place_tree(alloc: Global, kind: Kind, place: &Place) -> Result<Element, Memory>
    ensures { IfOk result (λ tree. tree ≡ place_tree kind place.now) }
{
    let mut labels = Items::new(alloc);
    add_type(alloc, &mut labels, kind, &place.sort)?;
    add_marking(alloc, &mut labels, &place.marking)?;
    let id = one_attribute(alloc, b"id", place.id.bytes())?;
    branch(alloc, Role::Place, id, labels)
}

/// The tree of a transition.
fn transition_tree(alloc: Global, transition: &Transition) -> Result<Element, Memory>
    ensures { IfOk result (λ tree. tree ≡ transition_tree transition.now) }
{
    let mut labels = Items::new(alloc);
    add_condition(alloc, &mut labels, &transition.guard)?;
    let id = one_attribute(alloc, b"id", transition.id.bytes())?;
    branch(alloc, Role::Transition, id, labels)
}

/// The tree of a reference.
pub fn reference_tree(alloc: Global, reference: &Reference) -> Result<Element, Memory>
    ensures { IfOk result (λ tree. tree ≡ reference_tree reference.now) }
{
    let mut attributes = one_attribute(alloc, b"id", reference.id.bytes())?;
    add_attribute(alloc, &mut attributes, b"ref", reference.target.bytes())?;
    leaf_with(alloc, reference_role(reference.kind), attributes)
}

fn reference_role(kind: RefKind) -> Role
    ensures { result ≡ reference_role kind }
{
    match kind {
        RefKind::Place => Role::ReferencePlace,
        RefKind::Transition => Role::ReferenceTransition,
    }
}

/// The tree of an arc.
fn arc_tree(alloc: Global, arc: &Arc) -> Result<Element, Memory>
    ensures { IfOk result (λ tree. tree ≡ arc_tree arc.now) }
{
    let mut attributes = one_attribute(alloc, b"id", arc.id.bytes())?;
    add_attribute(alloc, &mut attributes, b"source", arc.source.bytes())?;
    add_attribute(alloc, &mut attributes, b"target", arc.target.bytes())?;
    let mut labels = Items::new(alloc);
    add_inscription(alloc, &mut labels, &arc.label)?;
    branch(alloc, Role::Arc, attributes, labels)
}

/// The tree of the declaration of a sort.
pub fn named_sort_tree(alloc: Global, sort: &NamedSort) -> Result<Element, Memory>
    ensures { IfOk result (λ tree. tree ≡ named_sort_tree sort.now) }
{
    let id = declared_id(alloc, sort.id.bytes())?;
    let children = only(alloc, sort_tree(alloc, &sort.sort)?)?;
    branch(alloc, Role::NamedSort, id, children)
}

/// The tree of the declaration of a variable.
pub fn variable_tree(alloc: Global, variable: &VariableDecl) -> Result<Element, Memory>
    ensures { IfOk result (λ tree. tree ≡ variable_tree variable.now) }
{
    let id = declared_id(alloc, variable.id.bytes())?;
    let children = only(alloc, sort_tree(alloc, &variable.sort)?)?;
    branch(alloc, Role::VariableDecl, id, children)
}

/// The tree of the declaration of a partition.
pub fn partition_tree(alloc: Global, partition: &Partition) -> Result<Element, Memory>
    ensures { IfOk result (λ tree. tree ≡ partition_tree partition.now) }
{
    let id = declared_id(alloc, partition.id.bytes())?;
    let mut children = only(alloc, sort_tree(alloc, &partition.sort)?)?;
    for block in partition.elements.as_slice() {
        children.push(block_tree(alloc, block)?)?;
    }
    branch(alloc, Role::Partition, id, children)
}

fn block_tree(alloc: Global, block: &Block) -> Result<Element, Memory>
    ensures { IfOk result (λ tree. tree ≡ block_tree block.now) }
{
    let mut members = Items::new(alloc);
    for member in block.members.as_slice() {
        members.push(member_tree(alloc, member)?)?;
    }
    let id = declared_id(alloc, block.id.bytes())?;
    branch(alloc, Role::PartitionElement, id, members)
}

fn member_tree(alloc: Global, member: &Member) -> Result<Element, Memory>
    ensures { IfOk result (λ tree. tree ≡ member_tree member.now) }
{
    match member {
        Member::Constant(id) => operator_tree(alloc, id.bytes()),
        Member::Number { value, span } => range_constant_tree(alloc, *value, *span),
        Member::Dot => bare(alloc, Role::DotConstant),
    }
}
