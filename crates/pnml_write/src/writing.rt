ghost use Rattle.std.specs.Prelude.{◌≡◌, ◌<◌, [], ◌++◌, IfOk, MatchBool, OnOk, length, map};
ghost use Rattle.std.specs.List.{flat_map};
ghost use Rattle.doc_model.specs.Texts.{text_of};
ghost use Rattle.pnml_write.specs.Canon.{arc_tree, canonical_text, declaration_trees, declared_trees, kind_text, named_sort_tree, net_tree, node_trees, page_tree, partition_tree, place_tree, reference_tree, transition_tree, variable_tree};

use crate::elements::{around, holder};
use crate::nodes::{
    named_sort_tree, partition_tree, put_arc, put_place, put_transition, reference_tree,
    variable_tree,
};
use doc_model::{Element, TextWriter};
use net_elements::{Role, word_of};
use net_model::{Arc, Kind, NamedSort, Net, Partition, Place, Reference, Transition, VariableDecl};
use sqlite_items::Items;
use std::alloc::Global;
use wide_sums::Memory;

/// The canonical text of a net, which is one that a tree can give.
pub fn write_net(alloc: Global, net: &Net) -> Result<Vec<u8>, Memory>
    ensures { IfOk result (λ text. text.items ≡ canonical_text net.now) }
{
    let mut writer = TextWriter::new(alloc);
    writer.first_line()?;
    writer.start(word_of(Role::Pnml))?;
    writer.attribute(b"xmlns", b"http://www.pnml.org/version-2009/grammar/pnml")?;
    writer.end_start()?;
    put_net(alloc, &mut writer, net)?;
    writer.end(word_of(Role::Pnml))?;
    Ok(writer.into_bytes())
}

fn kind_text(kind: Kind) -> &'static [u8]
    ensures { result.now ≡ kind_text kind }
{
    match kind {
        Kind::Pt => b"http://www.pnml.org/version-2009/grammar/ptnet",
        Kind::Symmetric => b"http://www.pnml.org/version-2009/grammar/symmetricnet",
    }
}

fn put_net(alloc: Global, writer: &mut TextWriter, net: &Net) -> Result<(), Memory>
    ensures { OnOk result (writer.new ≡ writer.old ++ text_of (net_tree net.now)) }
{
    writer.start(word_of(Role::Net))?;
    writer.attribute(b"id", net.id.bytes())?;
    writer.attribute(b"type", kind_text(net.kind))?;
    writer.end_start()?;
    put_declarations(alloc, writer, net)?;
    put_page(alloc, writer, net)?;
    writer.end(word_of(Role::Net))?;
    Ok(())
}

fn put_declarations(alloc: Global, writer: &mut TextWriter, net: &Net) -> Result<(), Memory>
    ensures { OnOk result (writer.new ≡ writer.old ++ flat_map text_of (declaration_trees (declared_trees net.now))) }
{
    let trees = declared_trees(alloc, net)?;
    if trees.as_slice().is_empty() {
        return Ok(());
    }
    let list = holder(alloc, Role::Declarations, trees)?;
    let structure = around(alloc, Role::DeclarationStructure, list)?;
    writer.element(&around(alloc, Role::Declaration, structure)?)
}

fn declared_trees(alloc: Global, net: &Net) -> Result<Items<Element>, Memory>
    ensures { IfOk result (λ trees. trees ≡ declared_trees net.now) }
{
    let mut trees = Items::new(alloc);
    add_sorts(alloc, &mut trees, net.sorts.as_slice())?;
    add_partitions(alloc, &mut trees, net.partitions.as_slice())?;
    add_variables(alloc, &mut trees, net.variables.as_slice())?;
    Ok(trees)
}

fn add_sorts(alloc: Global, trees: &mut Items<Element>, sorts: &[NamedSort]) -> Result<(), Memory>
    ensures { OnOk result (trees.new ≡ trees.old ++ map named_sort_tree sorts.now) }
{
    for sort in sorts {
        trees.push(named_sort_tree(alloc, sort)?)?;
    }
    Ok(())
}

fn add_partitions(
    alloc: Global,
    trees: &mut Items<Element>,
    partitions: &[Partition],
) -> Result<(), Memory>
    ensures { OnOk result (trees.new ≡ trees.old ++ map partition_tree partitions.now) }
{
    for partition in partitions {
        trees.push(partition_tree(alloc, partition)?)?;
    }
    Ok(())
}

fn add_variables(
    alloc: Global,
    trees: &mut Items<Element>,
    variables: &[VariableDecl],
) -> Result<(), Memory>
    ensures { OnOk result (trees.new ≡ trees.old ++ map variable_tree variables.now) }
{
    for variable in variables {
        trees.push(variable_tree(alloc, variable)?)?;
    }
    Ok(())
}

fn has_nodes(net: &Net) -> bool
    ensures { MatchBool result (0 < length (node_trees net.now)) (node_trees net.now ≡ []) }
{
    !(net.places.as_slice().is_empty()
        && net.transitions.as_slice().is_empty()
        && net.references.as_slice().is_empty()
        && net.arcs.as_slice().is_empty())
}

fn put_page(alloc: Global, writer: &mut TextWriter, net: &Net) -> Result<(), Memory>
    ensures { OnOk result (writer.new ≡ writer.old ++ text_of (page_tree net.now)) }
{
    writer.start(word_of(Role::Page))?;
    writer.attribute(b"id", b"page")?;
    if !has_nodes(net) {
        writer.end_empty()?;
        return Ok(());
    }
    writer.end_start()?;
    put_nodes(alloc, writer, net)?;
    writer.end(word_of(Role::Page))?;
    Ok(())
}

fn put_nodes(alloc: Global, writer: &mut TextWriter, net: &Net) -> Result<(), Memory>
    ensures { OnOk result (writer.new ≡ writer.old ++ flat_map text_of (node_trees net.now)) }
{
    put_places(alloc, writer, net.kind, net.places.as_slice())?;
    put_transitions(alloc, writer, net.transitions.as_slice())?;
    put_references(alloc, writer, net.references.as_slice())?;
    put_arcs(alloc, writer, net.arcs.as_slice())?;
    Ok(())
}

fn put_places(
    alloc: Global,
    writer: &mut TextWriter,
    kind: Kind,
    places: &[Place],
) -> Result<(), Memory>
    ensures { OnOk result (writer.new ≡ writer.old ++ flat_map text_of (map (place_tree kind) places.now)) }
{
    for place in places {
        put_place(alloc, writer, kind, place)?;
    }
    Ok(())
}

fn put_transitions(
    alloc: Global,
    writer: &mut TextWriter,
    transitions: &[Transition],
) -> Result<(), Memory>
    ensures { OnOk result (writer.new ≡ writer.old ++ flat_map text_of (map transition_tree transitions.now)) }
{
    for transition in transitions {
        put_transition(alloc, writer, transition)?;
    }
    Ok(())
}

fn put_references(
    alloc: Global,
    writer: &mut TextWriter,
    references: &[Reference],
) -> Result<(), Memory>
    ensures { OnOk result (writer.new ≡ writer.old ++ flat_map text_of (map reference_tree references.now)) }
{
    for reference in references {
        writer.element(&reference_tree(alloc, reference)?)?;
    }
    Ok(())
}

fn put_arcs(alloc: Global, writer: &mut TextWriter, arcs: &[Arc]) -> Result<(), Memory>
    ensures { OnOk result (writer.new ≡ writer.old ++ flat_map text_of (map arc_tree arcs.now)) }
{
    for arc in arcs {
        put_arc(alloc, writer, arc)?;
    }
    Ok(())
}
