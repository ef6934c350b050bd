ghost use Rattle.std.specs.Prelude.{◌≡◌, ◌++◌, ◌<◌, [], MatchBool, OnOk, codes, flat_map, length};
ghost use Rattle.plain_text.specs.Markup.{attribute, empty_element, parent_element};
ghost use Rattle.plain_text.specs.NetParts.{arc_attributes, arc_text, id_attribute, inscription_text, marking_text, net_element, nodes_text, page_text, place_text, source_attribute, target_attribute, transition_text};
ghost use Rattle.plain_text.specs.Nets.{net_text};

use crate::comparison::{Comparison, Differs};
use name_tables::Name;
use plain_model::{Arc, Place, PlainNet};

/// Appends the canonical text of the net.
pub fn put_net(comparison: &mut Comparison<'_>, net: &PlainNet) -> Result<(), Differs>
    ensures { OnOk result (comparison.new ≡ comparison.old ++ net_text net.now) }
{
    comparison.put(
        b"<?xml version=\"1.0\" encoding=\"UTF-8\"?>\n<pnml xmlns=\"http://www.pnml.org/version-2009/grammar/pnml\">\n",
    )?;
    put_net_element(comparison, net)?;
    comparison.put(b"</pnml>\n")?;
    Ok(())
}

#[tactic(auto, unfolding(crate::specs::NetParts::net_element))]
fn put_net_element(comparison: &mut Comparison<'_>, net: &PlainNet) -> Result<(), Differs>
    ensures { OnOk result (comparison.new ≡ comparison.old ++ net_element net.now) }
{
    comparison.put(b"<net")?;
    put_id(comparison, &net.id)?;
    comparison.put(b" type=\"http://www.pnml.org/version-2009/grammar/ptnet\"")?;
    comparison.put(b">\n")?;
    put_page(comparison, net)?;
    comparison.put(b"</net>\n")?;
    Ok(())
}

fn put_page(comparison: &mut Comparison<'_>, net: &PlainNet) -> Result<(), Differs>
    ensures { OnOk result (comparison.new ≡ comparison.old ++ page_text (nodes_text net.now)) }
{
    if has_nodes(net) {
        put_full_page(comparison, net)
    } else {
        comparison.put(b"<page id=\"page\"/>\n")
    }
}

fn has_nodes(net: &PlainNet) -> bool
    ensures { MatchBool result (0 < length (nodes_text net.now)) (nodes_text net.now ≡ []) }
{
    if !net.places.is_empty() {
        return true;
    }
    if !net.transitions.is_empty() {
        return true;
    }
    !net.arcs.is_empty()
}

fn put_full_page(comparison: &mut Comparison<'_>, net: &PlainNet) -> Result<(), Differs>
    ensures { OnOk result (comparison.new ≡ comparison.old ++ parent_element (codes "page") (attribute (codes "id") (codes "page")) (nodes_text net.now)) }
{
    comparison.put(b"<page id=\"page\">\n")?;
    put_nodes(comparison, net)?;
    comparison.put(b"</page>\n")?;
    Ok(())
}

#[tactic(auto, unfolding(crate::specs::NetParts::nodes_text))]
fn put_nodes(comparison: &mut Comparison<'_>, net: &PlainNet) -> Result<(), Differs>
    ensures { OnOk result (comparison.new ≡ comparison.old ++ nodes_text net.now) }
{
    put_places(comparison, net.places.as_slice())?;
    put_transitions(comparison, net.transitions.as_slice())?;
    put_arcs(comparison, net.arcs.as_slice())?;
    Ok(())
}

#[tactic(auto, unfolding(crate::specs::NetParts::id_attribute))]
fn put_id(comparison: &mut Comparison<'_>, id: &Name) -> Result<(), Differs>
    ensures { OnOk result (comparison.new ≡ comparison.old ++ id_attribute id.now) }
{
    comparison.put(b" id=\"")?;
    comparison.put_escaped(id.bytes())?;
    comparison.put(b"\"")?;
    Ok(())
}

fn put_places(comparison: &mut Comparison<'_>, places: &[Place]) -> Result<(), Differs>
    ensures { OnOk result (comparison.new ≡ comparison.old ++ flat_map place_text places.now) }
{
    for place in places {
        put_place(comparison, place)?;
    }
    Ok(())
}

#[tactic(auto, unfolding(crate::specs::NetParts::place_text))]
fn put_place(comparison: &mut Comparison<'_>, place: &Place) -> Result<(), Differs>
    ensures { OnOk result (comparison.new ≡ comparison.old ++ place_text place.now) }
{
    if place.marking == 0 {
        put_unmarked_place(comparison, &place.id)
    } else {
        put_marked_place(comparison, place)
    }
}

fn put_unmarked_place(comparison: &mut Comparison<'_>, id: &Name) -> Result<(), Differs>
    ensures { OnOk result (comparison.new ≡ comparison.old ++ empty_element (codes "place") (id_attribute id.now)) }
{
    comparison.put(b"<place")?;
    put_id(comparison, id)?;
    comparison.put(b"/>\n")?;
    Ok(())
}

fn put_marked_place(comparison: &mut Comparison<'_>, place: &Place) -> Result<(), Differs>
    ensures { OnOk result (comparison.new ≡ comparison.old
        ++ parent_element (codes "place") (id_attribute place.now.id) (marking_text place.now.marking)) }
{
    comparison.put(b"<place")?;
    put_id(comparison, &place.id)?;
    comparison.put(b">\n")?;
    put_marking(comparison, place.marking)?;
    comparison.put(b"</place>\n")?;
    Ok(())
}

#[tactic(auto, unfolding(crate::specs::NetParts::marking_text))]
fn put_marking(comparison: &mut Comparison<'_>, marking: u64) -> Result<(), Differs>
    ensures { OnOk result (comparison.new ≡ comparison.old ++ marking_text marking) }
{
    comparison.put(b"<initialMarking>\n")?;
    comparison.put_number_leaf(b"text", marking)?;
    comparison.put(b"</initialMarking>\n")?;
    Ok(())
}

fn put_transitions(comparison: &mut Comparison<'_>, transitions: &[Name]) -> Result<(), Differs>
    ensures { OnOk result (comparison.new ≡ comparison.old ++ flat_map transition_text transitions.now) }
{
    for transition in transitions {
        put_transition(comparison, transition)?;
    }
    Ok(())
}

#[tactic(auto, unfolding(crate::specs::NetParts::transition_text))]
fn put_transition(comparison: &mut Comparison<'_>, id: &Name) -> Result<(), Differs>
    ensures { OnOk result (comparison.new ≡ comparison.old ++ transition_text id.now) }
{
    comparison.put(b"<transition")?;
    put_id(comparison, id)?;
    comparison.put(b"/>\n")?;
    Ok(())
}

fn put_arcs(comparison: &mut Comparison<'_>, arcs: &[Arc]) -> Result<(), Differs>
    ensures { OnOk result (comparison.new ≡ comparison.old ++ flat_map arc_text arcs.now) }
{
    for arc in arcs {
        put_arc(comparison, arc)?;
    }
    Ok(())
}

#[tactic(auto, unfolding(crate::specs::NetParts::arc_text))]
fn put_arc(comparison: &mut Comparison<'_>, arc: &Arc) -> Result<(), Differs>
    ensures { OnOk result (comparison.new ≡ comparison.old ++ arc_text arc.now) }
{
    if arc.weight == 1 {
        put_plain_arc(comparison, arc)
    } else {
        put_inscribed_arc(comparison, arc)
    }
}

fn put_plain_arc(comparison: &mut Comparison<'_>, arc: &Arc) -> Result<(), Differs>
    ensures { OnOk result (comparison.new ≡ comparison.old ++ empty_element (codes "arc") (arc_attributes arc.now)) }
{
    comparison.put(b"<arc")?;
    put_arc_attributes(comparison, arc)?;
    comparison.put(b"/>\n")?;
    Ok(())
}

fn put_inscribed_arc(comparison: &mut Comparison<'_>, arc: &Arc) -> Result<(), Differs>
    ensures { OnOk result (comparison.new ≡ comparison.old
        ++ parent_element (codes "arc") (arc_attributes arc.now) (inscription_text arc.now.weight)) }
{
    comparison.put(b"<arc")?;
    put_arc_attributes(comparison, arc)?;
    comparison.put(b">\n")?;
    put_inscription(comparison, arc.weight)?;
    comparison.put(b"</arc>\n")?;
    Ok(())
}

#[tactic(auto, unfolding(crate::specs::NetParts::inscription_text))]
fn put_inscription(comparison: &mut Comparison<'_>, weight: u64) -> Result<(), Differs>
    ensures { OnOk result (comparison.new ≡ comparison.old ++ inscription_text weight) }
{
    comparison.put(b"<inscription>\n")?;
    comparison.put_number_leaf(b"text", weight)?;
    comparison.put(b"</inscription>\n")?;
    Ok(())
}

#[tactic(auto, unfolding(crate::specs::NetParts::arc_attributes))]
fn put_arc_attributes(comparison: &mut Comparison<'_>, arc: &Arc) -> Result<(), Differs>
    ensures { OnOk result (comparison.new ≡ comparison.old ++ arc_attributes arc.now) }
{
    put_id(comparison, &arc.id)?;
    put_source(comparison, &arc.source)?;
    put_target(comparison, &arc.target)?;
    Ok(())
}

#[tactic(auto, unfolding(crate::specs::NetParts::source_attribute))]
fn put_source(comparison: &mut Comparison<'_>, source: &Name) -> Result<(), Differs>
    ensures { OnOk result (comparison.new ≡ comparison.old ++ source_attribute source.now) }
{
    comparison.put(b" source=\"")?;
    comparison.put_escaped(source.bytes())?;
    comparison.put(b"\"")?;
    Ok(())
}

#[tactic(auto, unfolding(crate::specs::NetParts::target_attribute))]
fn put_target(comparison: &mut Comparison<'_>, target: &Name) -> Result<(), Differs>
    ensures { OnOk result (comparison.new ≡ comparison.old ++ target_attribute target.now) }
{
    comparison.put(b" target=\"")?;
    comparison.put_escaped(target.bytes())?;
    comparison.put(b"\"")?;
    Ok(())
}
