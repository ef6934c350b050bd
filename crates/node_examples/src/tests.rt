use doc_tree::read_pieces;
use net_nodes::{End, Node, NodeFault, NodeTable, ReferenceFault};
use pnml_read::read_net;
use std::alloc::Global;
use std::test::Fail;

/// The places `p` and `q`, the transition `t`, and the arc `a`.
const BEFORE: &[u8] = b"\
<pnml><net id='n' type='http://www.pnml.org/version-2009/grammar/ptnet'><page id='n'>\
<place id='p'/><place id='q'/><transition id='t'/><arc id='a' source='p' target='t'/>";

const BEHIND: &[u8] = b"</page></net></pnml>";

/// The nodes of the net that has these references as well; nothing where they make no net.
fn nodes(alloc: Global, references: &[u8]) -> Result<Option<Result<NodeTable, NodeFault>>, Fail> {
    let mut text = Vec::from_slice(alloc, BEFORE)?;
    text.extend_from_slice(references)?;
    text.extend_from_slice(BEHIND)?;
    if text.len() > 1_000_000_000 {
        return Ok(None);
    }
    let Ok(root) = read_pieces(alloc, &[text.as_slice()]) else {
        return Ok(None);
    };
    match read_net(alloc, root) {
        Ok(net) => Ok(Some(NodeTable::of(alloc, &net))),
        Err(_) => Ok(None),
    }
}

/// Whether an id names this node and leads to this end, where no reference is broken.
fn leads(
    alloc: Global,
    references: &[u8],
    id: &[u8],
    node: Option<Node>,
    end: Option<End>,
) -> Result<bool, Fail> {
    match nodes(alloc, references)? {
        Some(Ok(table)) => Ok(table.find(id) == node && table.end(id) == end),
        _ => Ok(false),
    }
}

/// Whether the reference of this number is the first broken one, for this cause.
fn is_refused(
    alloc: Global,
    references: &[u8],
    reference: u32,
    fault: ReferenceFault,
) -> Result<bool, Fail> {
    match nodes(alloc, references)? {
        Some(Err(refused)) => Ok(refused == NodeFault::Broken { reference, fault }),
        _ => Ok(false),
    }
}

/// Adds a reference to a place.
fn append(text: &mut Vec<u8>, id: &[u8], target: &[u8]) -> Result<(), Fail> {
    text.extend_from_slice(b"<referencePlace id='")?;
    text.extend_from_slice(id)?;
    text.extend_from_slice(b"' ref='")?;
    text.extend_from_slice(target)?;
    text.extend_from_slice(b"'/>")?;
    Ok(())
}

/// References from `r0` on, each of which leads to the next one, and the last to the node of this id.
fn forwards(alloc: Global, count: u32, last: &[u8]) -> Result<Vec<u8>, Fail> {
    let mut text = Vec::new(alloc);
    let mut id = format!(in alloc; "r0")?;
    for at in 1..count {
        let next = format!(in alloc; "r{at}")?;
        append(&mut text, id.as_bytes(), next.as_bytes())?;
        id = next;
    }
    append(&mut text, id.as_bytes(), last)?;
    Ok(text)
}

/// References from `r0` on, each of which leads to the one before, and the first to the node of this id.
fn backwards(alloc: Global, count: u32, last: &[u8]) -> Result<Vec<u8>, Fail> {
    let mut text = Vec::new(alloc);
    append(&mut text, b"r0", last)?;
    for at in 1..count {
        let before = at - 1;
        let id = format!(in alloc; "r{at}")?;
        let target = format!(in alloc; "r{before}")?;
        append(&mut text, id.as_bytes(), target.as_bytes())?;
    }
    Ok(text)
}

#[test]
fn an_id_names_its_node_and_no_arc(rt: HostRuntime) -> Result<(), Fail> {
    let alloc = rt.alloc();
    let references = b"<referenceTransition id='u' ref='t'/><referencePlace id='r' ref='q'/>";
    assert!(rt;
        leads(
            alloc,
            references,
            b"p",
            Some(Node::Place(0)),
            Some(End::Place(0))
        )?
    );
    assert!(rt;
        leads(
            alloc,
            references,
            b"q",
            Some(Node::Place(1)),
            Some(End::Place(1))
        )?
    );
    assert!(rt;
        leads(
            alloc,
            references,
            b"t",
            Some(Node::Transition(0)),
            Some(End::Transition(0))
        )?
    );
    assert!(rt;
        leads(
            alloc,
            references,
            b"u",
            Some(Node::Reference(0)),
            Some(End::Transition(0))
        )?
    );
    assert!(rt;
        leads(
            alloc,
            references,
            b"r",
            Some(Node::Reference(1)),
            Some(End::Place(1))
        )?
    );
    assert!(rt; leads(alloc, references, b"a", None, None)?);
    assert!(rt; leads(alloc, references, b"n", None, None)?);
    Ok(())
}

#[test]
fn a_reference_has_its_end_by_its_number(rt: HostRuntime) -> Result<(), Fail> {
    let references =
        b"<referencePlace id='x' ref='y'/><referenceTransition id='u' ref='t'/><referencePlace id='y' ref='q'/>";
    let found = match nodes(rt.alloc(), references)? {
        Some(Ok(table)) => match (table.find(b"x"), table.find(b"u")) {
            (Some(Node::Reference(x)), Some(Node::Reference(u))) => {
                x < table.references()
                    && u < table.references()
                    && table.end_of(x) == End::Place(1)
                    && table.end_of(u) == End::Transition(0)
            }
            _ => false,
        },
        _ => false,
    };
    assert!(rt; found);
    Ok(())
}

#[test]
fn the_first_broken_reference_is_named(rt: HostRuntime) -> Result<(), Fail> {
    let alloc = rt.alloc();
    let unknown =
        b"<referencePlace id='x' ref='p'/><referencePlace id='y' ref='z'/><referencePlace id='z' ref='b'/>";
    assert!(rt; is_refused(alloc, unknown, 1, ReferenceFault::UnknownNode)?);
    let arc = b"<referenceTransition id='x' ref='a'/>";
    assert!(rt; is_refused(alloc, arc, 0, ReferenceFault::UnknownNode)?);
    let itself = b"<referencePlace id='x' ref='x'/>";
    assert!(rt; is_refused(alloc, itself, 0, ReferenceFault::Circle)?);
    let behind =
        b"<referencePlace id='x' ref='y'/><referencePlace id='y' ref='z'/><referencePlace id='z' ref='y'/>";
    assert!(rt; is_refused(alloc, behind, 0, ReferenceFault::Circle)?);
    Ok(())
}

#[test]
fn a_node_of_the_other_kind_is_met_before_what_lies_behind_it(rt: HostRuntime) -> Result<(), Fail> {
    let alloc = rt.alloc();
    let place = b"<referencePlace id='x' ref='t'/>";
    assert!(rt; is_refused(alloc, place, 0, ReferenceFault::OtherKind)?);
    let transition = b"<referenceTransition id='x' ref='q'/>";
    assert!(rt; is_refused(alloc, transition, 0, ReferenceFault::OtherKind)?);
    let before_unknown = b"<referencePlace id='x' ref='y'/><referenceTransition id='y' ref='b'/>";
    assert!(rt; is_refused(alloc, before_unknown, 0, ReferenceFault::OtherKind)?);
    let before_circle = b"<referencePlace id='x' ref='y'/><referenceTransition id='y' ref='x'/>";
    assert!(rt; is_refused(alloc, before_circle, 0, ReferenceFault::OtherKind)?);
    let behind_known = b"<referenceTransition id='x' ref='t'/><referencePlace id='y' ref='x'/>";
    assert!(rt; is_refused(alloc, behind_known, 1, ReferenceFault::OtherKind)?);
    Ok(())
}

#[test]
fn chains_lead_to_their_ends_in_either_direction(rt: HostRuntime) -> Result<(), Fail> {
    let alloc = rt.alloc();
    let chain = forwards(alloc, 1_000, b"q")?;
    assert!(rt;
        leads(
            alloc,
            &chain,
            b"r500",
            Some(Node::Reference(500)),
            Some(End::Place(1))
        )?
    );
    let chain = backwards(alloc, 1_000, b"p")?;
    assert!(rt;
        leads(
            alloc,
            &chain,
            b"r999",
            Some(Node::Reference(999)),
            Some(End::Place(0))
        )?
    );
    Ok(())
}

#[test]
fn chains_that_lead_nowhere_are_refused(rt: HostRuntime) -> Result<(), Fail> {
    let alloc = rt.alloc();
    assert!(rt;
        is_refused(
            alloc,
            &forwards(alloc, 1_000, b"b")?,
            0,
            ReferenceFault::UnknownNode
        )?
    );
    assert!(rt;
        is_refused(
            alloc,
            &backwards(alloc, 1_000, b"t")?,
            0,
            ReferenceFault::OtherKind
        )?
    );
    assert!(rt;
        is_refused(
            alloc,
            &forwards(alloc, 1_000, b"r999")?,
            0,
            ReferenceFault::Circle
        )?
    );
    assert!(rt;
        is_refused(
            alloc,
            &backwards(alloc, 1_000, b"r999")?,
            0,
            ReferenceFault::Circle
        )?
    );
    Ok(())
}

#[test]
fn a_long_chain_ends(rt: HostRuntime) -> Result<(), Fail> {
    let alloc = rt.alloc();
    let chain = forwards(alloc, 100_000, b"q")?;
    assert!(rt;
        leads(
            alloc,
            &chain,
            b"r0",
            Some(Node::Reference(0)),
            Some(End::Place(1))
        )?
    );
    Ok(())
}

#[test]
fn a_long_circle_is_refused(rt: HostRuntime) -> Result<(), Fail> {
    let alloc = rt.alloc();
    assert!(rt;
        is_refused(
            alloc,
            &forwards(alloc, 100_000, b"r1")?,
            0,
            ReferenceFault::Circle
        )?
    );
    Ok(())
}
