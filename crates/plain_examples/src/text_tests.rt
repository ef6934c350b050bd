use plain_model::{Count, Multiplier};
use plain_text::{TextFault, read_certificate, read_net, read_property};
use std::alloc::Global;
use std::test::Fail;

fn ring_net() -> &'static [u8] {
    b"<?xml version=\"1.0\" encoding=\"UTF-8\"?>\n<pnml xmlns=\"http://www.pnml.org/version-2009/grammar/pnml\">\n<net id=\"n\" type=\"http://www.pnml.org/version-2009/grammar/ptnet\">\n<page id=\"page\">\n<place id=\"p0\">\n<initialMarking>\n<text>1</text>\n</initialMarking>\n</place>\n<place id=\"p1\"/>\n<transition id=\"t\"/>\n<transition id=\"u\"/>\n<arc id=\"a1\" source=\"p0\" target=\"t\"/>\n<arc id=\"a2\" source=\"t\" target=\"p1\"/>\n<arc id=\"a3\" source=\"p1\" target=\"u\"/>\n<arc id=\"a4\" source=\"u\" target=\"p0\"/>\n</page>\n</net>\n</pnml>\n"
}

fn ring_property() -> &'static [u8] {
    b"<?xml version=\"1.0\" encoding=\"UTF-8\"?>\n<property-set>\n<property>\n<id>P</id>\n<formula>\n<all-paths>\n<globally>\n<integer-le>\n<tokens-count>\n<place>p0</place>\n<place>p1</place>\n</tokens-count>\n<integer-constant>1</integer-constant>\n</integer-le>\n</globally>\n</all-paths>\n</formula>\n</property>\n</property-set>\n"
}

fn ring_certificate() -> &'static [u8] {
    b"certificate 1\nproperty P\nflow f 1*p0 1*p1\nproof\nclose 1*@1 -1*f\nend\n"
}

fn inscribed_text() -> &'static [u8] {
    b"<?xml version=\"1.0\" encoding=\"UTF-8\"?>\n<pnml xmlns=\"http://www.pnml.org/version-2009/grammar/pnml\">\n<net id=\"n\" type=\"http://www.pnml.org/version-2009/grammar/ptnet\">\n<page id=\"page\">\n<place id=\"p\">\n<initialMarking>\n<text>9223372036854775807</text>\n</initialMarking>\n</place>\n<transition id=\"t\"/>\n<arc id=\"a\" source=\"p\" target=\"t\">\n<inscription>\n<text>20</text>\n</inscription>\n</arc>\n</page>\n</net>\n</pnml>\n"
}

fn empty_text() -> &'static [u8] {
    b"<?xml version=\"1.0\" encoding=\"UTF-8\"?>\n<pnml xmlns=\"http://www.pnml.org/version-2009/grammar/pnml\">\n<net id=\"n\" type=\"http://www.pnml.org/version-2009/grammar/ptnet\">\n<page id=\"page\"/>\n</net>\n</pnml>\n"
}

fn turned_round() -> &'static [u8] {
    b"<?xml version=\"1.0\" encoding=\"UTF-8\"?>\n<pnml xmlns=\"http://www.pnml.org/version-2009/grammar/pnml\">\n<net id=\"n\" type=\"http://www.pnml.org/version-2009/grammar/ptnet\">\n<page id=\"page\">\n<place id=\"p\"/>\n<transition id=\"t\"/>\n<arc id=\"a\" target=\"t\" source=\"p\"/>\n</page>\n</net>\n</pnml>\n"
}

fn written_marking_of_none() -> &'static [u8] {
    b"<?xml version=\"1.0\" encoding=\"UTF-8\"?>\n<pnml xmlns=\"http://www.pnml.org/version-2009/grammar/pnml\">\n<net id=\"n\" type=\"http://www.pnml.org/version-2009/grammar/ptnet\">\n<page id=\"page\">\n<place id=\"p\">\n<initialMarking>\n<text>0</text>\n</initialMarking>\n</place>\n</page>\n</net>\n</pnml>\n"
}

#[test]
fn the_ring_is_read(rt: HostRuntime) -> Result<(), Fail> {
    let net = read_net(rt.alloc(), ring_net())?;
    assert_eq!(rt; net.id.bytes(), b"n".as_slice());
    assert_eq!(rt; net.places.len(), 2);
    assert_eq!(rt; net.transitions.len(), 2);
    assert_eq!(rt; net.arcs.len(), 4);
    assert_eq!(rt; net.places.as_slice()[0].marking, 1);
    assert_eq!(rt; net.places.as_slice()[1].marking, 0);
    assert_eq!(rt; net.arcs.as_slice()[3].source.bytes(), b"u".as_slice());
    assert_eq!(rt; net.arcs.as_slice()[3].target.bytes(), b"p0".as_slice());
    assert_eq!(rt; net.arcs.as_slice()[3].weight, 1);
    Ok(())
}

#[test]
fn a_property_is_read(rt: HostRuntime) -> Result<(), Fail> {
    let property = read_property(rt.alloc(), ring_property())?;
    assert_eq!(rt; property.id.bytes(), b"P".as_slice());
    assert!(rt; matches!(&property.left, Count::Tokens(places) if places.len() == 2));
    assert!(rt; matches!(&property.right, Count::Number(1)));
    Ok(())
}

#[test]
fn a_certificate_is_read(rt: HostRuntime) -> Result<(), Fail> {
    let certificate = read_certificate(rt.alloc(), ring_certificate())?;
    assert_eq!(rt; certificate.flows.len(), 1);
    assert_eq!(rt; certificate.flows.as_slice()[0].weights.len(), 2);
    assert_eq!(rt; certificate.close.len(), 2);
    assert!(rt;
        matches!(
            &certificate.close.as_slice()[0],
            Multiplier::Hypothesis {
                value: 1,
                number: 1
            }
        )
    );
    Ok(())
}

#[test]
fn markings_and_inscriptions_are_read(rt: HostRuntime) -> Result<(), Fail> {
    let net = read_net(rt.alloc(), inscribed_text())?;
    assert_eq!(rt; net.places.len(), 1);
    assert_eq!(rt; net.places.as_slice()[0].marking, 9_223_372_036_854_775_807);
    assert!(rt; net.arcs.as_slice().iter().any(|arc| arc.weight > 1));
    Ok(())
}

#[test]
fn a_net_without_nodes_has_an_empty_page(rt: HostRuntime) -> Result<(), Fail> {
    let net = read_net(rt.alloc(), empty_text())?;
    assert!(rt; net.places.is_empty());
    assert!(rt; net.transitions.is_empty());
    assert!(rt; net.arcs.is_empty());
    Ok(())
}

fn fault_of(alloc: Global, net: &[u8]) -> Option<TextFault> {
    read_net(alloc, net).err()
}

#[test]
fn other_spellings_of_a_net_are_not_read(rt: HostRuntime) -> Result<(), Fail> {
    let mut shifted = Vec::from_slice(rt.alloc(), b" ")?;
    shifted.extend_from_slice(ring_net())?;
    assert_eq!(rt;
        fault_of(rt.alloc(), shifted.as_slice()),
        Some(TextFault::NotYet)
    );
    assert_eq!(rt;
        fault_of(rt.alloc(), turned_round()),
        Some(TextFault::NotYet)
    );
    assert_eq!(rt;
        fault_of(rt.alloc(), written_marking_of_none()),
        Some(TextFault::NotYet)
    );
    assert_eq!(rt; fault_of(rt.alloc(), b""), Some(TextFault::NotYet));
    Ok(())
}

#[test]
fn other_spellings_of_a_certificate_are_not_read(rt: HostRuntime) -> Result<(), Fail> {
    let doubled_space = b"certificate 1\nproperty P\nproof\nclose 1*@1  -1*f\nend\n";
    assert_eq!(rt;
        read_certificate(rt.alloc(), doubled_space).err(),
        Some(TextFault::NotYet)
    );
    let leading_zero = b"certificate 1\nproperty P\nproof\nclose 01*@1\nend\n";
    assert_eq!(rt;
        read_certificate(rt.alloc(), leading_zero).err(),
        Some(TextFault::NotYet)
    );
    Ok(())
}

#[test]
fn a_property_needs_an_id(rt: HostRuntime) {
    let nameless =
        b"<?xml version=\"1.0\" encoding=\"UTF-8\"?>\n<property-set>\n<property>\n<id></id>\n";
    assert_eq!(rt;
        read_property(rt.alloc(), nameless).err(),
        Some(TextFault::NotYet)
    );
}
