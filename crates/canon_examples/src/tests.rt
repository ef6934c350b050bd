use doc_tree::read_pieces;
use pnml_read::read_net;
use pnml_write::write_net;
use std::alloc::Global;
use std::test::Fail;

/// The canonical text of the net of a document; nothing where there is none.
fn canonised(alloc: Global, text: &[u8]) -> Option<Vec<u8>> {
    if text.len() > 1_000_000 {
        return None;
    }
    let Ok(root) = read_pieces(alloc, &[text]) else {
        return None;
    };
    let Ok(net) = read_net(alloc, root) else {
        return None;
    };
    match write_net(alloc, &net) {
        Ok(text) => Some(text),
        Err(_) => None,
    }
}

fn is_canonised_as(alloc: Global, text: &[u8], wanted: &[u8]) -> bool {
    match canonised(alloc, text) {
        Some(found) => found.as_slice() == wanted,
        None => false,
    }
}

const RING: &[u8] = b"\
<?xml version=\"1.0\" encoding=\"UTF-8\"?>
<pnml xmlns=\"http://www.pnml.org/version-2009/grammar/pnml\">
<net id=\"n\" type=\"http://www.pnml.org/version-2009/grammar/ptnet\">
<page id=\"page\">
<place id=\"p0\">
<initialMarking>
<text>1</text>
</initialMarking>
</place>
<place id=\"p1\"/>
<transition id=\"t\"/>
<referencePlace id=\"r\" ref=\"p1\"/>
<arc id=\"a1\" source=\"p0\" target=\"t\"/>
<arc id=\"a2\" source=\"t\" target=\"r\">
<inscription>
<text>2</text>
</inscription>
</arc>
</page>
</net>
</pnml>
";

const EMPTY: &[u8] = b"\
<?xml version=\"1.0\" encoding=\"UTF-8\"?>
<pnml xmlns=\"http://www.pnml.org/version-2009/grammar/pnml\">
<net id=\"n\" type=\"http://www.pnml.org/version-2009/grammar/ptnet\">
<page id=\"page\"/>
</net>
</pnml>
";

const PAGES: &[u8] = b"\
<pnml><net id='n' type='http://www.pnml.org/version-2009/grammar/ptnet'><name><text>x</text></name>
<page id='q'>
<place id='a'><initialMarking><text> 07 </text></initialMarking></place>
<page id='r'><transition id='t'/><place id='d'/></page>
<place id='b'><initialMarking><text>00</text></initialMarking></place>
</page>
<arc id='x' source='a' target='t'><inscription><graphics/><text>2</text></inscription></arc>
<arc id='y' source='t' target='p'><inscription><text>001</text></inscription></arc>
<referenceTransition id='u' ref='t'/>
<place id='c'><name/></place>
<referencePlace id='p' ref='b'/>
<page id='q'><arc id='z' source='c' target='u'><inscription><text>0</text></inscription></arc></page>
</net></pnml>";

const PAGES_CANONICAL: &[u8] = b"\
<?xml version=\"1.0\" encoding=\"UTF-8\"?>
<pnml xmlns=\"http://www.pnml.org/version-2009/grammar/pnml\">
<net id=\"n\" type=\"http://www.pnml.org/version-2009/grammar/ptnet\">
<page id=\"page\">
<place id=\"a\">
<initialMarking>
<text>7</text>
</initialMarking>
</place>
<place id=\"d\"/>
<place id=\"b\"/>
<place id=\"c\"/>
<transition id=\"t\"/>
<referenceTransition id=\"u\" ref=\"t\"/>
<referencePlace id=\"p\" ref=\"b\"/>
<arc id=\"x\" source=\"a\" target=\"t\">
<inscription>
<text>2</text>
</inscription>
</arc>
<arc id=\"y\" source=\"t\" target=\"p\"/>
<arc id=\"z\" source=\"c\" target=\"u\">
<inscription>
<text>0</text>
</inscription>
</arc>
</page>
</net>
</pnml>
";

const COLOURED: &[u8] = b"\
<pnml><net id='n' type='http://www.pnml.org/version-2009/grammar/symmetricnet'>
<page id='n'><place id='a'><hlinitialMarking><structure><numberof>
<subterm><numberconstant value='007'><positive/></numberconstant></subterm>
<graphics/><subterm><all><name/><usersort declaration='R'/></all></subterm></numberof></structure></hlinitialMarking>
<type><text>R</text><structure><usersort declaration='R'/></structure></type></place></page>
<declaration><structure><declarations>
<variabledecl id='x'><usersort declaration='R'/></variabledecl>
<partition id='P'>
<partitionelement id='low'>
<finiteintrangeconstant value='-0'><finiteintrange end='00' start='-1'/></finiteintrangeconstant>
<useroperator declaration='c'/><toolspecific/><dotconstant/>
</partitionelement>
<usersort declaration='R'/><partitionelement id='none'/></partition>
</declarations></structure></declaration>
<page id='m'><declaration><text>sorts</text><structure><declarations>
<variabledecl id='y'><dot/></variabledecl><namedsort id='R'><finiteintrange start='-01' end='-0'/></namedsort>
</declarations></structure></declaration></page>
<transition id='t'/><arc id='e' source='a' target='t'/></net></pnml>";

const COLOURED_CANONICAL: &[u8] = b"\
<?xml version=\"1.0\" encoding=\"UTF-8\"?>
<pnml xmlns=\"http://www.pnml.org/version-2009/grammar/pnml\">
<net id=\"n\" type=\"http://www.pnml.org/version-2009/grammar/symmetricnet\">
<declaration>
<structure>
<declarations>
<namedsort id=\"R\" name=\"R\">
<finiteintrange start=\"-1\" end=\"0\"/>
</namedsort>
<partition id=\"P\" name=\"P\">
<usersort declaration=\"R\"/>
<partitionelement id=\"low\" name=\"low\">
<finiteintrangeconstant value=\"0\">
<finiteintrange start=\"-1\" end=\"0\"/>
</finiteintrangeconstant>
<useroperator declaration=\"c\"/>
<dotconstant/>
</partitionelement>
<partitionelement id=\"none\" name=\"none\"/>
</partition>
<variabledecl id=\"x\" name=\"x\">
<usersort declaration=\"R\"/>
</variabledecl>
<variabledecl id=\"y\" name=\"y\">
<dot/>
</variabledecl>
</declarations>
</structure>
</declaration>
<page id=\"page\">
<place id=\"a\">
<type>
<structure>
<usersort declaration=\"R\"/>
</structure>
</type>
<hlinitialMarking>
<structure>
<numberof>
<subterm>
<numberconstant value=\"7\">
<natural/>
</numberconstant>
</subterm>
<subterm>
<all>
<usersort declaration=\"R\"/>
</all>
</subterm>
</numberof>
</structure>
</hlinitialMarking>
</place>
<transition id=\"t\"/>
<arc id=\"e\" source=\"a\" target=\"t\"/>
</page>
</net>
</pnml>
";

const PHILOSOPHERS: &[u8] = b"\
<?xml version=\"1.0\" encoding=\"UTF-8\"?>
<pnml xmlns=\"http://www.pnml.org/version-2009/grammar/pnml\">
<net id=\"phil-3\" type=\"http://www.pnml.org/version-2009/grammar/symmetricnet\">
<declaration>
<structure>
<declarations>
<namedsort id=\"Phil\" name=\"Phil\">
<cyclicenumeration>
<feconstant id=\"c1\" name=\"c1\"/>
<feconstant id=\"c2\" name=\"c2\"/>
<feconstant id=\"c3\" name=\"c3\"/>
</cyclicenumeration>
</namedsort>
<variabledecl id=\"x\" name=\"x\">
<usersort declaration=\"Phil\"/>
</variabledecl>
</declarations>
</structure>
</declaration>
<page id=\"page\">
<place id=\"Think\">
<type>
<structure>
<usersort declaration=\"Phil\"/>
</structure>
</type>
<hlinitialMarking>
<structure>
<all>
<usersort declaration=\"Phil\"/>
</all>
</structure>
</hlinitialMarking>
</place>
<place id=\"Fork\">
<type>
<structure>
<usersort declaration=\"Phil\"/>
</structure>
</type>
<hlinitialMarking>
<structure>
<all>
<usersort declaration=\"Phil\"/>
</all>
</structure>
</hlinitialMarking>
</place>
<place id=\"Eat\">
<type>
<structure>
<usersort declaration=\"Phil\"/>
</structure>
</type>
</place>
<transition id=\"take\"/>
<transition id=\"release\"/>
<arc id=\"a1\" source=\"Think\" target=\"take\">
<hlinscription>
<structure>
<variable refvariable=\"x\"/>
</structure>
</hlinscription>
</arc>
<arc id=\"a2\" source=\"Fork\" target=\"take\">
<hlinscription>
<structure>
<add>
<subterm>
<variable refvariable=\"x\"/>
</subterm>
<subterm>
<successor>
<subterm>
<variable refvariable=\"x\"/>
</subterm>
</successor>
</subterm>
</add>
</structure>
</hlinscription>
</arc>
<arc id=\"a3\" source=\"take\" target=\"Eat\">
<hlinscription>
<structure>
<variable refvariable=\"x\"/>
</structure>
</hlinscription>
</arc>
<arc id=\"a4\" source=\"Eat\" target=\"release\">
<hlinscription>
<structure>
<variable refvariable=\"x\"/>
</structure>
</hlinscription>
</arc>
<arc id=\"a5\" source=\"release\" target=\"Think\">
<hlinscription>
<structure>
<variable refvariable=\"x\"/>
</structure>
</hlinscription>
</arc>
<arc id=\"a6\" source=\"release\" target=\"Fork\">
<hlinscription>
<structure>
<add>
<subterm>
<variable refvariable=\"x\"/>
</subterm>
<subterm>
<successor>
<subterm>
<variable refvariable=\"x\"/>
</subterm>
</successor>
</subterm>
</add>
</structure>
</hlinscription>
</arc>
</page>
</net>
</pnml>
";

const PHILOSOPHERS_SHOWN: &[u8] = b"\
<?xml version=\"1.0\" encoding=\"UTF-8\"?>\r
  <pnml xmlns=\"http://www.pnml.org/version-2009/grammar/pnml\">\r
  <net id=\"phil-3\" type=\"http://www.pnml.org/version-2009/grammar/symmetricnet\">\r
  <name><text>Philosophers</text></name><toolspecific tool=\"editor\" version=\"1\"><x:size w=\"3\"/></toolspecific><declaration>\r
  <text>shown</text><structure>\r
  <declarations>\r
  <namedsort id=\"Phil\" name=\"Phil\">\r
  <cyclicenumeration>\r
  <feconstant id=\"c1\" name=\"c1\"/>\r
  <feconstant id=\"c2\" name=\"c2\"/>\r
  <feconstant id=\"c3\" name=\"c3\"/>\r
  </cyclicenumeration>\r
  </namedsort>\r
  <variabledecl id=\"x\" name=\"x\">\r
  <usersort declaration=\"Phil\"/>\r
  </variabledecl>\r
  </declarations>\r
  </structure>\r
  </declaration>\r
  <page id=\"page\">\r
  <place id=\"Think\">\r
  <name><text>node</text><graphics><offset x=\"0\" y=\"-10\"/></graphics></name><graphics><position x=\"10\" y=\"20\"/></graphics><type>\r
  <text>shown</text><structure>\r
  <usersort declaration=\"Phil\"/>\r
  </structure>\r
  </type>\r
  <hlinitialMarking>\r
  <text>shown</text><structure>\r
  <all>\r
  <usersort declaration=\"Phil\"/>\r
  </all>\r
  </structure>\r
  </hlinitialMarking>\r
  </place>\r
  <place id=\"Fork\">\r
  <name><text>node</text><graphics><offset x=\"0\" y=\"-10\"/></graphics></name><graphics><position x=\"10\" y=\"20\"/></graphics><type>\r
  <text>shown</text><structure>\r
  <usersort declaration=\"Phil\"/>\r
  </structure>\r
  </type>\r
  <hlinitialMarking>\r
  <text>shown</text><structure>\r
  <all>\r
  <usersort declaration=\"Phil\"/>\r
  </all>\r
  </structure>\r
  </hlinitialMarking>\r
  </place>\r
  <place id=\"Eat\">\r
  <name><text>node</text><graphics><offset x=\"0\" y=\"-10\"/></graphics></name><graphics><position x=\"10\" y=\"20\"/></graphics><type>\r
  <text>shown</text><structure>\r
  <usersort declaration=\"Phil\"/>\r
  </structure>\r
  </type>\r
  </place>\r
  <transition id=\"take\">\r
  <name><text>node</text><graphics><offset x=\"0\" y=\"-10\"/></graphics></name><graphics><position x=\"10\" y=\"20\"/></graphics></transition>\r
  <transition id=\"release\">\r
  <name><text>node</text><graphics><offset x=\"0\" y=\"-10\"/></graphics></name><graphics><position x=\"10\" y=\"20\"/></graphics></transition>\r
  <arc id=\"a1\" source=\"Think\" target=\"take\">\r
  <hlinscription>\r
  <text>shown</text><structure>\r
  <variable refvariable=\"x\"/>\r
  </structure>\r
  </hlinscription>\r
  </arc>\r
  <arc id=\"a2\" source=\"Fork\" target=\"take\">\r
  <hlinscription>\r
  <text>shown</text><structure>\r
  <add>\r
  <subterm>\r
  <variable refvariable=\"x\"/>\r
  </subterm>\r
  <subterm>\r
  <successor>\r
  <subterm>\r
  <variable refvariable=\"x\"/>\r
  </subterm>\r
  </successor>\r
  </subterm>\r
  </add>\r
  </structure>\r
  </hlinscription>\r
  </arc>\r
  <arc id=\"a3\" source=\"take\" target=\"Eat\">\r
  <hlinscription>\r
  <text>shown</text><structure>\r
  <variable refvariable=\"x\"/>\r
  </structure>\r
  </hlinscription>\r
  </arc>\r
  <arc id=\"a4\" source=\"Eat\" target=\"release\">\r
  <hlinscription>\r
  <text>shown</text><structure>\r
  <variable refvariable=\"x\"/>\r
  </structure>\r
  </hlinscription>\r
  </arc>\r
  <arc id=\"a5\" source=\"release\" target=\"Think\">\r
  <hlinscription>\r
  <text>shown</text><structure>\r
  <variable refvariable=\"x\"/>\r
  </structure>\r
  </hlinscription>\r
  </arc>\r
  <arc id=\"a6\" source=\"release\" target=\"Fork\">\r
  <hlinscription>\r
  <text>shown</text><structure>\r
  <add>\r
  <subterm>\r
  <variable refvariable=\"x\"/>\r
  </subterm>\r
  <subterm>\r
  <successor>\r
  <subterm>\r
  <variable refvariable=\"x\"/>\r
  </subterm>\r
  </successor>\r
  </subterm>\r
  </add>\r
  </structure>\r
  </hlinscription>\r
  </arc>\r
  </page>\r
  </net>\r
  </pnml>\r
";

const EVERY_ELEMENT: &[u8] = b"\
<?xml version=\"1.0\" encoding=\"UTF-8\"?>
<pnml xmlns=\"http://www.pnml.org/version-2009/grammar/pnml\">
<net id=\"every\" type=\"http://www.pnml.org/version-2009/grammar/symmetricnet\">
<declaration>
<structure>
<declarations>
<namedsort id=\"S\" name=\"S\">
<finiteenumeration>
<feconstant id=\"c1\" name=\"c1\"/>
<feconstant id=\"c2\" name=\"c2\"/>
</finiteenumeration>
</namedsort>
<namedsort id=\"C\" name=\"C\">
<cyclicenumeration/>
</namedsort>
<namedsort id=\"R\" name=\"R\">
<finiteintrange start=\"-5\" end=\"7\"/>
</namedsort>
<namedsort id=\"D\" name=\"D\">
<dot/>
</namedsort>
<namedsort id=\"X\" name=\"X\">
<productsort>
<usersort declaration=\"S\"/>
<usersort declaration=\"R\"/>
</productsort>
</namedsort>
<partition id=\"P\" name=\"P\">
<usersort declaration=\"S\"/>
<partitionelement id=\"B1\" name=\"B1\">
<useroperator declaration=\"c1\"/>
<finiteintrangeconstant value=\"1\">
<finiteintrange start=\"1\" end=\"2\"/>
</finiteintrangeconstant>
<dotconstant/>
</partitionelement>
<partitionelement id=\"B2\" name=\"B2\"/>
</partition>
<variabledecl id=\"x\" name=\"x\">
<usersort declaration=\"S\"/>
</variabledecl>
<variabledecl id=\"y\" name=\"y\">
<dot/>
</variabledecl>
</declarations>
</structure>
</declaration>
<page id=\"page\">
<place id=\"p\">
<type>
<structure>
<dot/>
</structure>
</type>
<hlinitialMarking>
<structure>
<dotconstant/>
</structure>
</hlinitialMarking>
</place>
<place id=\"q\">
<type>
<structure>
<usersort declaration=\"S\"/>
</structure>
</type>
</place>
<transition id=\"t\">
<condition>
<structure>
<and>
<subterm>
<or>
<subterm>
<equality>
<subterm>
<variable refvariable=\"x\"/>
</subterm>
<subterm>
<useroperator declaration=\"c1\"/>
</subterm>
</equality>
</subterm>
<subterm>
<inequality>
<subterm>
<variable refvariable=\"x\"/>
</subterm>
<subterm>
<useroperator declaration=\"c1\"/>
</subterm>
</inequality>
</subterm>
<subterm>
<lessthan>
<subterm>
<variable refvariable=\"x\"/>
</subterm>
<subterm>
<useroperator declaration=\"c1\"/>
</subterm>
</lessthan>
</subterm>
<subterm>
<lessthanorequal>
<subterm>
<variable refvariable=\"x\"/>
</subterm>
<subterm>
<useroperator declaration=\"c1\"/>
</subterm>
</lessthanorequal>
</subterm>
<subterm>
<greaterthan>
<subterm>
<variable refvariable=\"x\"/>
</subterm>
<subterm>
<useroperator declaration=\"c1\"/>
</subterm>
</greaterthan>
</subterm>
<subterm>
<greaterthanorequal>
<subterm>
<variable refvariable=\"x\"/>
</subterm>
<subterm>
<useroperator declaration=\"c1\"/>
</subterm>
</greaterthanorequal>
</subterm>
</or>
</subterm>
<subterm>
<not>
<subterm>
<booleanconstant value=\"false\"/>
</subterm>
</not>
</subterm>
<subterm>
<imply>
<subterm>
<booleanconstant value=\"true\"/>
</subterm>
<subterm>
<equality>
<subterm>
<variable refvariable=\"x\"/>
</subterm>
<subterm>
<useroperator declaration=\"c1\"/>
</subterm>
</equality>
</subterm>
</imply>
</subterm>
</and>
</structure>
</condition>
</transition>
<transition id=\"u\"/>
<referencePlace id=\"r\" ref=\"p\"/>
<referenceTransition id=\"s\" ref=\"t\"/>
<arc id=\"a1\" source=\"p\" target=\"t\">
<hlinscription>
<structure>
<subtract>
<subterm>
<add>
<subterm>
<numberof>
<subterm>
<numberconstant value=\"2\">
<natural/>
</numberconstant>
</subterm>
<subterm>
<tuple>
<subterm>
<variable refvariable=\"x\"/>
</subterm>
<subterm>
<predecessor>
<subterm>
<useroperator declaration=\"c1\"/>
</subterm>
</predecessor>
</subterm>
</tuple>
</subterm>
</numberof>
</subterm>
<subterm>
<scalarproduct>
<subterm>
<numberconstant value=\"9223372036854775807\">
<natural/>
</numberconstant>
</subterm>
<subterm>
<all>
<productsort>
<usersort declaration=\"S\"/>
<dot/>
<productsort/>
</productsort>
</all>
</subterm>
</scalarproduct>
</subterm>
<subterm>
<partitionelementof refpartition=\"P\">
<subterm>
<finiteintrangeconstant value=\"-3\">
<finiteintrange start=\"-5\" end=\"7\"/>
</finiteintrangeconstant>
</subterm>
</partitionelementof>
</subterm>
</add>
</subterm>
<subterm>
<empty>
<finiteintrange start=\"0\" end=\"0\"/>
</empty>
</subterm>
</subtract>
</structure>
</hlinscription>
</arc>
<arc id=\"a2\" source=\"t\" target=\"q\"/>
</page>
</net>
</pnml>
";

#[test]
fn a_plain_net_is_written_as_it_stands(rt: HostRuntime) -> Result<(), Fail> {
    assert!(rt; is_canonised_as(rt.alloc(), RING, RING));
    Ok(())
}

#[test]
fn a_net_without_nodes_is_written_as_it_stands(rt: HostRuntime) -> Result<(), Fail> {
    assert!(rt; is_canonised_as(rt.alloc(), EMPTY, EMPTY));
    Ok(())
}

#[test]
fn the_nodes_of_pages_stand_in_the_order_of_the_file(rt: HostRuntime) -> Result<(), Fail> {
    assert!(rt; is_canonised_as(rt.alloc(), PAGES, PAGES_CANONICAL));
    assert!(rt; is_canonised_as(rt.alloc(), PAGES_CANONICAL, PAGES_CANONICAL));
    Ok(())
}

#[test]
fn declarations_are_gathered_and_numbers_shortened(rt: HostRuntime) -> Result<(), Fail> {
    assert!(rt; is_canonised_as(rt.alloc(), COLOURED, COLOURED_CANONICAL));
    assert!(rt; is_canonised_as(rt.alloc(), COLOURED_CANONICAL, COLOURED_CANONICAL));
    Ok(())
}

#[test]
fn the_philosophers_are_written_as_they_stand(rt: HostRuntime) -> Result<(), Fail> {
    assert!(rt; is_canonised_as(rt.alloc(), PHILOSOPHERS, PHILOSOPHERS));
    Ok(())
}

#[test]
fn what_is_passed_over_is_left_out(rt: HostRuntime) -> Result<(), Fail> {
    assert!(rt; is_canonised_as(rt.alloc(), PHILOSOPHERS_SHOWN, PHILOSOPHERS));
    Ok(())
}

#[test]
fn a_net_of_every_element_is_written_as_it_stands(rt: HostRuntime) -> Result<(), Fail> {
    assert!(rt; is_canonised_as(rt.alloc(), EVERY_ELEMENT, EVERY_ELEMENT));
    Ok(())
}
