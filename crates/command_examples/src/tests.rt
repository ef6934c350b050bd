use answers::{Outcome, status};
use commands::run;
use host_io::{MemFiles, MemSink, OpenGate};
use name_tables::Name;
use pnml_inputs::{MAX_BYTES, Role};
use sqlite_items::Items;
use std::alloc::Global;
use std::test::Fail;
use std::thread::Threads;
use wide_sums::Memory;

fn ring_net() -> &'static [u8] {
    b"<?xml version=\"1.0\" encoding=\"UTF-8\"?>\n<pnml xmlns=\"http://www.pnml.org/version-2009/grammar/pnml\">\n<net id=\"n\" type=\"http://www.pnml.org/version-2009/grammar/ptnet\">\n<page id=\"page\">\n<place id=\"p0\">\n<initialMarking>\n<text>1</text>\n</initialMarking>\n</place>\n<place id=\"p1\"/>\n<transition id=\"t\"/>\n<transition id=\"u\"/>\n<arc id=\"a1\" source=\"p0\" target=\"t\"/>\n<arc id=\"a2\" source=\"t\" target=\"p1\"/>\n<arc id=\"a3\" source=\"p1\" target=\"u\"/>\n<arc id=\"a4\" source=\"u\" target=\"p0\"/>\n</page>\n</net>\n</pnml>\n"
}

fn ring_property() -> &'static [u8] {
    b"<?xml version=\"1.0\" encoding=\"UTF-8\"?>\n<property-set>\n<property>\n<id>P</id>\n<formula>\n<all-paths>\n<globally>\n<integer-le>\n<tokens-count>\n<place>p0</place>\n<place>p1</place>\n</tokens-count>\n<integer-constant>1</integer-constant>\n</integer-le>\n</globally>\n</all-paths>\n</formula>\n</property>\n</property-set>\n"
}

fn ring_certificate() -> &'static [u8] {
    b"certificate 1\nproperty P\nflow f 1*p0 1*p1\nproof\nclose 1*@1 -1*f\nend\n"
}

fn broken_certificate() -> &'static [u8] {
    b"certificate 1\nproperty P\nflow f 1*p0 2*p1\nproof\nclose 1*@1 -1*f\nend\n"
}

fn empty_net() -> &'static [u8] {
    b"<?xml version=\"1.0\" encoding=\"UTF-8\"?>\n<pnml xmlns=\"http://www.pnml.org/version-2009/grammar/pnml\">\n<net id=\"n\" type=\"http://www.pnml.org/version-2009/grammar/ptnet\">\n<page id=\"page\"/>\n</net>\n</pnml>\n"
}

fn zero_property() -> &'static [u8] {
    b"<?xml version=\"1.0\" encoding=\"UTF-8\"?>\n<property-set>\n<property>\n<id>P</id>\n<formula>\n<all-paths>\n<globally>\n<integer-le>\n<integer-constant>0</integer-constant>\n<integer-constant>0</integer-constant>\n</integer-le>\n</globally>\n</all-paths>\n</formula>\n</property>\n</property-set>\n"
}

fn plain_certificate() -> &'static [u8] {
    b"certificate 1\nproperty P\nproof\nclose 1*@1\nend\n"
}

fn heavy_net() -> &'static [u8] {
    b"<?xml version=\"1.0\" encoding=\"UTF-8\"?>\n<pnml xmlns=\"http://www.pnml.org/version-2009/grammar/pnml\">\n<net id=\"n\" type=\"http://www.pnml.org/version-2009/grammar/ptnet\">\n<page id=\"page\">\n<place id=\"p0\">\n<initialMarking>\n<text>9223372036854775807</text>\n</initialMarking>\n</place>\n<place id=\"p1\"/>\n<transition id=\"t\"/>\n<arc id=\"a1\" source=\"p0\" target=\"t\">\n<inscription>\n<text>9223372036854775807</text>\n</inscription>\n</arc>\n<arc id=\"a2\" source=\"t\" target=\"p1\">\n<inscription>\n<text>9223372036854775807</text>\n</inscription>\n</arc>\n</page>\n</net>\n</pnml>\n"
}

fn heavy_certificate() -> &'static [u8] {
    b"certificate 1\nproperty P\nflow f 9223372036854775807*p0 9223372036854775807*p1\nproof\nclose 1*@1\nend\n"
}

fn wide_net() -> &'static [u8] {
    b"<?xml version=\"1.0\" encoding=\"UTF-8\"?>\n<pnml xmlns=\"http://www.pnml.org/version-2009/grammar/pnml\">\n<net id=\"n\" type=\"http://www.pnml.org/version-2009/grammar/ptnet\">\n<page id=\"page\">\n<place id=\"p0\">\n<initialMarking>\n<text>9223372036854775807</text>\n</initialMarking>\n</place>\n<place id=\"p1\">\n<initialMarking>\n<text>9223372036854775807</text>\n</initialMarking>\n</place>\n<place id=\"p2\"/>\n<place id=\"p3\"/>\n<transition id=\"t\"/>\n<arc id=\"a1\" source=\"p0\" target=\"t\">\n<inscription>\n<text>9223372036854775807</text>\n</inscription>\n</arc>\n<arc id=\"a2\" source=\"p1\" target=\"t\">\n<inscription>\n<text>9223372036854775807</text>\n</inscription>\n</arc>\n<arc id=\"a3\" source=\"t\" target=\"p2\">\n<inscription>\n<text>9223372036854775807</text>\n</inscription>\n</arc>\n<arc id=\"a4\" source=\"t\" target=\"p3\">\n<inscription>\n<text>9223372036854775807</text>\n</inscription>\n</arc>\n</page>\n</net>\n</pnml>\n"
}

fn wide_certificate() -> &'static [u8] {
    b"certificate 1\nproperty P\nflow f 9223372036854775807*p0 9223372036854775807*p1 9223372036854775807*p2 9223372036854775807*p3\nproof\nclose 1*@1\nend\n"
}

fn spaced_net() -> &'static [u8] {
    b" <?xml version=\"1.0\" encoding=\"UTF-8\"?>\n<pnml xmlns=\"http://www.pnml.org/version-2009/grammar/pnml\">\n<net id=\"n\" type=\"http://www.pnml.org/version-2009/grammar/ptnet\">\n<page id=\"page\">\n<place id=\"p0\">\n<initialMarking>\n<text>1</text>\n</initialMarking>\n</place>\n<place id=\"p1\"/>\n<transition id=\"t\"/>\n<transition id=\"u\"/>\n<arc id=\"a1\" source=\"p0\" target=\"t\"/>\n<arc id=\"a2\" source=\"t\" target=\"p1\"/>\n<arc id=\"a3\" source=\"p1\" target=\"u\"/>\n<arc id=\"a4\" source=\"u\" target=\"p0\"/>\n</page>\n</net>\n</pnml>\n"
}

/// A file of these bytes.
fn file(alloc: Global, name: &[u8], bytes: &[u8]) -> Result<(Name, Items<u8>), Memory> {
    let name = Name::new(alloc, name)?;
    Ok((name, Items::from_slice(alloc, bytes)?))
}

/// A certificate file of so many bytes `#`.
fn hashes(alloc: Global, count: usize) -> Result<(Name, Items<u8>), Memory> {
    let bytes = vec![in alloc; b'#'; count]?;
    Ok((Name::new(alloc, b"c")?, Items::from_vec(bytes)))
}

/// The files `n`, `f` and `c`, whose calls don't fail.
fn files_of(
    alloc: Global,
    net: &[u8],
    formula: &[u8],
    certificate: &[u8],
) -> Result<MemFiles, Memory> {
    let mut entries = Vec::new(alloc);
    entries.push(file(alloc, b"n", net)?)?;
    entries.push(file(alloc, b"f", formula)?)?;
    entries.push(file(alloc, b"c", certificate)?)?;
    Ok(MemFiles::new(entries, Vec::new(alloc), Vec::new(alloc)))
}

/// The ring's net and property, and a certificate of so many bytes `#`.
fn long_files(alloc: Global, count: usize) -> Result<MemFiles, Memory> {
    let mut entries = Vec::new(alloc);
    entries.push(file(alloc, b"n", ring_net())?)?;
    entries.push(file(alloc, b"f", ring_property())?)?;
    entries.push(hashes(alloc, count)?)?;
    Ok(MemFiles::new(entries, Vec::new(alloc), Vec::new(alloc)))
}

/// The files of the ring; the call of them with this number fails.
fn failing_files(alloc: Global, failing: u64) -> Result<MemFiles, Memory> {
    let mut entries = Vec::new(alloc);
    entries.push(file(alloc, b"n", ring_net())?)?;
    entries.push(file(alloc, b"f", ring_property())?)?;
    entries.push(file(alloc, b"c", ring_certificate())?)?;
    let failing = vec![in alloc; failing]?;
    Ok(MemFiles::new(entries, Vec::new(alloc), failing))
}

/// A sink of 200 bytes, whose calls don't fail.
fn sink(alloc: Global) -> Result<MemSink, Memory> {
    MemSink::new(alloc, 200, Vec::new(alloc), Vec::new(alloc))
}

/// A sink whose puts take 2 and 3 bytes in turn, and whose call 2 fails.
fn failing_sink(alloc: Global) -> Result<MemSink, Memory> {
    let cuts = vec![in alloc; 2usize, 3]?;
    let failing = vec![in alloc; 2u64]?;
    MemSink::new(alloc, 200, cuts, failing)
}

/// The outcome of the words `check`, this net's name, `f` and `c`.
fn outcome_of<R: Threads + Sync>(
    rt: &R,
    alloc: Global,
    net: &[u8],
    files: &mut MemFiles,
    out: &mut MemSink,
) -> Result<Outcome, Memory> {
    let mut words = Vec::new(alloc);
    words.push(Name::new(alloc, b"check")?)?;
    words.push(Name::new(alloc, net)?)?;
    words.push(Name::new(alloc, b"f")?)?;
    words.push(Name::new(alloc, b"c")?)?;
    Ok(run(rt, alloc, words.as_slice(), files, out, &OpenGate))
}

/// The outcome of the words `check`, `n` and `f`.
fn short_outcome<R: Threads + Sync>(
    rt: &R,
    alloc: Global,
    files: &mut MemFiles,
    out: &mut MemSink,
) -> Result<Outcome, Memory> {
    let mut words = Vec::new(alloc);
    words.push(Name::new(alloc, b"check")?)?;
    words.push(Name::new(alloc, b"n")?)?;
    words.push(Name::new(alloc, b"f")?)?;
    Ok(run(rt, alloc, words.as_slice(), files, out, &OpenGate))
}

#[test]
fn ring_holds(rt: HostRuntime) -> Result<(), Fail> {
    let alloc = rt.alloc();
    let mut files = files_of(alloc, ring_net(), ring_property(), ring_certificate())?;
    let mut out = sink(alloc)?;
    let outcome = outcome_of(&rt, alloc, b"n", &mut files, &mut out)?;
    assert_eq!(rt; outcome, Outcome::Holds);
    assert_eq!(rt;
        out.bytes(),
        b"holds\nproperty P TRUE\nplaces 2 constant 0 instances 2 live 2 kept 2\n".as_slice()
    );
    assert_eq!(rt; status(&outcome), 0);
    Ok(())
}

#[test]
fn flow_broken_at_first_step(rt: HostRuntime) -> Result<(), Fail> {
    let alloc = rt.alloc();
    let mut files = files_of(alloc, ring_net(), ring_property(), broken_certificate())?;
    let mut out = sink(alloc)?;
    let outcome = outcome_of(&rt, alloc, b"n", &mut files, &mut out)?;
    assert_eq!(rt; outcome, Outcome::NotShown);
    assert_eq!(rt;
        out.bytes(),
        b"not shown\nproperty P UNKNOWN\nplaces 2 constant 0 instances 2 live 2 kept 2\nfailed line 3 fact f step t@0\n".as_slice()
    );
    assert_eq!(rt; status(&outcome), 1);
    Ok(())
}

#[test]
fn empty_net_holds(rt: HostRuntime) -> Result<(), Fail> {
    let alloc = rt.alloc();
    let mut files = files_of(alloc, empty_net(), zero_property(), plain_certificate())?;
    let mut out = sink(alloc)?;
    let outcome = outcome_of(&rt, alloc, b"n", &mut files, &mut out)?;
    assert_eq!(rt; outcome, Outcome::Holds);
    assert_eq!(rt;
        out.bytes(),
        b"holds\nproperty P TRUE\nplaces 0 constant 0 instances 0 live 0 kept 0\n".as_slice()
    );
    assert_eq!(rt; status(&outcome), 0);
    Ok(())
}

#[test]
fn two_greatest_products_are_within_range(rt: HostRuntime) -> Result<(), Fail> {
    let alloc = rt.alloc();
    let mut files = files_of(alloc, heavy_net(), zero_property(), heavy_certificate())?;
    let mut out = sink(alloc)?;
    let outcome = outcome_of(&rt, alloc, b"n", &mut files, &mut out)?;
    assert_eq!(rt; outcome, Outcome::Holds);
    assert_eq!(rt;
        out.bytes(),
        b"holds\nproperty P TRUE\nplaces 2 constant 0 instances 1 live 1 kept 1\n".as_slice()
    );
    assert_eq!(rt; status(&outcome), 0);
    Ok(())
}

#[test]
fn four_greatest_products_are_out_of_range(rt: HostRuntime) -> Result<(), Fail> {
    let alloc = rt.alloc();
    let mut files = files_of(alloc, wide_net(), zero_property(), wide_certificate())?;
    let mut out = sink(alloc)?;
    let outcome = outcome_of(&rt, alloc, b"n", &mut files, &mut out)?;
    assert_eq!(rt; outcome, Outcome::Range);
    assert_eq!(rt;
        out.bytes(),
        b"out of range\nproperty P UNKNOWN\nplaces 4 constant 0 instances 1 live 1 kept 1\nfailed line 3 fact f step t@0\n".as_slice()
    );
    assert_eq!(rt; status(&outcome), 1);
    Ok(())
}

#[test]
fn space_before_the_net_is_not_yet(rt: HostRuntime) -> Result<(), Fail> {
    let alloc = rt.alloc();
    let mut files = files_of(alloc, spaced_net(), ring_property(), ring_certificate())?;
    let mut out = sink(alloc)?;
    let outcome = outcome_of(&rt, alloc, b"n", &mut files, &mut out)?;
    assert_eq!(rt; outcome, Outcome::Refused);
    assert_eq!(rt; out.bytes(), b"refused net not-yet\n".as_slice());
    assert_eq!(rt; status(&outcome), 2);
    Ok(())
}

#[test]
fn two_operands_are_no_form_of_check(rt: HostRuntime) -> Result<(), Fail> {
    let alloc = rt.alloc();
    let mut files = files_of(alloc, ring_net(), ring_property(), ring_certificate())?;
    let mut out = sink(alloc)?;
    let outcome = short_outcome(&rt, alloc, &mut files, &mut out)?;
    assert_eq!(rt; outcome, Outcome::Usage);
    assert_eq!(rt; out.bytes(), b"".as_slice());
    assert_eq!(rt; status(&outcome), 5);
    Ok(())
}

#[test]
fn greatest_certificate_is_not_yet(rt: HostRuntime) -> Result<(), Fail> {
    let alloc = rt.alloc();
    let mut files = long_files(alloc, MAX_BYTES)?;
    let mut out = sink(alloc)?;
    let outcome = outcome_of(&rt, alloc, b"n", &mut files, &mut out)?;
    assert_eq!(rt; outcome, Outcome::Refused);
    assert_eq!(rt; out.bytes(), b"refused certificate not-yet\n".as_slice());
    assert_eq!(rt; status(&outcome), 2);
    Ok(())
}

#[test]
fn certificate_one_byte_too_long(rt: HostRuntime) -> Result<(), Fail> {
    let alloc = rt.alloc();
    let mut files = long_files(alloc, MAX_BYTES + 1)?;
    let mut out = sink(alloc)?;
    let outcome = outcome_of(&rt, alloc, b"n", &mut files, &mut out)?;
    assert_eq!(rt; outcome, Outcome::TooLong(Role::Cert));
    assert_eq!(rt; out.bytes(), b"refused certificate too-long\n".as_slice());
    assert_eq!(rt; status(&outcome), 2);
    Ok(())
}

#[test]
fn failing_read_is_a_read_fault(rt: HostRuntime) -> Result<(), Fail> {
    let alloc = rt.alloc();
    let mut files = failing_files(alloc, 2)?;
    let mut out = sink(alloc)?;
    let outcome = outcome_of(&rt, alloc, b"n", &mut files, &mut out)?;
    assert_eq!(rt; outcome, Outcome::ReadFault);
    assert_eq!(rt; out.bytes(), b"".as_slice());
    assert_eq!(rt; status(&outcome), 3);
    assert_eq!(rt; files.faults(), 1);
    Ok(())
}

#[test]
fn missing_net_is_a_read_fault(rt: HostRuntime) -> Result<(), Fail> {
    let alloc = rt.alloc();
    let mut files = files_of(alloc, ring_net(), ring_property(), ring_certificate())?;
    let mut out = sink(alloc)?;
    let outcome = outcome_of(&rt, alloc, b"m", &mut files, &mut out)?;
    assert_eq!(rt; outcome, Outcome::ReadFault);
    assert_eq!(rt; out.bytes(), b"".as_slice());
    assert_eq!(rt; status(&outcome), 3);
    assert_eq!(rt; files.faults(), 0);
    Ok(())
}

#[test]
fn failing_put_is_a_write_fault(rt: HostRuntime) -> Result<(), Fail> {
    let alloc = rt.alloc();
    let mut files = files_of(alloc, ring_net(), ring_property(), ring_certificate())?;
    let mut out = failing_sink(alloc)?;
    let outcome = outcome_of(&rt, alloc, b"n", &mut files, &mut out)?;
    assert_eq!(rt; outcome, Outcome::WriteFault);
    assert_eq!(rt; out.bytes(), b"holds".as_slice());
    assert_eq!(rt; status(&outcome), 3);
    Ok(())
}

/// The philosophers with names, graphics and what belongs to tools.
fn decorated_philosophers() -> &'static [u8] {
    b"<?xml version=\"1.0\" encoding=\"UTF-8\"?>\r\n  <pnml xmlns=\"http://www.pnml.org/version-2009/grammar/pnml\">\r\n  <net id=\"phil-3\" type=\"http://www.pnml.org/version-2009/grammar/symmetricnet\">\r\n  <name><text>Philosophers</text></name>\r\n  <toolspecific tool=\"editor\" version=\"1\"><x:size w=\"3\"/></toolspecific>\r\n  <declaration>\r\n  <text>shown</text>\r\n  <structure>\r\n  <declarations>\r\n  <namedsort id=\"Phil\" name=\"Phil\">\r\n  <cyclicenumeration>\r\n  <feconstant id=\"c1\" name=\"c1\"/>\r\n  <feconstant id=\"c2\" name=\"c2\"/>\r\n  <feconstant id=\"c3\" name=\"c3\"/>\r\n  </cyclicenumeration>\r\n  </namedsort>\r\n  <variabledecl id=\"x\" name=\"x\">\r\n  <usersort declaration=\"Phil\"/>\r\n  </variabledecl>\r\n  </declarations>\r\n  </structure>\r\n  </declaration>\r\n  <page id=\"page\">\r\n  <place id=\"Think\">\r\n  <name><text>node</text><graphics><offset x=\"0\" y=\"-10\"/></graphics></name>\r\n  <graphics><position x=\"10\" y=\"20\"/></graphics>\r\n  <type>\r\n  <text>shown</text>\r\n  <structure>\r\n  <usersort declaration=\"Phil\"/>\r\n  </structure>\r\n  </type>\r\n  <hlinitialMarking>\r\n  <text>shown</text>\r\n  <structure>\r\n  <all>\r\n  <usersort declaration=\"Phil\"/>\r\n  </all>\r\n  </structure>\r\n  </hlinitialMarking>\r\n  </place>\r\n  <place id=\"Fork\">\r\n  <name><text>node</text><graphics><offset x=\"0\" y=\"-10\"/></graphics></name>\r\n  <graphics><position x=\"10\" y=\"20\"/></graphics>\r\n  <type>\r\n  <text>shown</text>\r\n  <structure>\r\n  <usersort declaration=\"Phil\"/>\r\n  </structure>\r\n  </type>\r\n  <hlinitialMarking>\r\n  <text>shown</text>\r\n  <structure>\r\n  <all>\r\n  <usersort declaration=\"Phil\"/>\r\n  </all>\r\n  </structure>\r\n  </hlinitialMarking>\r\n  </place>\r\n  <place id=\"Eat\">\r\n  <name><text>node</text><graphics><offset x=\"0\" y=\"-10\"/></graphics></name>\r\n  <graphics><position x=\"10\" y=\"20\"/></graphics>\r\n  <type>\r\n  <text>shown</text>\r\n  <structure>\r\n  <usersort declaration=\"Phil\"/>\r\n  </structure>\r\n  </type>\r\n  </place>\r\n  <transition id=\"take\">\r\n  <name><text>node</text><graphics><offset x=\"0\" y=\"-10\"/></graphics></name>\r\n  <graphics><position x=\"10\" y=\"20\"/></graphics>\r\n  </transition>\r\n  <transition id=\"release\">\r\n  <name><text>node</text><graphics><offset x=\"0\" y=\"-10\"/></graphics></name>\r\n  <graphics><position x=\"10\" y=\"20\"/></graphics>\r\n  </transition>\r\n  <arc id=\"a1\" source=\"Think\" target=\"take\">\r\n  <hlinscription>\r\n  <text>shown</text>\r\n  <structure>\r\n  <variable refvariable=\"x\"/>\r\n  </structure>\r\n  </hlinscription>\r\n  </arc>\r\n  <arc id=\"a2\" source=\"Fork\" target=\"take\">\r\n  <hlinscription>\r\n  <text>shown</text>\r\n  <structure>\r\n  <add>\r\n  <subterm>\r\n  <variable refvariable=\"x\"/>\r\n  </subterm>\r\n  <subterm>\r\n  <successor>\r\n  <subterm>\r\n  <variable refvariable=\"x\"/>\r\n  </subterm>\r\n  </successor>\r\n  </subterm>\r\n  </add>\r\n  </structure>\r\n  </hlinscription>\r\n  </arc>\r\n  <arc id=\"a3\" source=\"take\" target=\"Eat\">\r\n  <hlinscription>\r\n  <text>shown</text>\r\n  <structure>\r\n  <variable refvariable=\"x\"/>\r\n  </structure>\r\n  </hlinscription>\r\n  </arc>\r\n  <arc id=\"a4\" source=\"Eat\" target=\"release\">\r\n  <hlinscription>\r\n  <text>shown</text>\r\n  <structure>\r\n  <variable refvariable=\"x\"/>\r\n  </structure>\r\n  </hlinscription>\r\n  </arc>\r\n  <arc id=\"a5\" source=\"release\" target=\"Think\">\r\n  <hlinscription>\r\n  <text>shown</text>\r\n  <structure>\r\n  <variable refvariable=\"x\"/>\r\n  </structure>\r\n  </hlinscription>\r\n  </arc>\r\n  <arc id=\"a6\" source=\"release\" target=\"Fork\">\r\n  <hlinscription>\r\n  <text>shown</text>\r\n  <structure>\r\n  <add>\r\n  <subterm>\r\n  <variable refvariable=\"x\"/>\r\n  </subterm>\r\n  <subterm>\r\n  <successor>\r\n  <subterm>\r\n  <variable refvariable=\"x\"/>\r\n  </subterm>\r\n  </successor>\r\n  </subterm>\r\n  </add>\r\n  </structure>\r\n  </hlinscription>\r\n  </arc>\r\n  </page>\r\n  </net>\r\n  </pnml>\r\n"
}

/// The canonical text of the philosophers.
fn philosophers() -> &'static [u8] {
    b"<?xml version=\"1.0\" encoding=\"UTF-8\"?>\n<pnml xmlns=\"http://www.pnml.org/version-2009/grammar/pnml\">\n<net id=\"phil-3\" type=\"http://www.pnml.org/version-2009/grammar/symmetricnet\">\n<declaration>\n<structure>\n<declarations>\n<namedsort id=\"Phil\" name=\"Phil\">\n<cyclicenumeration>\n<feconstant id=\"c1\" name=\"c1\"/>\n<feconstant id=\"c2\" name=\"c2\"/>\n<feconstant id=\"c3\" name=\"c3\"/>\n</cyclicenumeration>\n</namedsort>\n<variabledecl id=\"x\" name=\"x\">\n<usersort declaration=\"Phil\"/>\n</variabledecl>\n</declarations>\n</structure>\n</declaration>\n<page id=\"page\">\n<place id=\"Think\">\n<type>\n<structure>\n<usersort declaration=\"Phil\"/>\n</structure>\n</type>\n<hlinitialMarking>\n<structure>\n<all>\n<usersort declaration=\"Phil\"/>\n</all>\n</structure>\n</hlinitialMarking>\n</place>\n<place id=\"Fork\">\n<type>\n<structure>\n<usersort declaration=\"Phil\"/>\n</structure>\n</type>\n<hlinitialMarking>\n<structure>\n<all>\n<usersort declaration=\"Phil\"/>\n</all>\n</structure>\n</hlinitialMarking>\n</place>\n<place id=\"Eat\">\n<type>\n<structure>\n<usersort declaration=\"Phil\"/>\n</structure>\n</type>\n</place>\n<transition id=\"take\"/>\n<transition id=\"release\"/>\n<arc id=\"a1\" source=\"Think\" target=\"take\">\n<hlinscription>\n<structure>\n<variable refvariable=\"x\"/>\n</structure>\n</hlinscription>\n</arc>\n<arc id=\"a2\" source=\"Fork\" target=\"take\">\n<hlinscription>\n<structure>\n<add>\n<subterm>\n<variable refvariable=\"x\"/>\n</subterm>\n<subterm>\n<successor>\n<subterm>\n<variable refvariable=\"x\"/>\n</subterm>\n</successor>\n</subterm>\n</add>\n</structure>\n</hlinscription>\n</arc>\n<arc id=\"a3\" source=\"take\" target=\"Eat\">\n<hlinscription>\n<structure>\n<variable refvariable=\"x\"/>\n</structure>\n</hlinscription>\n</arc>\n<arc id=\"a4\" source=\"Eat\" target=\"release\">\n<hlinscription>\n<structure>\n<variable refvariable=\"x\"/>\n</structure>\n</hlinscription>\n</arc>\n<arc id=\"a5\" source=\"release\" target=\"Think\">\n<hlinscription>\n<structure>\n<variable refvariable=\"x\"/>\n</structure>\n</hlinscription>\n</arc>\n<arc id=\"a6\" source=\"release\" target=\"Fork\">\n<hlinscription>\n<structure>\n<add>\n<subterm>\n<variable refvariable=\"x\"/>\n</subterm>\n<subterm>\n<successor>\n<subterm>\n<variable refvariable=\"x\"/>\n</subterm>\n</successor>\n</subterm>\n</add>\n</structure>\n</hlinscription>\n</arc>\n</page>\n</net>\n</pnml>\n"
}

/// The outcome of the words `canon` and `n`, for a net file.
fn canon_outcome<R: Threads + Sync>(
    rt: &R,
    alloc: Global,
    net: &[u8],
    out: &mut MemSink,
) -> Result<Outcome, Memory> {
    let mut entries = Vec::new(alloc);
    entries.push(file(alloc, b"n", net)?)?;
    let mut files = MemFiles::new(entries, Vec::new(alloc), Vec::new(alloc));
    let mut words = Vec::new(alloc);
    words.push(Name::new(alloc, b"canon")?)?;
    words.push(Name::new(alloc, b"n")?)?;
    Ok(run(rt, alloc, words.as_slice(), &mut files, out, &OpenGate))
}

#[test]
fn decorated_philosophers_in_canonical_form(rt: HostRuntime) -> Result<(), Fail> {
    let alloc = rt.alloc();
    let mut out = MemSink::new(alloc, 20_000, Vec::new(alloc), Vec::new(alloc))?;
    let outcome = canon_outcome(&rt, alloc, decorated_philosophers(), &mut out)?;
    assert_eq!(rt; outcome, Outcome::Done);
    assert_eq!(rt; out.bytes(), philosophers());
    assert_eq!(rt; status(&outcome), 0);
    Ok(())
}

/// Net files that `canon` refuses, and the lines.
const REFUSED_NETS: &[(&[u8], &[u8])] = &[
    (b"<a><b/></a", b"refused net malformed 10\n"),
    (b"<a/>x", b"refused net malformed 4\n"),
    (b"<a><b></a>", b"refused net malformed 8\n"),
    (b"<pnml/>", b"refused net structure 0 missing-child\n"),
    (
        b"<pnml><net id=\"n\" type=\"x\"/></pnml>",
        b"refused net structure 6 net-type\n",
    ),
    (
        b"<pnml><net id=\"n\" type=\"http://www.pnml.org/version-2009/grammar/ptnet\"><place id=\"a\"/><place id=\"a\"/></net></pnml>",
        b"refused net structure 87 duplicate-id\n",
    ),
];

#[test]
fn nets_that_canon_refuses(rt: HostRuntime) -> Result<(), Fail> {
    let alloc = rt.alloc();
    for (net, line) in REFUSED_NETS {
        let mut out = sink(alloc)?;
        let outcome = canon_outcome(&rt, alloc, net, &mut out)?;
        assert_eq!(rt; outcome, Outcome::Refused);
        assert_eq!(rt; out.bytes(), *line);
        assert_eq!(rt; status(&outcome), 2);
    }
    Ok(())
}

#[test]
fn elements_too_deep_for_canon(rt: HostRuntime) -> Result<(), Fail> {
    let alloc = rt.alloc();
    let mut net = Vec::new(alloc);
    for _at in 0..257 {
        net.extend_from_slice(b"<a>")?;
    }
    let mut out = sink(alloc)?;
    let outcome = canon_outcome(&rt, alloc, net.as_slice(), &mut out)?;
    assert_eq!(rt; outcome, Outcome::Refused);
    assert_eq!(rt; out.bytes(), b"refused net deep 768\n".as_slice());
    Ok(())
}
