use doc_tree::{Fault, read_pieces};
use net_elements::{ReadFault, check};
use std::alloc::Global;
use std::test::Fail;

/// Documents that differ in one part: what stands before the part, what stands behind it, and the parts, one on a line. A line has
/// the rule of nets that the document breaks first, or `fine`, and the part, with `^` before the element that breaks the rule.
struct Rows {
    before: &'static [u8],
    behind: &'static [u8],
    lines: &'static [u8],
}

/// The rule that a word names.
fn rule_named(word: &[u8]) -> Option<Fault> {
    match word {
        b"unexpected" => Some(Fault::Unexpected),
        b"many-nets" => Some(Fault::ManyNets),
        b"missing-child" => Some(Fault::MissingChild),
        b"missing-attribute" => Some(Fault::MissingAttribute),
        b"bad-number" => Some(Fault::BadNumber),
        b"bad-id" => Some(Fault::BadId),
        b"net-type" => Some(Fault::NetType),
        b"duplicate-id" => Some(Fault::DuplicateId),
        _ => None,
    }
}

/// The document of a part in two pieces.
fn document(alloc: Global, rows: &Rows, first: &[u8], second: &[u8]) -> Result<Vec<u8>, Fail> {
    let mut text = Vec::from_slice(alloc, rows.before)?;
    text.extend_from_slice(first)?;
    text.extend_from_slice(second)?;
    text.extend_from_slice(rows.behind)?;
    Ok(text)
}

/// Whether the first rule that the tree of a text breaks is this one.
fn breaks(alloc: Global, text: &[u8], broken: Result<(), ReadFault>) -> bool {
    if text.len() > 1_000_000_000 {
        return false;
    }
    match read_pieces(alloc, &[text]) {
        Ok(root) => check(alloc, &root) == broken,
        Err(_) => false,
    }
}

/// Whether a part breaks the rule of a word at its mark, or no rule where the word names none and there is no mark.
fn is_as_said(alloc: Global, rows: &Rows, word: &[u8], part: &[u8]) -> Result<bool, Fail> {
    match (rule_named(word), part.iter().position(|byte| *byte == b'^')) {
        (None, None) => {
            let text = document(alloc, rows, part, b"")?;
            Ok(word == b"fine".as_slice() && breaks(alloc, &text, Ok(())))
        }
        (Some(kind), Some(mark)) => {
            let text = document(alloc, rows, &part[..mark], &part[mark + 1..])?;
            let at = (rows.before.len() + mark) as u64;
            Ok(breaks(alloc, &text, Err(ReadFault::Structure { at, kind })))
        }
        _ => Ok(false),
    }
}

/// The number of the first line that isn't as said, from 0; empty lines are passed over.
fn first_wrong(alloc: Global, rows: &Rows) -> Result<Option<usize>, Fail> {
    for (number, line) in rows.lines.split(|byte| *byte == b'\n').enumerate() {
        let Some(space) = line.iter().position(|byte| *byte == b' ') else {
            continue;
        };
        if !is_as_said(alloc, rows, &line[..space], &line[space + 1..])? {
            return Ok(Some(number));
        }
    }
    Ok(None)
}

static ROOTS: Rows = Rows {
    before: b"",
    behind: b"",
    lines: b"\
unexpected ^<net/>
unexpected   ^<Pnml/>
missing-child ^<pnml/>
unexpected <pnml>^<name/></pnml>
unexpected <pnml>^<text/></pnml>
fine <pnml><net id='n' type='http://www.pnml.org/version-2009/grammar/ptnet'/></pnml>
many-nets <pnml><net id='n' type='http://www.pnml.org/version-2009/grammar/ptnet'/>^<net><y/></net></pnml>
unexpected <pnml>^<y/><net id='n' type='http://www.pnml.org/version-2009/grammar/ptnet'/><net/></pnml>
missing-attribute <pnml>^<net type='http://www.pnml.org/version-2009/grammar/ptnet'/></pnml>
bad-id <pnml>^<net id='' type='http://www.pnml.org/version-2009/grammar/ptnet'/></pnml>
unexpected <pnml><net id='n' type='http://www.pnml.org/version-2009/grammar/ptnet'>^<text/></net></pnml>
unexpected <pnml><net id='n' type='http://www.pnml.org/version-2009/grammar/ptnet'/>^<graphics/></pnml>
fine <pnml><net id='n' type='http://www.pnml.org/version-2009/grammar/symmetricnet'/></pnml>
many-nets <pnml><net id='n' type='http://www.pnml.org/version-2009/grammar/symmetricnet'/>^<net><y/></net></pnml>
unexpected <pnml>^<y/><net id='n' type='http://www.pnml.org/version-2009/grammar/symmetricnet'/><net/></pnml>
missing-attribute <pnml>^<net type='http://www.pnml.org/version-2009/grammar/symmetricnet'/></pnml>
bad-id <pnml>^<net id='' type='http://www.pnml.org/version-2009/grammar/symmetricnet'/></pnml>
unexpected <pnml><net id='n' type='http://www.pnml.org/version-2009/grammar/symmetricnet'>^<text/></net></pnml>
unexpected <pnml><net id='n' type='http://www.pnml.org/version-2009/grammar/symmetricnet'/>^<graphics/></pnml>
missing-attribute <pnml>^<net id='n'><y/></net><net/></pnml>
net-type <pnml>^<net id='n' type='x'><y/></net><net/></pnml>
net-type <pnml>^<net id='n' type='http://www.pnml.org/version-2009/grammar/ptnet '/></pnml>
bad-id <pnml>^<net id='*'/></pnml>
net-type <pnml>^<net id='n' type='x'/></pnml>
missing-attribute <pnml>^<net type='x'/></pnml>
duplicate-id <pnml><net id='n' type='http://www.pnml.org/version-2009/grammar/ptnet'><place id='a'/>^<place id='a'/></net></pnml>
",
};

#[test]
fn the_root_and_the_net_break_what_is_said(rt: HostRuntime) -> Result<(), Fail> {
    assert_eq!(rt; first_wrong(rt.alloc(), &ROOTS)?, None);
    Ok(())
}

static PLACE_TRANSITION_NETS: Rows = Rows {
    before: b"<pnml><net id='n' type='http://www.pnml.org/version-2009/grammar/ptnet'>",
    behind: b"</net></pnml>",
    lines: b"\
fine <page id='a1'/>
fine <page id='a1' other='x'><name><text/><x/></name><graphics/><toolspecific><net/></toolspecific></page>
unexpected <page id='a1'>^<text/></page>
missing-attribute ^<page/>
bad-id ^<page id='a b'/>
bad-id ^<page id='a b'><y/></page>
unexpected <page id='a1'>^<y/></page>

fine <place id='a1'><initialMarking><text>1</text></initialMarking></place>
fine <place id='a1' other='x'><name><text/><x/></name><initialMarking><text>1</text></initialMarking><graphics/><toolspecific><net/></toolspecific></place>
unexpected <place id='a1'><initialMarking><text>1</text></initialMarking>^<text/></place>
missing-attribute ^<place><initialMarking><text>1</text></initialMarking></place>
bad-id ^<place id='a b'><initialMarking><text>1</text></initialMarking></place>
bad-id ^<place id='a b'><y/><initialMarking><text>1</text></initialMarking></place>
unexpected <place id='a1'><initialMarking><text>1</text></initialMarking>^<y/></place>
unexpected <place id='a1'>^<y/><initialMarking><text>1</text></initialMarking></place>
unexpected <place id='a1'><initialMarking><text>1</text></initialMarking>^<initialMarking><text>1</text></initialMarking></place>
unexpected <place id='a1'><initialMarking><text>1</text></initialMarking><graphics/>^<initialMarking><text>1</text></initialMarking></place>
duplicate-id <place id='a1'><initialMarking><text>1</text></initialMarking></place>^<place id='a1'><initialMarking><text>1</text></initialMarking></place>

fine <transition id='a1'/>
fine <transition id='a1' other='x'><name><text/><x/></name><graphics/><toolspecific><net/></toolspecific></transition>
unexpected <transition id='a1'>^<text/></transition>
missing-attribute ^<transition/>
bad-id ^<transition id='a b'/>
bad-id ^<transition id='a b'><y/></transition>
unexpected <transition id='a1'>^<y/></transition>
duplicate-id <transition id='a1'/>^<transition id='a1'/>

fine <arc id='a1' source='a1' target='a1'><inscription><text>1</text></inscription></arc>
fine <arc id='a1' source='a1' target='a1' other='x'><name><text/><x/></name><inscription><text>1</text></inscription><graphics/><toolspecific><net/></toolspecific></arc>
unexpected <arc id='a1' source='a1' target='a1'><inscription><text>1</text></inscription>^<text/></arc>
missing-attribute ^<arc source='a1' target='a1'><inscription><text>1</text></inscription></arc>
bad-id ^<arc id='a b' source='a1' target='a1'><inscription><text>1</text></inscription></arc>
bad-id ^<arc id='a b' source='a b' target='a b'><y/><inscription><text>1</text></inscription></arc>
missing-attribute ^<arc id='a1' target='a1'><inscription><text>1</text></inscription></arc>
bad-id ^<arc id='a1' source='a b' target='a1'><inscription><text>1</text></inscription></arc>
bad-id ^<arc id='a1' source='a b' target='a b'><y/><inscription><text>1</text></inscription></arc>
missing-attribute ^<arc id='a1' source='a1'><inscription><text>1</text></inscription></arc>
bad-id ^<arc id='a1' source='a1' target='a b'><inscription><text>1</text></inscription></arc>
bad-id ^<arc id='a1' source='a1' target='a b'><y/><inscription><text>1</text></inscription></arc>
unexpected <arc id='a1' source='a1' target='a1'><inscription><text>1</text></inscription>^<y/></arc>
unexpected <arc id='a1' source='a1' target='a1'>^<y/><inscription><text>1</text></inscription></arc>
unexpected <arc id='a1' source='a1' target='a1'><inscription><text>1</text></inscription>^<inscription><text>1</text></inscription></arc>
unexpected <arc id='a1' source='a1' target='a1'><inscription><text>1</text></inscription><graphics/>^<inscription><text>1</text></inscription></arc>
duplicate-id <arc id='a1' source='a1' target='a1'><inscription><text>1</text></inscription></arc>^<arc id='a1' source='a1' target='a1'><inscription><text>1</text></inscription></arc>

fine <referencePlace id='a1' ref='a1'/>
fine <referencePlace id='a1' ref='a1' other='x'><name><text/><x/></name><graphics/><toolspecific><net/></toolspecific></referencePlace>
unexpected <referencePlace id='a1' ref='a1'>^<text/></referencePlace>
missing-attribute ^<referencePlace ref='a1'/>
bad-id ^<referencePlace id='a b' ref='a1'/>
bad-id ^<referencePlace id='a b' ref='a b'><y/></referencePlace>
missing-attribute ^<referencePlace id='a1'/>
bad-id ^<referencePlace id='a1' ref='a b'/>
bad-id ^<referencePlace id='a1' ref='a b'><y/></referencePlace>
unexpected <referencePlace id='a1' ref='a1'>^<y/></referencePlace>
duplicate-id <referencePlace id='a1' ref='a1'/>^<referencePlace id='a1' ref='a1'/>

fine <referenceTransition id='a1' ref='a1'/>
fine <referenceTransition id='a1' ref='a1' other='x'><name><text/><x/></name><graphics/><toolspecific><net/></toolspecific></referenceTransition>
unexpected <referenceTransition id='a1' ref='a1'>^<text/></referenceTransition>
missing-attribute ^<referenceTransition ref='a1'/>
bad-id ^<referenceTransition id='a b' ref='a1'/>
bad-id ^<referenceTransition id='a b' ref='a b'><y/></referenceTransition>
missing-attribute ^<referenceTransition id='a1'/>
bad-id ^<referenceTransition id='a1' ref='a b'/>
bad-id ^<referenceTransition id='a1' ref='a b'><y/></referenceTransition>
unexpected <referenceTransition id='a1' ref='a1'>^<y/></referenceTransition>
duplicate-id <referenceTransition id='a1' ref='a1'/>^<referenceTransition id='a1' ref='a1'/>

fine <place id='p'><initialMarking><text>1</text></initialMarking></place>
fine <place id='p'><initialMarking other='x'><name><text/><x/></name><text>1</text><graphics/><toolspecific><net/></toolspecific></initialMarking></place>
unexpected <place id='p'><initialMarking><text>1</text>^<y/></initialMarking></place>
unexpected <place id='p'><initialMarking>^<y/><text>1</text></initialMarking></place>
missing-child <place id='p'>^<initialMarking/></place>
unexpected <place id='p'><initialMarking>^<y/></initialMarking></place>
unexpected <place id='p'><initialMarking><text>1</text>^<text>1</text></initialMarking></place>
unexpected <place id='p'><initialMarking><text>1</text><graphics/>^<text>1</text></initialMarking></place>

fine <arc id='p' source='a' target='b'><inscription><text>1</text></inscription></arc>
fine <arc id='p' source='a' target='b'><inscription other='x'><name><text/><x/></name><text>1</text><graphics/><toolspecific><net/></toolspecific></inscription></arc>
unexpected <arc id='p' source='a' target='b'><inscription><text>1</text>^<y/></inscription></arc>
unexpected <arc id='p' source='a' target='b'><inscription>^<y/><text>1</text></inscription></arc>
missing-child <arc id='p' source='a' target='b'>^<inscription/></arc>
unexpected <arc id='p' source='a' target='b'><inscription>^<y/></inscription></arc>
unexpected <arc id='p' source='a' target='b'><inscription><text>1</text>^<text>1</text></inscription></arc>
unexpected <arc id='p' source='a' target='b'><inscription><text>1</text><graphics/>^<text>1</text></inscription></arc>
duplicate-id <place id='a'/>^<transition id='a'/>
duplicate-id <place id='a'/>^<arc id='a' source='b' target='c'/>
duplicate-id <referencePlace id='a' ref='a'/>^<place id='a'/>
duplicate-id <page id='q'><place id='a'/></page><page id='q'>^<place id='a'/></page>
fine <page id='n'><page id='n'><place id='n'/></page></page>
duplicate-id <place id='a'/>^<arc id='a' source='*' target='c'/>
fine <toolspecific><place id='a'/></toolspecific><place id='a'/>
unexpected ^<namedsort id='a'/>
unexpected ^<declaration/>
unexpected <place id='a'>^<type><structure><dot/></structure></type></place>
unexpected <place id='a'>^<hlinitialMarking/></place>
unexpected <transition id='a'>^<condition/></transition>
unexpected <arc id='a' source='b' target='c'>^<hlinscription/></arc>
unexpected <page id='q'><place id='a'>^<type/></place></page>
fine <place id='p'><initialMarking><text>0</text></initialMarking></place>
fine <place id='p'><initialMarking><text>007</text></initialMarking></place>
fine <place id='p'><initialMarking><text> 7&#10;</text></initialMarking></place>
fine <place id='p'><initialMarking><text>&#9;9223372036854775807&#13;&#10;</text></initialMarking></place>
bad-number <place id='p'><initialMarking>^<text></text></initialMarking></place>
bad-number <place id='p'><initialMarking>^<text>-1</text></initialMarking></place>
bad-number <place id='p'><initialMarking>^<text>+1</text></initialMarking></place>
bad-number <place id='p'><initialMarking>^<text>1 2</text></initialMarking></place>
bad-number <place id='p'><initialMarking>^<text>9223372036854775808</text></initialMarking></place>
bad-number <place id='p'><initialMarking>^<text>x</text></initialMarking></place>
bad-number <place id='p'><initialMarking>^<text>1.0</text></initialMarking></place>
unexpected <place id='p'><initialMarking><text>x^<y/></text></initialMarking></place>
fine <place id='p'><initialMarking><text>1<name/></text></initialMarking></place>
unexpected <place id='p'><initialMarking><text>1</text>^<structure/></initialMarking></place>
fine <arc id='p' source='a' target='b'><inscription><text>0</text></inscription></arc>
fine <arc id='p' source='a' target='b'><inscription><text>007</text></inscription></arc>
fine <arc id='p' source='a' target='b'><inscription><text> 7&#10;</text></inscription></arc>
fine <arc id='p' source='a' target='b'><inscription><text>&#9;9223372036854775807&#13;&#10;</text></inscription></arc>
bad-number <arc id='p' source='a' target='b'><inscription>^<text></text></inscription></arc>
bad-number <arc id='p' source='a' target='b'><inscription>^<text>-1</text></inscription></arc>
bad-number <arc id='p' source='a' target='b'><inscription>^<text>+1</text></inscription></arc>
bad-number <arc id='p' source='a' target='b'><inscription>^<text>1 2</text></inscription></arc>
bad-number <arc id='p' source='a' target='b'><inscription>^<text>9223372036854775808</text></inscription></arc>
bad-number <arc id='p' source='a' target='b'><inscription>^<text>x</text></inscription></arc>
bad-number <arc id='p' source='a' target='b'><inscription>^<text>1.0</text></inscription></arc>
unexpected <arc id='p' source='a' target='b'><inscription><text>x^<y/></text></inscription></arc>
fine <arc id='p' source='a' target='b'><inscription><text>1<name/></text></inscription></arc>
unexpected <arc id='p' source='a' target='b'><inscription><text>1</text>^<structure/></inscription></arc>
",
};

#[test]
fn place_transition_nets_break_what_is_said(rt: HostRuntime) -> Result<(), Fail> {
    assert_eq!(rt; first_wrong(rt.alloc(), &PLACE_TRANSITION_NETS)?, None);
    Ok(())
}

static SYMMETRIC_NETS: Rows = Rows {
    before: b"<pnml><net id='n' type='http://www.pnml.org/version-2009/grammar/symmetricnet'>",
    behind: b"</net></pnml>",
    lines: b"\
fine <page id='a1'/>
fine <page id='a1' other='x'><name><text/><x/></name><graphics/><toolspecific><net/></toolspecific></page>
unexpected <page id='a1'>^<text/></page>
missing-attribute ^<page/>
bad-id ^<page id='a b'/>
bad-id ^<page id='a b'><y/></page>
unexpected <page id='a1'>^<y/></page>

fine <place id='a1'><type><structure><dot/></structure></type><hlinitialMarking><structure><dotconstant/></structure></hlinitialMarking></place>
fine <place id='a1' other='x'><name><text/><x/></name><type><structure><dot/></structure></type><hlinitialMarking><structure><dotconstant/></structure></hlinitialMarking><graphics/><toolspecific><net/></toolspecific></place>
unexpected <place id='a1'><type><structure><dot/></structure></type><hlinitialMarking><structure><dotconstant/></structure></hlinitialMarking>^<text/></place>
missing-attribute ^<place><type><structure><dot/></structure></type><hlinitialMarking><structure><dotconstant/></structure></hlinitialMarking></place>
bad-id ^<place id='a b'><type><structure><dot/></structure></type><hlinitialMarking><structure><dotconstant/></structure></hlinitialMarking></place>
bad-id ^<place id='a b'><y/><type><structure><dot/></structure></type><hlinitialMarking><structure><dotconstant/></structure></hlinitialMarking></place>
unexpected <place id='a1'><type><structure><dot/></structure></type><hlinitialMarking><structure><dotconstant/></structure></hlinitialMarking>^<y/></place>
unexpected <place id='a1'>^<y/><type><structure><dot/></structure></type><hlinitialMarking><structure><dotconstant/></structure></hlinitialMarking></place>
missing-child ^<place id='a1'><hlinitialMarking><structure><dotconstant/></structure></hlinitialMarking></place>
unexpected <place id='a1'><hlinitialMarking><structure><dotconstant/></structure></hlinitialMarking>^<y/></place>
unexpected <place id='a1'><type><structure><dot/></structure></type>^<type><structure><dot/></structure></type><hlinitialMarking><structure><dotconstant/></structure></hlinitialMarking></place>
unexpected <place id='a1'><type><structure><dot/></structure></type><hlinitialMarking><structure><dotconstant/></structure></hlinitialMarking><graphics/>^<type><structure><dot/></structure></type></place>
unexpected <place id='a1'><type><structure><dot/></structure></type><hlinitialMarking><structure><dotconstant/></structure></hlinitialMarking>^<hlinitialMarking><structure><dotconstant/></structure></hlinitialMarking></place>
unexpected <place id='a1'><type><structure><dot/></structure></type><hlinitialMarking><structure><dotconstant/></structure></hlinitialMarking><graphics/>^<hlinitialMarking><structure><dotconstant/></structure></hlinitialMarking></place>
duplicate-id <place id='a1'><type><structure><dot/></structure></type><hlinitialMarking><structure><dotconstant/></structure></hlinitialMarking></place>^<place id='a1'><type><structure><dot/></structure></type><hlinitialMarking><structure><dotconstant/></structure></hlinitialMarking></place>

fine <transition id='a1'><condition><structure><booleanconstant value='true'/></structure></condition></transition>
fine <transition id='a1' other='x'><name><text/><x/></name><condition><structure><booleanconstant value='true'/></structure></condition><graphics/><toolspecific><net/></toolspecific></transition>
unexpected <transition id='a1'><condition><structure><booleanconstant value='true'/></structure></condition>^<text/></transition>
missing-attribute ^<transition><condition><structure><booleanconstant value='true'/></structure></condition></transition>
bad-id ^<transition id='a b'><condition><structure><booleanconstant value='true'/></structure></condition></transition>
bad-id ^<transition id='a b'><y/><condition><structure><booleanconstant value='true'/></structure></condition></transition>
unexpected <transition id='a1'><condition><structure><booleanconstant value='true'/></structure></condition>^<y/></transition>
unexpected <transition id='a1'>^<y/><condition><structure><booleanconstant value='true'/></structure></condition></transition>
unexpected <transition id='a1'><condition><structure><booleanconstant value='true'/></structure></condition>^<condition><structure><booleanconstant value='true'/></structure></condition></transition>
unexpected <transition id='a1'><condition><structure><booleanconstant value='true'/></structure></condition><graphics/>^<condition><structure><booleanconstant value='true'/></structure></condition></transition>
duplicate-id <transition id='a1'><condition><structure><booleanconstant value='true'/></structure></condition></transition>^<transition id='a1'><condition><structure><booleanconstant value='true'/></structure></condition></transition>

fine <arc id='a1' source='a1' target='a1'><hlinscription><structure><dotconstant/></structure></hlinscription></arc>
fine <arc id='a1' source='a1' target='a1' other='x'><name><text/><x/></name><hlinscription><structure><dotconstant/></structure></hlinscription><graphics/><toolspecific><net/></toolspecific></arc>
unexpected <arc id='a1' source='a1' target='a1'><hlinscription><structure><dotconstant/></structure></hlinscription>^<text/></arc>
missing-attribute ^<arc source='a1' target='a1'><hlinscription><structure><dotconstant/></structure></hlinscription></arc>
bad-id ^<arc id='a b' source='a1' target='a1'><hlinscription><structure><dotconstant/></structure></hlinscription></arc>
bad-id ^<arc id='a b' source='a b' target='a b'><y/><hlinscription><structure><dotconstant/></structure></hlinscription></arc>
missing-attribute ^<arc id='a1' target='a1'><hlinscription><structure><dotconstant/></structure></hlinscription></arc>
bad-id ^<arc id='a1' source='a b' target='a1'><hlinscription><structure><dotconstant/></structure></hlinscription></arc>
bad-id ^<arc id='a1' source='a b' target='a b'><y/><hlinscription><structure><dotconstant/></structure></hlinscription></arc>
missing-attribute ^<arc id='a1' source='a1'><hlinscription><structure><dotconstant/></structure></hlinscription></arc>
bad-id ^<arc id='a1' source='a1' target='a b'><hlinscription><structure><dotconstant/></structure></hlinscription></arc>
bad-id ^<arc id='a1' source='a1' target='a b'><y/><hlinscription><structure><dotconstant/></structure></hlinscription></arc>
unexpected <arc id='a1' source='a1' target='a1'><hlinscription><structure><dotconstant/></structure></hlinscription>^<y/></arc>
unexpected <arc id='a1' source='a1' target='a1'>^<y/><hlinscription><structure><dotconstant/></structure></hlinscription></arc>
unexpected <arc id='a1' source='a1' target='a1'><hlinscription><structure><dotconstant/></structure></hlinscription>^<hlinscription><structure><dotconstant/></structure></hlinscription></arc>
unexpected <arc id='a1' source='a1' target='a1'><hlinscription><structure><dotconstant/></structure></hlinscription><graphics/>^<hlinscription><structure><dotconstant/></structure></hlinscription></arc>
duplicate-id <arc id='a1' source='a1' target='a1'><hlinscription><structure><dotconstant/></structure></hlinscription></arc>^<arc id='a1' source='a1' target='a1'><hlinscription><structure><dotconstant/></structure></hlinscription></arc>

fine <referencePlace id='a1' ref='a1'/>
fine <referencePlace id='a1' ref='a1' other='x'><name><text/><x/></name><graphics/><toolspecific><net/></toolspecific></referencePlace>
unexpected <referencePlace id='a1' ref='a1'>^<text/></referencePlace>
missing-attribute ^<referencePlace ref='a1'/>
bad-id ^<referencePlace id='a b' ref='a1'/>
bad-id ^<referencePlace id='a b' ref='a b'><y/></referencePlace>
missing-attribute ^<referencePlace id='a1'/>
bad-id ^<referencePlace id='a1' ref='a b'/>
bad-id ^<referencePlace id='a1' ref='a b'><y/></referencePlace>
unexpected <referencePlace id='a1' ref='a1'>^<y/></referencePlace>
duplicate-id <referencePlace id='a1' ref='a1'/>^<referencePlace id='a1' ref='a1'/>

fine <referenceTransition id='a1' ref='a1'/>
fine <referenceTransition id='a1' ref='a1' other='x'><name><text/><x/></name><graphics/><toolspecific><net/></toolspecific></referenceTransition>
unexpected <referenceTransition id='a1' ref='a1'>^<text/></referenceTransition>
missing-attribute ^<referenceTransition ref='a1'/>
bad-id ^<referenceTransition id='a b' ref='a1'/>
bad-id ^<referenceTransition id='a b' ref='a b'><y/></referenceTransition>
missing-attribute ^<referenceTransition id='a1'/>
bad-id ^<referenceTransition id='a1' ref='a b'/>
bad-id ^<referenceTransition id='a1' ref='a b'><y/></referenceTransition>
unexpected <referenceTransition id='a1' ref='a1'>^<y/></referenceTransition>
duplicate-id <referenceTransition id='a1' ref='a1'/>^<referenceTransition id='a1' ref='a1'/>
fine <place id='p'><type other='x'><name><text/><x/></name><structure><dot/></structure><graphics/><toolspecific><net/></toolspecific></type></place>
fine <place id='p'><type><text><x/></text><structure><dot/></structure><text/></type></place>
unexpected <place id='p'><type><structure><dot/></structure>^<y/></type></place>
unexpected <place id='p'><type>^<y/><structure><dot/></structure></type></place>
missing-child <place id='p'>^<type/></place>
unexpected <place id='p'><type>^<y/></type></place>
fine <place id='p'><type><structure><dot/></structure></type><hlinitialMarking other='x'><name><text/><x/></name><structure><dotconstant/></structure><graphics/><toolspecific><net/></toolspecific></hlinitialMarking></place>
fine <place id='p'><type><structure><dot/></structure></type><hlinitialMarking><text><x/></text><structure><dotconstant/></structure><text/></hlinitialMarking></place>
unexpected <place id='p'><type><structure><dot/></structure></type><hlinitialMarking><structure><dotconstant/></structure>^<y/></hlinitialMarking></place>
unexpected <place id='p'><type><structure><dot/></structure></type><hlinitialMarking>^<y/><structure><dotconstant/></structure></hlinitialMarking></place>
missing-child <place id='p'><type><structure><dot/></structure></type>^<hlinitialMarking/></place>
unexpected <place id='p'><type><structure><dot/></structure></type><hlinitialMarking>^<y/></hlinitialMarking></place>

fine <arc id='p' source='a' target='b'><hlinscription><structure><dotconstant/></structure></hlinscription></arc>
fine <arc id='p' source='a' target='b'><hlinscription other='x'><name><text/><x/></name><structure><dotconstant/></structure><graphics/><toolspecific><net/></toolspecific></hlinscription></arc>
fine <arc id='p' source='a' target='b'><hlinscription><text><x/></text><structure><dotconstant/></structure><text/></hlinscription></arc>
unexpected <arc id='p' source='a' target='b'><hlinscription><structure><dotconstant/></structure>^<y/></hlinscription></arc>
unexpected <arc id='p' source='a' target='b'><hlinscription>^<y/><structure><dotconstant/></structure></hlinscription></arc>
missing-child <arc id='p' source='a' target='b'>^<hlinscription/></arc>
unexpected <arc id='p' source='a' target='b'><hlinscription>^<y/></hlinscription></arc>
unexpected <arc id='p' source='a' target='b'><hlinscription><structure><dotconstant/></structure>^<structure><dotconstant/></structure></hlinscription></arc>
unexpected <arc id='p' source='a' target='b'><hlinscription><structure><dotconstant/></structure><graphics/>^<structure><dotconstant/></structure></hlinscription></arc>
fine <transition id='t'><condition other='x'><name><text/><x/></name><structure><booleanconstant value='true'/></structure><graphics/><toolspecific><net/></toolspecific></condition></transition>
fine <transition id='t'><condition><text><x/></text><structure><booleanconstant value='true'/></structure><text/></condition></transition>
unexpected <transition id='t'><condition><structure><booleanconstant value='true'/></structure>^<y/></condition></transition>
unexpected <transition id='t'><condition>^<y/><structure><booleanconstant value='true'/></structure></condition></transition>
missing-child <transition id='t'>^<condition/></transition>
unexpected <transition id='t'><condition>^<y/></condition></transition>

fine <declaration><structure><declarations/></structure></declaration>
fine <declaration other='x'><name><text/><x/></name><structure><declarations/></structure><graphics/><toolspecific><net/></toolspecific></declaration>
fine <declaration><text><x/></text><structure><declarations/></structure><text/></declaration>
unexpected <declaration><structure><declarations/></structure>^<y/></declaration>
unexpected <declaration>^<y/><structure><declarations/></structure></declaration>
missing-child ^<declaration/>
unexpected <declaration>^<y/></declaration>
unexpected <declaration><structure><declarations/></structure>^<structure><declarations/></structure></declaration>
unexpected <declaration><structure><declarations/></structure><graphics/>^<structure><declarations/></structure></declaration>
fine <place id='p'><type><structure other='x'><name><text/><x/></name><dot/><graphics/><toolspecific><net/></toolspecific></structure></type></place>
missing-child <place id='p'><type>^<structure/></type></place>
fine <place id='p'><type><structure><dot/></structure></type><hlinitialMarking><structure other='x'><name><text/><x/></name><dotconstant/><graphics/><toolspecific><net/></toolspecific></structure></hlinitialMarking></place>
missing-child <place id='p'><type><structure><dot/></structure></type><hlinitialMarking>^<structure/></hlinitialMarking></place>
missing-child <arc id='p' source='a' target='b'><hlinscription>^<structure/></hlinscription></arc>
unexpected <arc id='p' source='a' target='b'><hlinscription><structure>^<y/></structure></hlinscription></arc>
fine <transition id='t'><condition><structure other='x'><name><text/><x/></name><booleanconstant value='true'/><graphics/><toolspecific><net/></toolspecific></structure></condition></transition>
missing-child <transition id='t'><condition>^<structure/></condition></transition>
fine <declaration><structure other='x'><name><text/><x/></name><declarations/><graphics/><toolspecific><net/></toolspecific></structure></declaration>
unexpected <declaration><structure><declarations/>^<text/></structure></declaration>
unexpected <declaration><structure><declarations/>^<y/></structure></declaration>
unexpected <declaration><structure>^<y/><declarations/></structure></declaration>
missing-child <declaration>^<structure/></declaration>
unexpected <declaration><structure>^<y/></structure></declaration>
unexpected <declaration><structure><declarations/>^<declarations/></structure></declaration>
unexpected <declaration><structure><declarations/><graphics/>^<declarations/></structure></declaration>
fine <declaration><structure><declarations other='x'><name><text/><x/></name><namedsort id='s'><dot/></namedsort><partition id='q'><dot/></partition><variabledecl id='v'><dot/></variabledecl><graphics/><toolspecific><net/></toolspecific></declarations></structure></declaration>
fine <declaration><structure><declarations><namedsort id='a'><dot/></namedsort></declarations></structure></declaration><transition id='a'/>
unexpected <place id='a'><type><structure><dot/></structure></type>^<initialMarking/></place>
unexpected <arc id='a' source='b' target='c'>^<inscription/></arc>
missing-child <place id='p'><type><structure><dot/></structure></type>^<hlinitialMarking><text/></hlinitialMarking></place>
missing-child <place id='p'><hlinitialMarking>^<structure/></hlinitialMarking></place>
",
};

#[test]
fn symmetric_nets_break_what_is_said(rt: HostRuntime) -> Result<(), Fail> {
    assert_eq!(rt; first_wrong(rt.alloc(), &SYMMETRIC_NETS)?, None);
    Ok(())
}

static SORTS: Rows = Rows {
    before: b"<pnml><net id='n' type='http://www.pnml.org/version-2009/grammar/symmetricnet'><place id='p'><type><structure>",
    behind: b"</structure></type></place></net></pnml>",
    lines: b"\
fine <dot/>
unexpected <dot/></structure>^<structure><dot/>
unexpected <dot/></structure><graphics/>^<structure><dot/>
unexpected <dot/>^<text/>
unexpected <dot/>^<y/>
unexpected ^<y/><dot/>
unexpected ^<y/>
unexpected <dot/>^<dot/>
unexpected <dot/><graphics/>^<dot/>
fine <dot other='x'><name><text/><x/></name><graphics/><toolspecific><net/></toolspecific></dot>
unexpected <dot>^<text/></dot>
unexpected <dot>^<y/></dot>

fine <usersort declaration='a1'/>
fine <usersort declaration='a1' other='x'><name><text/><x/></name><graphics/><toolspecific><net/></toolspecific></usersort>
unexpected <usersort declaration='a1'>^<text/></usersort>
missing-attribute ^<usersort/>
bad-id ^<usersort declaration='a b'/>
bad-id ^<usersort declaration='a b'><y/></usersort>
unexpected <usersort declaration='a1'>^<y/></usersort>

fine <productsort><dot/><finiteintrange start='-1' end='2'/></productsort>
fine <productsort other='x'><name><text/><x/></name><dot/><finiteintrange start='-1' end='2'/><graphics/><toolspecific><net/></toolspecific></productsort>
unexpected <productsort><dot/><finiteintrange start='-1' end='2'/>^<text/></productsort>
unexpected <productsort><dot/><finiteintrange start='-1' end='2'/>^<y/></productsort>
unexpected <productsort>^<y/><dot/><finiteintrange start='-1' end='2'/></productsort>
fine <productsort><dot/><dot/><finiteintrange start='-1' end='2'/></productsort>
fine <productsort><finiteintrange start='-1' end='2'/><dot/><finiteintrange start='-1' end='2'/></productsort>

fine <finiteintrange start='-7' end='9223372036854775807'/>
fine <finiteintrange start='-7' end='9223372036854775807' other='x'><name><text/><x/></name><graphics/><toolspecific><net/></toolspecific></finiteintrange>
unexpected <finiteintrange start='-7' end='9223372036854775807'>^<text/></finiteintrange>
missing-attribute ^<finiteintrange end='9223372036854775807'/>
bad-number ^<finiteintrange start='x' end='9223372036854775807'/>
bad-number ^<finiteintrange start='x' end='9223372036854775808'><y/></finiteintrange>
missing-attribute ^<finiteintrange start='-7'/>
bad-number ^<finiteintrange start='-7' end='9223372036854775808'/>
bad-number ^<finiteintrange start='-7' end='9223372036854775808'><y/></finiteintrange>
unexpected <finiteintrange start='-7' end='9223372036854775807'>^<y/></finiteintrange>
unexpected ^<dotconstant/>
unexpected <productsort>^<finiteenumeration/></productsort>
unexpected ^<finiteenumeration/>
",
};

#[test]
fn sorts_break_what_is_said(rt: HostRuntime) -> Result<(), Fail> {
    assert_eq!(rt; first_wrong(rt.alloc(), &SORTS)?, None);
    Ok(())
}

static TERMS: Rows = Rows {
    before: b"<pnml><net id='n' type='http://www.pnml.org/version-2009/grammar/symmetricnet'><place id='p'><type><structure><dot/></structure></type><hlinitialMarking><structure>",
    behind: b"</structure></hlinitialMarking></place></net></pnml>",
    lines: b"\
fine <dotconstant/>
unexpected <dotconstant/></structure>^<structure><dotconstant/>
unexpected <dotconstant/></structure><graphics/>^<structure><dotconstant/>
unexpected <dotconstant/>^<text/>
unexpected <dotconstant/>^<y/>
unexpected ^<y/><dotconstant/>
unexpected ^<y/>
unexpected <dotconstant/>^<dotconstant/>
unexpected <dotconstant/><graphics/>^<dotconstant/>

fine <variable refvariable='a1'/>
fine <variable refvariable='a1' other='x'><name><text/><x/></name><graphics/><toolspecific><net/></toolspecific></variable>
unexpected <variable refvariable='a1'>^<text/></variable>
missing-attribute ^<variable/>
bad-id ^<variable refvariable='a b'/>
bad-id ^<variable refvariable='a b'><y/></variable>
unexpected <variable refvariable='a1'>^<y/></variable>

fine <useroperator declaration='a1'/>
fine <useroperator declaration='a1' other='x'><name><text/><x/></name><graphics/><toolspecific><net/></toolspecific></useroperator>
unexpected <useroperator declaration='a1'>^<text/></useroperator>
missing-attribute ^<useroperator/>
bad-id ^<useroperator declaration='a b'/>
bad-id ^<useroperator declaration='a b'><y/></useroperator>
unexpected <useroperator declaration='a1'>^<y/></useroperator>
fine <dotconstant other='x'><name><text/><x/></name><graphics/><toolspecific><net/></toolspecific></dotconstant>
unexpected <dotconstant>^<text/></dotconstant>
unexpected <dotconstant>^<y/></dotconstant>

fine <finiteintrangeconstant value='-0'><finiteintrange start='-1' end='2'/></finiteintrangeconstant>
fine <finiteintrangeconstant value='-0' other='x'><name><text/><x/></name><finiteintrange start='-1' end='2'/><graphics/><toolspecific><net/></toolspecific></finiteintrangeconstant>
unexpected <finiteintrangeconstant value='-0'><finiteintrange start='-1' end='2'/>^<text/></finiteintrangeconstant>
missing-attribute ^<finiteintrangeconstant><finiteintrange start='-1' end='2'/></finiteintrangeconstant>
bad-number ^<finiteintrangeconstant value='--1'><finiteintrange start='-1' end='2'/></finiteintrangeconstant>
bad-number ^<finiteintrangeconstant value='--1'><y/><finiteintrange start='-1' end='2'/></finiteintrangeconstant>
unexpected <finiteintrangeconstant value='-0'><finiteintrange start='-1' end='2'/>^<y/></finiteintrangeconstant>
unexpected <finiteintrangeconstant value='-0'>^<y/><finiteintrange start='-1' end='2'/></finiteintrangeconstant>
missing-child ^<finiteintrangeconstant value='-0'/>
unexpected <finiteintrangeconstant value='-0'>^<y/></finiteintrangeconstant>
unexpected <finiteintrangeconstant value='-0'><finiteintrange start='-1' end='2'/>^<finiteintrange start='-1' end='2'/></finiteintrangeconstant>
unexpected <finiteintrangeconstant value='-0'><finiteintrange start='-1' end='2'/><graphics/>^<finiteintrange start='-1' end='2'/></finiteintrangeconstant>

fine <successor><subterm><dotconstant/></subterm></successor>
fine <successor other='x'><name><text/><x/></name><subterm><dotconstant/></subterm><graphics/><toolspecific><net/></toolspecific></successor>
unexpected <successor><subterm><dotconstant/></subterm>^<text/></successor>
unexpected <successor><subterm><dotconstant/></subterm>^<y/></successor>
unexpected <successor>^<y/><subterm><dotconstant/></subterm></successor>
missing-child ^<successor/>
unexpected <successor>^<y/></successor>
unexpected <successor><subterm><dotconstant/></subterm>^<subterm><dotconstant/></subterm></successor>
unexpected <successor><subterm><dotconstant/></subterm><graphics/>^<subterm><dotconstant/></subterm></successor>

fine <predecessor><subterm><dotconstant/></subterm></predecessor>
fine <predecessor other='x'><name><text/><x/></name><subterm><dotconstant/></subterm><graphics/><toolspecific><net/></toolspecific></predecessor>
unexpected <predecessor><subterm><dotconstant/></subterm>^<text/></predecessor>
unexpected <predecessor><subterm><dotconstant/></subterm>^<y/></predecessor>
unexpected <predecessor>^<y/><subterm><dotconstant/></subterm></predecessor>
missing-child ^<predecessor/>
unexpected <predecessor>^<y/></predecessor>
unexpected <predecessor><subterm><dotconstant/></subterm>^<subterm><dotconstant/></subterm></predecessor>
unexpected <predecessor><subterm><dotconstant/></subterm><graphics/>^<subterm><dotconstant/></subterm></predecessor>

fine <tuple><subterm><dotconstant/></subterm></tuple>
fine <tuple other='x'><name><text/><x/></name><subterm><dotconstant/></subterm><graphics/><toolspecific><net/></toolspecific></tuple>
unexpected <tuple><subterm><dotconstant/></subterm>^<text/></tuple>
unexpected <tuple><subterm><dotconstant/></subterm>^<y/></tuple>
unexpected <tuple>^<y/><subterm><dotconstant/></subterm></tuple>
missing-child ^<tuple/>
unexpected <tuple>^<y/></tuple>
fine <tuple><subterm><dotconstant/></subterm><subterm><dotconstant/></subterm></tuple>

fine <add><subterm><dotconstant/></subterm></add>
fine <add other='x'><name><text/><x/></name><subterm><dotconstant/></subterm><graphics/><toolspecific><net/></toolspecific></add>
unexpected <add><subterm><dotconstant/></subterm>^<text/></add>
unexpected <add><subterm><dotconstant/></subterm>^<y/></add>
unexpected <add>^<y/><subterm><dotconstant/></subterm></add>
missing-child ^<add/>
unexpected <add>^<y/></add>
fine <add><subterm><dotconstant/></subterm><subterm><dotconstant/></subterm></add>

fine <subtract><subterm><dotconstant/></subterm><subterm><dotconstant/></subterm></subtract>
fine <subtract other='x'><name><text/><x/></name><subterm><dotconstant/></subterm><subterm><dotconstant/></subterm><graphics/><toolspecific><net/></toolspecific></subtract>
unexpected <subtract><subterm><dotconstant/></subterm><subterm><dotconstant/></subterm>^<text/></subtract>
unexpected <subtract><subterm><dotconstant/></subterm><subterm><dotconstant/></subterm>^<y/></subtract>
unexpected <subtract>^<y/><subterm><dotconstant/></subterm><subterm><dotconstant/></subterm></subtract>
missing-child ^<subtract><subterm><dotconstant/></subterm></subtract>
unexpected <subtract><subterm><dotconstant/></subterm>^<y/></subtract>
unexpected <subtract><subterm><dotconstant/></subterm><subterm><dotconstant/></subterm>^<subterm><dotconstant/></subterm></subtract>

fine <all><dot/></all>
fine <all other='x'><name><text/><x/></name><dot/><graphics/><toolspecific><net/></toolspecific></all>
unexpected <all><dot/>^<text/></all>
unexpected <all><dot/>^<y/></all>
unexpected <all>^<y/><dot/></all>
missing-child ^<all/>
unexpected <all>^<y/></all>
unexpected <all><dot/>^<dot/></all>
unexpected <all><dot/><graphics/>^<dot/></all>

fine <empty><dot/></empty>
fine <empty other='x'><name><text/><x/></name><dot/><graphics/><toolspecific><net/></toolspecific></empty>
unexpected <empty><dot/>^<text/></empty>
unexpected <empty><dot/>^<y/></empty>
unexpected <empty>^<y/><dot/></empty>
missing-child ^<empty/>
unexpected <empty>^<y/></empty>
unexpected <empty><dot/>^<dot/></empty>
unexpected <empty><dot/><graphics/>^<dot/></empty>

fine <numberof><subterm><numberconstant value='3'/></subterm><subterm><dotconstant/></subterm></numberof>
fine <numberof other='x'><name><text/><x/></name><subterm><numberconstant value='3'/></subterm><subterm><dotconstant/></subterm><graphics/><toolspecific><net/></toolspecific></numberof>
unexpected <numberof><subterm><numberconstant value='3'/></subterm><subterm><dotconstant/></subterm>^<text/></numberof>
unexpected <numberof><subterm><numberconstant value='3'/></subterm><subterm><dotconstant/></subterm>^<y/></numberof>
unexpected <numberof>^<y/><subterm><numberconstant value='3'/></subterm><subterm><dotconstant/></subterm></numberof>
unexpected <numberof><subterm>^<dotconstant/></subterm></numberof>
unexpected <numberof>^<y/></numberof>
missing-child ^<numberof><subterm><numberconstant value='3'/></subterm></numberof>
unexpected <numberof><subterm><numberconstant value='3'/></subterm>^<y/></numberof>
unexpected <numberof><subterm><numberconstant value='3'/></subterm><subterm><dotconstant/></subterm>^<subterm><dotconstant/></subterm></numberof>

fine <scalarproduct><subterm><numberconstant value='3'/></subterm><subterm><dotconstant/></subterm></scalarproduct>
fine <scalarproduct other='x'><name><text/><x/></name><subterm><numberconstant value='3'/></subterm><subterm><dotconstant/></subterm><graphics/><toolspecific><net/></toolspecific></scalarproduct>
unexpected <scalarproduct><subterm><numberconstant value='3'/></subterm><subterm><dotconstant/></subterm>^<text/></scalarproduct>
unexpected <scalarproduct><subterm><numberconstant value='3'/></subterm><subterm><dotconstant/></subterm>^<y/></scalarproduct>
unexpected <scalarproduct>^<y/><subterm><numberconstant value='3'/></subterm><subterm><dotconstant/></subterm></scalarproduct>
unexpected <scalarproduct><subterm>^<dotconstant/></subterm></scalarproduct>
unexpected <scalarproduct>^<y/></scalarproduct>
missing-child ^<scalarproduct><subterm><numberconstant value='3'/></subterm></scalarproduct>
unexpected <scalarproduct><subterm><numberconstant value='3'/></subterm>^<y/></scalarproduct>
unexpected <scalarproduct><subterm><numberconstant value='3'/></subterm><subterm><dotconstant/></subterm>^<subterm><dotconstant/></subterm></scalarproduct>

fine <numberof><subterm><numberconstant value='007'><positive/></numberconstant></subterm><subterm><dotconstant/></subterm></numberof>
fine <numberof><subterm><numberconstant value='007' other='x'><name><text/><x/></name><positive/><graphics/><toolspecific><net/></toolspecific></numberconstant></subterm><subterm><dotconstant/></subterm></numberof>
unexpected <numberof><subterm><numberconstant value='007'><positive/>^<text/></numberconstant></subterm><subterm><dotconstant/></subterm></numberof>
missing-attribute <numberof><subterm>^<numberconstant><positive/></numberconstant></subterm><subterm><dotconstant/></subterm></numberof>
bad-number <numberof><subterm>^<numberconstant value='-7'><positive/></numberconstant></subterm><subterm><dotconstant/></subterm></numberof>
bad-number <numberof><subterm>^<numberconstant value='-7'><y/><positive/></numberconstant></subterm><subterm><dotconstant/></subterm></numberof>
unexpected <numberof><subterm><numberconstant value='007'><positive/>^<y/></numberconstant></subterm><subterm><dotconstant/></subterm></numberof>
unexpected <numberof><subterm><numberconstant value='007'>^<y/><positive/></numberconstant></subterm><subterm><dotconstant/></subterm></numberof>
unexpected <numberof><subterm><numberconstant value='007'><positive/>^<positive/></numberconstant></subterm><subterm><dotconstant/></subterm></numberof>
unexpected <numberof><subterm><numberconstant value='007'><positive/><graphics/>^<positive/></numberconstant></subterm><subterm><dotconstant/></subterm></numberof>

fine <numberof><subterm><numberconstant value='0'><natural/></numberconstant></subterm><subterm><dotconstant/></subterm></numberof>
fine <numberof><subterm><numberconstant value='0' other='x'><name><text/><x/></name><natural/><graphics/><toolspecific><net/></toolspecific></numberconstant></subterm><subterm><dotconstant/></subterm></numberof>
unexpected <numberof><subterm><numberconstant value='0'><natural/>^<text/></numberconstant></subterm><subterm><dotconstant/></subterm></numberof>
missing-attribute <numberof><subterm>^<numberconstant><natural/></numberconstant></subterm><subterm><dotconstant/></subterm></numberof>
bad-number <numberof><subterm>^<numberconstant value=''><natural/></numberconstant></subterm><subterm><dotconstant/></subterm></numberof>
bad-number <numberof><subterm>^<numberconstant value=''><y/><natural/></numberconstant></subterm><subterm><dotconstant/></subterm></numberof>
unexpected <numberof><subterm><numberconstant value='0'><natural/>^<y/></numberconstant></subterm><subterm><dotconstant/></subterm></numberof>
unexpected <numberof><subterm><numberconstant value='0'>^<y/><natural/></numberconstant></subterm><subterm><dotconstant/></subterm></numberof>
unexpected <numberof><subterm><numberconstant value='0'><natural/>^<natural/></numberconstant></subterm><subterm><dotconstant/></subterm></numberof>
unexpected <numberof><subterm><numberconstant value='0'><natural/><graphics/>^<natural/></numberconstant></subterm><subterm><dotconstant/></subterm></numberof>

fine <numberof><subterm><numberconstant value='1'><positive/></numberconstant></subterm><subterm><dotconstant/></subterm></numberof>
fine <numberof><subterm><numberconstant value='1'><positive other='x'><name><text/><x/></name><graphics/><toolspecific><net/></toolspecific></positive></numberconstant></subterm><subterm><dotconstant/></subterm></numberof>
unexpected <numberof><subterm><numberconstant value='1'><positive>^<text/></positive></numberconstant></subterm><subterm><dotconstant/></subterm></numberof>
unexpected <numberof><subterm><numberconstant value='1'><positive>^<y/></positive></numberconstant></subterm><subterm><dotconstant/></subterm></numberof>

fine <numberof><subterm><numberconstant value='1'><natural/></numberconstant></subterm><subterm><dotconstant/></subterm></numberof>
fine <numberof><subterm><numberconstant value='1'><natural other='x'><name><text/><x/></name><graphics/><toolspecific><net/></toolspecific></natural></numberconstant></subterm><subterm><dotconstant/></subterm></numberof>
unexpected <numberof><subterm><numberconstant value='1'><natural>^<text/></natural></numberconstant></subterm><subterm><dotconstant/></subterm></numberof>
unexpected <numberof><subterm><numberconstant value='1'><natural>^<y/></natural></numberconstant></subterm><subterm><dotconstant/></subterm></numberof>

fine <partitionelementof refpartition='a1'><subterm><dotconstant/></subterm></partitionelementof>
fine <partitionelementof refpartition='a1' other='x'><name><text/><x/></name><subterm><dotconstant/></subterm><graphics/><toolspecific><net/></toolspecific></partitionelementof>
unexpected <partitionelementof refpartition='a1'><subterm><dotconstant/></subterm>^<text/></partitionelementof>
missing-attribute ^<partitionelementof><subterm><dotconstant/></subterm></partitionelementof>
bad-id ^<partitionelementof refpartition='a b'><subterm><dotconstant/></subterm></partitionelementof>
bad-id ^<partitionelementof refpartition='a b'><y/><subterm><dotconstant/></subterm></partitionelementof>
unexpected <partitionelementof refpartition='a1'><subterm><dotconstant/></subterm>^<y/></partitionelementof>
unexpected <partitionelementof refpartition='a1'>^<y/><subterm><dotconstant/></subterm></partitionelementof>
missing-child ^<partitionelementof refpartition='a1'/>
unexpected <partitionelementof refpartition='a1'>^<y/></partitionelementof>
unexpected <partitionelementof refpartition='a1'><subterm><dotconstant/></subterm>^<subterm><dotconstant/></subterm></partitionelementof>
unexpected <partitionelementof refpartition='a1'><subterm><dotconstant/></subterm><graphics/>^<subterm><dotconstant/></subterm></partitionelementof>
fine <add><subterm other='x'><name><text/><x/></name><dotconstant/><graphics/><toolspecific><net/></toolspecific></subterm></add>
unexpected <add><subterm><dotconstant/>^<text/></subterm></add>
unexpected <add><subterm><dotconstant/>^<y/></subterm></add>
unexpected <add><subterm>^<y/><dotconstant/></subterm></add>
missing-child <add>^<subterm/></add>
unexpected <add><subterm>^<y/></subterm></add>
unexpected <add><subterm><dotconstant/>^<dotconstant/></subterm></add>
unexpected <add><subterm><dotconstant/><graphics/>^<dotconstant/></subterm></add>
fine <numberof><subterm other='x'><name><text/><x/></name><numberconstant value='3'/><graphics/><toolspecific><net/></toolspecific></subterm><subterm><dotconstant/></subterm></numberof>
unexpected <numberof><subterm><numberconstant value='3'/>^<text/></subterm><subterm><dotconstant/></subterm></numberof>
unexpected <numberof><subterm><numberconstant value='3'/>^<y/></subterm><subterm><dotconstant/></subterm></numberof>
unexpected <numberof><subterm>^<y/><numberconstant value='3'/></subterm><subterm><dotconstant/></subterm></numberof>
missing-child <numberof>^<subterm/><subterm><dotconstant/></subterm></numberof>
unexpected <numberof><subterm>^<y/></subterm><subterm><dotconstant/></subterm></numberof>
unexpected <numberof><subterm><numberconstant value='3'/>^<numberconstant value='3'/></subterm><subterm><dotconstant/></subterm></numberof>
unexpected <numberof><subterm><numberconstant value='3'/><graphics/>^<numberconstant value='3'/></subterm><subterm><dotconstant/></subterm></numberof>
unexpected ^<dot/>
unexpected ^<booleanconstant value='true'/>
unexpected ^<numberconstant value='3'/>
unexpected ^<subterm><dotconstant/></subterm>
unexpected <numberof><subterm>^<dotconstant/></subterm><subterm><numberconstant value='3'/></subterm></numberof>
",
};

#[test]
fn terms_break_what_is_said(rt: HostRuntime) -> Result<(), Fail> {
    assert_eq!(rt; first_wrong(rt.alloc(), &TERMS)?, None);
    Ok(())
}

static GUARDS: Rows = Rows {
    before: b"<pnml><net id='n' type='http://www.pnml.org/version-2009/grammar/symmetricnet'><transition id='t'><condition><structure>",
    behind: b"</structure></condition></transition></net></pnml>",
    lines: b"\
fine <booleanconstant value='true'/>
unexpected <booleanconstant value='true'/></structure>^<structure><booleanconstant value='true'/>
unexpected <booleanconstant value='true'/></structure><graphics/>^<structure><booleanconstant value='true'/>
unexpected <booleanconstant value='true'/>^<text/>
unexpected <booleanconstant value='true'/>^<y/>
unexpected ^<y/><booleanconstant value='true'/>
unexpected ^<y/>
unexpected <booleanconstant value='true'/>^<booleanconstant value='true'/>
unexpected <booleanconstant value='true'/><graphics/>^<booleanconstant value='true'/>

fine <not><subterm><booleanconstant value='true'/></subterm></not>
fine <not><subterm other='x'><name><text/><x/></name><booleanconstant value='true'/><graphics/><toolspecific><net/></toolspecific></subterm></not>
unexpected <not><subterm><booleanconstant value='true'/>^<text/></subterm></not>
unexpected <not><subterm><booleanconstant value='true'/>^<y/></subterm></not>
unexpected <not><subterm>^<y/><booleanconstant value='true'/></subterm></not>
missing-child <not>^<subterm/></not>
unexpected <not><subterm>^<y/></subterm></not>
unexpected <not><subterm><booleanconstant value='true'/>^<booleanconstant value='true'/></subterm></not>
unexpected <not><subterm><booleanconstant value='true'/><graphics/>^<booleanconstant value='true'/></subterm></not>

fine <and><subterm><equality><subterm><dotconstant/></subterm><subterm><dotconstant/></subterm></equality></subterm></and>
fine <and other='x'><name><text/><x/></name><subterm><equality><subterm><dotconstant/></subterm><subterm><dotconstant/></subterm></equality></subterm><graphics/><toolspecific><net/></toolspecific></and>
unexpected <and><subterm><equality><subterm><dotconstant/></subterm><subterm><dotconstant/></subterm></equality></subterm>^<text/></and>
unexpected <and><subterm><equality><subterm><dotconstant/></subterm><subterm><dotconstant/></subterm></equality></subterm>^<y/></and>
unexpected <and>^<y/><subterm><equality><subterm><dotconstant/></subterm><subterm><dotconstant/></subterm></equality></subterm></and>
missing-child ^<and/>
unexpected <and>^<y/></and>
fine <and><subterm><equality><subterm><dotconstant/></subterm><subterm><dotconstant/></subterm></equality></subterm><subterm><equality><subterm><dotconstant/></subterm><subterm><dotconstant/></subterm></equality></subterm></and>

fine <or><subterm><booleanconstant value='true'/></subterm></or>
fine <or other='x'><name><text/><x/></name><subterm><booleanconstant value='true'/></subterm><graphics/><toolspecific><net/></toolspecific></or>
unexpected <or><subterm><booleanconstant value='true'/></subterm>^<text/></or>
unexpected <or><subterm><booleanconstant value='true'/></subterm>^<y/></or>
unexpected <or>^<y/><subterm><booleanconstant value='true'/></subterm></or>
missing-child ^<or/>
unexpected <or>^<y/></or>
fine <or><subterm><booleanconstant value='true'/></subterm><subterm><booleanconstant value='true'/></subterm></or>
fine <not other='x'><name><text/><x/></name><subterm><booleanconstant value='true'/></subterm><graphics/><toolspecific><net/></toolspecific></not>
unexpected <not><subterm><booleanconstant value='true'/></subterm>^<text/></not>
unexpected <not><subterm><booleanconstant value='true'/></subterm>^<y/></not>
unexpected <not>^<y/><subterm><booleanconstant value='true'/></subterm></not>
missing-child ^<not/>
unexpected <not>^<y/></not>
unexpected <not><subterm><booleanconstant value='true'/></subterm>^<subterm><booleanconstant value='true'/></subterm></not>
unexpected <not><subterm><booleanconstant value='true'/></subterm><graphics/>^<subterm><booleanconstant value='true'/></subterm></not>

fine <imply><subterm><booleanconstant value='true'/></subterm><subterm><equality><subterm><dotconstant/></subterm><subterm><dotconstant/></subterm></equality></subterm></imply>
fine <imply other='x'><name><text/><x/></name><subterm><booleanconstant value='true'/></subterm><subterm><equality><subterm><dotconstant/></subterm><subterm><dotconstant/></subterm></equality></subterm><graphics/><toolspecific><net/></toolspecific></imply>
unexpected <imply><subterm><booleanconstant value='true'/></subterm><subterm><equality><subterm><dotconstant/></subterm><subterm><dotconstant/></subterm></equality></subterm>^<text/></imply>
unexpected <imply><subterm><booleanconstant value='true'/></subterm><subterm><equality><subterm><dotconstant/></subterm><subterm><dotconstant/></subterm></equality></subterm>^<y/></imply>
unexpected <imply>^<y/><subterm><booleanconstant value='true'/></subterm><subterm><equality><subterm><dotconstant/></subterm><subterm><dotconstant/></subterm></equality></subterm></imply>
missing-child ^<imply><subterm><equality><subterm><dotconstant/></subterm><subterm><dotconstant/></subterm></equality></subterm></imply>
unexpected <imply><subterm><equality><subterm><dotconstant/></subterm><subterm><dotconstant/></subterm></equality></subterm>^<y/></imply>
missing-child ^<imply><subterm><booleanconstant value='true'/></subterm></imply>
unexpected <imply><subterm><booleanconstant value='true'/></subterm>^<y/></imply>
unexpected <imply><subterm><booleanconstant value='true'/></subterm><subterm><equality><subterm><dotconstant/></subterm><subterm><dotconstant/></subterm></equality></subterm>^<subterm><equality><subterm><dotconstant/></subterm><subterm><dotconstant/></subterm></equality></subterm></imply>

fine <equality><subterm><dotconstant/></subterm><subterm><dotconstant/></subterm></equality>
fine <equality other='x'><name><text/><x/></name><subterm><dotconstant/></subterm><subterm><dotconstant/></subterm><graphics/><toolspecific><net/></toolspecific></equality>
unexpected <equality><subterm><dotconstant/></subterm><subterm><dotconstant/></subterm>^<text/></equality>
unexpected <equality><subterm><dotconstant/></subterm><subterm><dotconstant/></subterm>^<y/></equality>
unexpected <equality>^<y/><subterm><dotconstant/></subterm><subterm><dotconstant/></subterm></equality>
missing-child ^<equality><subterm><dotconstant/></subterm></equality>
unexpected <equality><subterm><dotconstant/></subterm>^<y/></equality>
unexpected <equality><subterm><dotconstant/></subterm><subterm><dotconstant/></subterm>^<subterm><dotconstant/></subterm></equality>

fine <inequality><subterm><dotconstant/></subterm><subterm><dotconstant/></subterm></inequality>
fine <inequality other='x'><name><text/><x/></name><subterm><dotconstant/></subterm><subterm><dotconstant/></subterm><graphics/><toolspecific><net/></toolspecific></inequality>
unexpected <inequality><subterm><dotconstant/></subterm><subterm><dotconstant/></subterm>^<text/></inequality>
unexpected <inequality><subterm><dotconstant/></subterm><subterm><dotconstant/></subterm>^<y/></inequality>
unexpected <inequality>^<y/><subterm><dotconstant/></subterm><subterm><dotconstant/></subterm></inequality>
missing-child ^<inequality><subterm><dotconstant/></subterm></inequality>
unexpected <inequality><subterm><dotconstant/></subterm>^<y/></inequality>
unexpected <inequality><subterm><dotconstant/></subterm><subterm><dotconstant/></subterm>^<subterm><dotconstant/></subterm></inequality>

fine <lessthan><subterm><dotconstant/></subterm><subterm><dotconstant/></subterm></lessthan>
fine <lessthan other='x'><name><text/><x/></name><subterm><dotconstant/></subterm><subterm><dotconstant/></subterm><graphics/><toolspecific><net/></toolspecific></lessthan>
unexpected <lessthan><subterm><dotconstant/></subterm><subterm><dotconstant/></subterm>^<text/></lessthan>
unexpected <lessthan><subterm><dotconstant/></subterm><subterm><dotconstant/></subterm>^<y/></lessthan>
unexpected <lessthan>^<y/><subterm><dotconstant/></subterm><subterm><dotconstant/></subterm></lessthan>
missing-child ^<lessthan><subterm><dotconstant/></subterm></lessthan>
unexpected <lessthan><subterm><dotconstant/></subterm>^<y/></lessthan>
unexpected <lessthan><subterm><dotconstant/></subterm><subterm><dotconstant/></subterm>^<subterm><dotconstant/></subterm></lessthan>

fine <lessthanorequal><subterm><dotconstant/></subterm><subterm><dotconstant/></subterm></lessthanorequal>
fine <lessthanorequal other='x'><name><text/><x/></name><subterm><dotconstant/></subterm><subterm><dotconstant/></subterm><graphics/><toolspecific><net/></toolspecific></lessthanorequal>
unexpected <lessthanorequal><subterm><dotconstant/></subterm><subterm><dotconstant/></subterm>^<text/></lessthanorequal>
unexpected <lessthanorequal><subterm><dotconstant/></subterm><subterm><dotconstant/></subterm>^<y/></lessthanorequal>
unexpected <lessthanorequal>^<y/><subterm><dotconstant/></subterm><subterm><dotconstant/></subterm></lessthanorequal>
missing-child ^<lessthanorequal><subterm><dotconstant/></subterm></lessthanorequal>
unexpected <lessthanorequal><subterm><dotconstant/></subterm>^<y/></lessthanorequal>
unexpected <lessthanorequal><subterm><dotconstant/></subterm><subterm><dotconstant/></subterm>^<subterm><dotconstant/></subterm></lessthanorequal>

fine <greaterthan><subterm><dotconstant/></subterm><subterm><dotconstant/></subterm></greaterthan>
fine <greaterthan other='x'><name><text/><x/></name><subterm><dotconstant/></subterm><subterm><dotconstant/></subterm><graphics/><toolspecific><net/></toolspecific></greaterthan>
unexpected <greaterthan><subterm><dotconstant/></subterm><subterm><dotconstant/></subterm>^<text/></greaterthan>
unexpected <greaterthan><subterm><dotconstant/></subterm><subterm><dotconstant/></subterm>^<y/></greaterthan>
unexpected <greaterthan>^<y/><subterm><dotconstant/></subterm><subterm><dotconstant/></subterm></greaterthan>
missing-child ^<greaterthan><subterm><dotconstant/></subterm></greaterthan>
unexpected <greaterthan><subterm><dotconstant/></subterm>^<y/></greaterthan>
unexpected <greaterthan><subterm><dotconstant/></subterm><subterm><dotconstant/></subterm>^<subterm><dotconstant/></subterm></greaterthan>

fine <greaterthanorequal><subterm><dotconstant/></subterm><subterm><dotconstant/></subterm></greaterthanorequal>
fine <greaterthanorequal other='x'><name><text/><x/></name><subterm><dotconstant/></subterm><subterm><dotconstant/></subterm><graphics/><toolspecific><net/></toolspecific></greaterthanorequal>
unexpected <greaterthanorequal><subterm><dotconstant/></subterm><subterm><dotconstant/></subterm>^<text/></greaterthanorequal>
unexpected <greaterthanorequal><subterm><dotconstant/></subterm><subterm><dotconstant/></subterm>^<y/></greaterthanorequal>
unexpected <greaterthanorequal>^<y/><subterm><dotconstant/></subterm><subterm><dotconstant/></subterm></greaterthanorequal>
missing-child ^<greaterthanorequal><subterm><dotconstant/></subterm></greaterthanorequal>
unexpected <greaterthanorequal><subterm><dotconstant/></subterm>^<y/></greaterthanorequal>
unexpected <greaterthanorequal><subterm><dotconstant/></subterm><subterm><dotconstant/></subterm>^<subterm><dotconstant/></subterm></greaterthanorequal>

fine <booleanconstant value='false'/>
fine <booleanconstant value='false' other='x'><name><text/><x/></name><graphics/><toolspecific><net/></toolspecific></booleanconstant>
unexpected <booleanconstant value='false'>^<text/></booleanconstant>
missing-attribute ^<booleanconstant/>
bad-number ^<booleanconstant value='False'/>
bad-number ^<booleanconstant value='False'><y/></booleanconstant>
unexpected <booleanconstant value='false'>^<y/></booleanconstant>
unexpected ^<dotconstant/>
unexpected <not><subterm>^<dotconstant/></subterm></not>
unexpected <equality><subterm><dotconstant/></subterm><subterm>^<booleanconstant value='true'/></subterm></equality>
",
};

#[test]
fn guards_break_what_is_said(rt: HostRuntime) -> Result<(), Fail> {
    assert_eq!(rt; first_wrong(rt.alloc(), &GUARDS)?, None);
    Ok(())
}

static DECLARATIONS: Rows = Rows {
    before: b"<pnml><net id='n' type='http://www.pnml.org/version-2009/grammar/symmetricnet'><declaration><structure><declarations>",
    behind: b"</declarations></structure></declaration></net></pnml>",
    lines: b"\
fine <namedsort id='s'><dot/></namedsort><partition id='q'><dot/></partition><variabledecl id='v'><dot/></variabledecl>
unexpected <namedsort id='s'><dot/></namedsort><partition id='q'><dot/></partition><variabledecl id='v'><dot/></variabledecl>^<text/>
unexpected <namedsort id='s'><dot/></namedsort><partition id='q'><dot/></partition><variabledecl id='v'><dot/></variabledecl>^<y/>
unexpected ^<y/><namedsort id='s'><dot/></namedsort><partition id='q'><dot/></partition><variabledecl id='v'><dot/></variabledecl>

fine <namedsort id='a1'><dot/></namedsort>
fine <namedsort id='a1' other='x'><name><text/><x/></name><dot/><graphics/><toolspecific><net/></toolspecific></namedsort>
unexpected <namedsort id='a1'><dot/>^<text/></namedsort>
missing-attribute ^<namedsort><dot/></namedsort>
bad-id ^<namedsort id='a b'><dot/></namedsort>
bad-id ^<namedsort id='a b'><y/><dot/></namedsort>
unexpected <namedsort id='a1'><dot/>^<y/></namedsort>
unexpected <namedsort id='a1'>^<y/><dot/></namedsort>
missing-child ^<namedsort id='a1'/>
unexpected <namedsort id='a1'>^<y/></namedsort>
unexpected <namedsort id='a1'><dot/>^<dot/></namedsort>
unexpected <namedsort id='a1'><dot/><graphics/>^<dot/></namedsort>
duplicate-id <namedsort id='a1'><dot/></namedsort>^<namedsort id='a1'><dot/></namedsort>

fine <namedsort id='a1'><finiteintrange start='-1' end='2'/></namedsort>
fine <namedsort id='a1' other='x'><name><text/><x/></name><finiteintrange start='-1' end='2'/><graphics/><toolspecific><net/></toolspecific></namedsort>
unexpected <namedsort id='a1'><finiteintrange start='-1' end='2'/>^<text/></namedsort>
missing-attribute ^<namedsort><finiteintrange start='-1' end='2'/></namedsort>
bad-id ^<namedsort id='a b'><finiteintrange start='-1' end='2'/></namedsort>
bad-id ^<namedsort id='a b'><y/><finiteintrange start='-1' end='2'/></namedsort>
unexpected <namedsort id='a1'><finiteintrange start='-1' end='2'/>^<y/></namedsort>
unexpected <namedsort id='a1'>^<y/><finiteintrange start='-1' end='2'/></namedsort>
unexpected <namedsort id='a1'><finiteintrange start='-1' end='2'/>^<finiteintrange start='-1' end='2'/></namedsort>
unexpected <namedsort id='a1'><finiteintrange start='-1' end='2'/><graphics/>^<finiteintrange start='-1' end='2'/></namedsort>

fine <namedsort id='a1'><usersort declaration='b'/></namedsort>
fine <namedsort id='a1' other='x'><name><text/><x/></name><usersort declaration='b'/><graphics/><toolspecific><net/></toolspecific></namedsort>
unexpected <namedsort id='a1'><usersort declaration='b'/>^<text/></namedsort>
missing-attribute ^<namedsort><usersort declaration='b'/></namedsort>
bad-id ^<namedsort id='a b'><usersort declaration='b'/></namedsort>
bad-id ^<namedsort id='a b'><y/><usersort declaration='b'/></namedsort>
unexpected <namedsort id='a1'><usersort declaration='b'/>^<y/></namedsort>
unexpected <namedsort id='a1'>^<y/><usersort declaration='b'/></namedsort>
unexpected <namedsort id='a1'><usersort declaration='b'/>^<usersort declaration='b'/></namedsort>
unexpected <namedsort id='a1'><usersort declaration='b'/><graphics/>^<usersort declaration='b'/></namedsort>

fine <namedsort id='a1'><productsort/></namedsort>
fine <namedsort id='a1' other='x'><name><text/><x/></name><productsort/><graphics/><toolspecific><net/></toolspecific></namedsort>
unexpected <namedsort id='a1'><productsort/>^<text/></namedsort>
missing-attribute ^<namedsort><productsort/></namedsort>
bad-id ^<namedsort id='a b'><productsort/></namedsort>
bad-id ^<namedsort id='a b'><y/><productsort/></namedsort>
unexpected <namedsort id='a1'><productsort/>^<y/></namedsort>
unexpected <namedsort id='a1'>^<y/><productsort/></namedsort>
unexpected <namedsort id='a1'><productsort/>^<productsort/></namedsort>
unexpected <namedsort id='a1'><productsort/><graphics/>^<productsort/></namedsort>

fine <namedsort id='a1'><finiteenumeration/></namedsort>
fine <namedsort id='a1' other='x'><name><text/><x/></name><finiteenumeration/><graphics/><toolspecific><net/></toolspecific></namedsort>
unexpected <namedsort id='a1'><finiteenumeration/>^<text/></namedsort>
missing-attribute ^<namedsort><finiteenumeration/></namedsort>
bad-id ^<namedsort id='a b'><finiteenumeration/></namedsort>
bad-id ^<namedsort id='a b'><y/><finiteenumeration/></namedsort>
unexpected <namedsort id='a1'><finiteenumeration/>^<y/></namedsort>
unexpected <namedsort id='a1'>^<y/><finiteenumeration/></namedsort>
unexpected <namedsort id='a1'><finiteenumeration/>^<finiteenumeration/></namedsort>
unexpected <namedsort id='a1'><finiteenumeration/><graphics/>^<finiteenumeration/></namedsort>

fine <namedsort id='a1'><cyclicenumeration/></namedsort>
fine <namedsort id='a1' other='x'><name><text/><x/></name><cyclicenumeration/><graphics/><toolspecific><net/></toolspecific></namedsort>
unexpected <namedsort id='a1'><cyclicenumeration/>^<text/></namedsort>
missing-attribute ^<namedsort><cyclicenumeration/></namedsort>
bad-id ^<namedsort id='a b'><cyclicenumeration/></namedsort>
bad-id ^<namedsort id='a b'><y/><cyclicenumeration/></namedsort>
unexpected <namedsort id='a1'><cyclicenumeration/>^<y/></namedsort>
unexpected <namedsort id='a1'>^<y/><cyclicenumeration/></namedsort>
unexpected <namedsort id='a1'><cyclicenumeration/>^<cyclicenumeration/></namedsort>
unexpected <namedsort id='a1'><cyclicenumeration/><graphics/>^<cyclicenumeration/></namedsort>

fine <variabledecl id='a1'><dot/></variabledecl>
fine <variabledecl id='a1' other='x'><name><text/><x/></name><dot/><graphics/><toolspecific><net/></toolspecific></variabledecl>
unexpected <variabledecl id='a1'><dot/>^<text/></variabledecl>
missing-attribute ^<variabledecl><dot/></variabledecl>
bad-id ^<variabledecl id='a b'><dot/></variabledecl>
bad-id ^<variabledecl id='a b'><y/><dot/></variabledecl>
unexpected <variabledecl id='a1'><dot/>^<y/></variabledecl>
unexpected <variabledecl id='a1'>^<y/><dot/></variabledecl>
missing-child ^<variabledecl id='a1'/>
unexpected <variabledecl id='a1'>^<y/></variabledecl>
unexpected <variabledecl id='a1'><dot/>^<dot/></variabledecl>
unexpected <variabledecl id='a1'><dot/><graphics/>^<dot/></variabledecl>
duplicate-id <variabledecl id='a1'><dot/></variabledecl>^<variabledecl id='a1'><dot/></variabledecl>

fine <partition id='a1'><dot/><partitionelement id='e'/></partition>
fine <partition id='a1' other='x'><name><text/><x/></name><dot/><partitionelement id='e'/><graphics/><toolspecific><net/></toolspecific></partition>
unexpected <partition id='a1'><dot/><partitionelement id='e'/>^<text/></partition>
missing-attribute ^<partition><dot/><partitionelement id='e'/></partition>
bad-id ^<partition id='a b'><dot/><partitionelement id='e'/></partition>
bad-id ^<partition id='a b'><y/><dot/><partitionelement id='e'/></partition>
unexpected <partition id='a1'><dot/><partitionelement id='e'/>^<y/></partition>
unexpected <partition id='a1'>^<y/><dot/><partitionelement id='e'/></partition>
missing-child ^<partition id='a1'><partitionelement id='e'/></partition>
unexpected <partition id='a1'><partitionelement id='e'/>^<y/></partition>
unexpected <partition id='a1'><dot/>^<dot/><partitionelement id='e'/></partition>
unexpected <partition id='a1'><dot/><partitionelement id='e'/><graphics/>^<dot/></partition>

fine <partition id='q'><partitionelement id='a1'><useroperator declaration='c'/><finiteintrangeconstant value='0'><finiteintrange start='-1' end='2'/></finiteintrangeconstant><dotconstant/></partitionelement><dot/></partition>
fine <partition id='q'><partitionelement id='a1' other='x'><name><text/><x/></name><useroperator declaration='c'/><finiteintrangeconstant value='0'><finiteintrange start='-1' end='2'/></finiteintrangeconstant><dotconstant/><graphics/><toolspecific><net/></toolspecific></partitionelement><dot/></partition>
unexpected <partition id='q'><partitionelement id='a1'><useroperator declaration='c'/><finiteintrangeconstant value='0'><finiteintrange start='-1' end='2'/></finiteintrangeconstant><dotconstant/>^<text/></partitionelement><dot/></partition>
missing-attribute <partition id='q'>^<partitionelement><useroperator declaration='c'/><finiteintrangeconstant value='0'><finiteintrange start='-1' end='2'/></finiteintrangeconstant><dotconstant/></partitionelement><dot/></partition>
bad-id <partition id='q'>^<partitionelement id='a b'><useroperator declaration='c'/><finiteintrangeconstant value='0'><finiteintrange start='-1' end='2'/></finiteintrangeconstant><dotconstant/></partitionelement><dot/></partition>
bad-id <partition id='q'>^<partitionelement id='a b'><y/><useroperator declaration='c'/><finiteintrangeconstant value='0'><finiteintrange start='-1' end='2'/></finiteintrangeconstant><dotconstant/></partitionelement><dot/></partition>
unexpected <partition id='q'><partitionelement id='a1'><useroperator declaration='c'/><finiteintrangeconstant value='0'><finiteintrange start='-1' end='2'/></finiteintrangeconstant><dotconstant/>^<y/></partitionelement><dot/></partition>
unexpected <partition id='q'><partitionelement id='a1'>^<y/><useroperator declaration='c'/><finiteintrangeconstant value='0'><finiteintrange start='-1' end='2'/></finiteintrangeconstant><dotconstant/></partitionelement><dot/></partition>
fine <partition id='q'><partitionelement id='a1'><useroperator declaration='c'/><useroperator declaration='c'/><finiteintrangeconstant value='0'><finiteintrange start='-1' end='2'/></finiteintrangeconstant><dotconstant/></partitionelement><dot/></partition>
fine <partition id='q'><partitionelement id='a1'><finiteintrangeconstant value='0'><finiteintrange start='-1' end='2'/></finiteintrangeconstant><useroperator declaration='c'/><finiteintrangeconstant value='0'><finiteintrange start='-1' end='2'/></finiteintrangeconstant><dotconstant/></partitionelement><dot/></partition>
fine <partition id='q'><partitionelement id='a1'><dotconstant/><useroperator declaration='c'/><finiteintrangeconstant value='0'><finiteintrange start='-1' end='2'/></finiteintrangeconstant><dotconstant/></partitionelement><dot/></partition>
duplicate-id <partition id='q'><partitionelement id='a1'><useroperator declaration='c'/><finiteintrangeconstant value='0'><finiteintrange start='-1' end='2'/></finiteintrangeconstant><dotconstant/></partitionelement>^<partitionelement id='a1'><useroperator declaration='c'/><finiteintrangeconstant value='0'><finiteintrange start='-1' end='2'/></finiteintrangeconstant><dotconstant/></partitionelement><dot/></partition>

fine <namedsort id='s'><finiteenumeration><feconstant id='c'/></finiteenumeration></namedsort>
fine <namedsort id='s'><finiteenumeration other='x'><name><text/><x/></name><feconstant id='c'/><graphics/><toolspecific><net/></toolspecific></finiteenumeration></namedsort>
unexpected <namedsort id='s'><finiteenumeration><feconstant id='c'/>^<text/></finiteenumeration></namedsort>
unexpected <namedsort id='s'><finiteenumeration><feconstant id='c'/>^<y/></finiteenumeration></namedsort>
unexpected <namedsort id='s'><finiteenumeration>^<y/><feconstant id='c'/></finiteenumeration></namedsort>

fine <namedsort id='s'><finiteenumeration><feconstant id='a1'/></finiteenumeration></namedsort>
fine <namedsort id='s'><finiteenumeration><feconstant id='a1' other='x'><name><text/><x/></name><graphics/><toolspecific><net/></toolspecific></feconstant></finiteenumeration></namedsort>
unexpected <namedsort id='s'><finiteenumeration><feconstant id='a1'>^<text/></feconstant></finiteenumeration></namedsort>
missing-attribute <namedsort id='s'><finiteenumeration>^<feconstant/></finiteenumeration></namedsort>
bad-id <namedsort id='s'><finiteenumeration>^<feconstant id='a b'/></finiteenumeration></namedsort>
bad-id <namedsort id='s'><finiteenumeration>^<feconstant id='a b'><y/></feconstant></finiteenumeration></namedsort>
unexpected <namedsort id='s'><finiteenumeration><feconstant id='a1'>^<y/></feconstant></finiteenumeration></namedsort>
duplicate-id <namedsort id='s'><finiteenumeration><feconstant id='a1'/>^<feconstant id='a1'/></finiteenumeration></namedsort>

fine <namedsort id='s'><cyclicenumeration><feconstant id='c'/></cyclicenumeration></namedsort>
fine <namedsort id='s'><cyclicenumeration other='x'><name><text/><x/></name><feconstant id='c'/><graphics/><toolspecific><net/></toolspecific></cyclicenumeration></namedsort>
unexpected <namedsort id='s'><cyclicenumeration><feconstant id='c'/>^<text/></cyclicenumeration></namedsort>
unexpected <namedsort id='s'><cyclicenumeration><feconstant id='c'/>^<y/></cyclicenumeration></namedsort>
unexpected <namedsort id='s'><cyclicenumeration>^<y/><feconstant id='c'/></cyclicenumeration></namedsort>

fine <namedsort id='s'><cyclicenumeration><feconstant id='a1'/></cyclicenumeration></namedsort>
fine <namedsort id='s'><cyclicenumeration><feconstant id='a1' other='x'><name><text/><x/></name><graphics/><toolspecific><net/></toolspecific></feconstant></cyclicenumeration></namedsort>
unexpected <namedsort id='s'><cyclicenumeration><feconstant id='a1'>^<text/></feconstant></cyclicenumeration></namedsort>
missing-attribute <namedsort id='s'><cyclicenumeration>^<feconstant/></cyclicenumeration></namedsort>
bad-id <namedsort id='s'><cyclicenumeration>^<feconstant id='a b'/></cyclicenumeration></namedsort>
bad-id <namedsort id='s'><cyclicenumeration>^<feconstant id='a b'><y/></feconstant></cyclicenumeration></namedsort>
unexpected <namedsort id='s'><cyclicenumeration><feconstant id='a1'>^<y/></feconstant></cyclicenumeration></namedsort>
duplicate-id <namedsort id='s'><cyclicenumeration><feconstant id='a1'/>^<feconstant id='a1'/></cyclicenumeration></namedsort>
duplicate-id <namedsort id='a'><finiteenumeration>^<feconstant id='a'/></finiteenumeration></namedsort>
duplicate-id <variabledecl id='a'><dot/></variabledecl>^<namedsort id='a'><dot/></namedsort>
duplicate-id <partition id='a1'><dot/></partition>^<partition id='a1'><dot/></partition>
duplicate-id <variabledecl id='a'><dot/></variabledecl>^<partition id='a'><dot/></partition>
duplicate-id <namedsort id='s'><finiteenumeration><feconstant id='a'/></finiteenumeration></namedsort>^<partition id='a'><dot/></partition>
duplicate-id <partition id='a'><dot/></partition>^<variabledecl id='a'><dot/></variabledecl>
duplicate-id <partition id='a'><dot/>^<partitionelement id='a'/></partition>
duplicate-id <partition id='a'><dot/><partitionelement id='e'/></partition><partition id='b'><dot/>^<partitionelement id='e'/></partition>
duplicate-id <namedsort id='a'><finiteenumeration><feconstant id='e'/></finiteenumeration></namedsort><namedsort id='b'><cyclicenumeration>^<feconstant id='e'/></cyclicenumeration></namedsort>
",
};

#[test]
fn declarations_break_what_is_said(rt: HostRuntime) -> Result<(), Fail> {
    assert_eq!(rt; first_wrong(rt.alloc(), &DECLARATIONS)?, None);
    Ok(())
}

/// An element of a name with an id of its own, up to the quote behind the id: a letter and six digits of a number, the last one
/// first.
fn put_node(text: &mut Vec<u8>, start: &[u8], number: u32) -> Result<(), Fail> {
    text.extend_from_slice(start)?;
    let mut rest = number;
    for _ in 0..6 {
        text.push(b'0' + (rest % 10) as u8)?;
        rest /= 10;
    }
    text.push(b'\'')?;
    Ok(())
}

/// A net of so many places, and of so many arcs from a place to a transition.
fn large_net(alloc: Global, count: u32) -> Result<Vec<u8>, Fail> {
    let mut text = Vec::from_slice(
        alloc,
        b"<pnml><net id='n' type='http://www.pnml.org/version-2009/grammar/ptnet'><page id='g'><transition id='t'/>",
    )?;
    for number in 0..count {
        put_node(&mut text, b"<place id='p", number)?;
        text.extend_from_slice(b"/>")?;
    }
    for number in 0..count {
        put_node(&mut text, b"<arc id='a", number)?;
        text.extend_from_slice(b" source='p000000' target='t'/>")?;
    }
    text.extend_from_slice(b"</page></net></pnml>")?;
    Ok(text)
}

#[test]
fn a_large_net_breaks_no_rule(rt: HostRuntime) -> Result<(), Fail> {
    let text = large_net(rt.alloc(), 70_000)?;
    assert_eq!(rt; breaks(rt.alloc(), &text, Ok(())), true);
    Ok(())
}
