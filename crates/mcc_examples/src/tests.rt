use crate::files::{found, properties_of};
use crate::rows::{Rows, first_wrong};
use mcc_formula::FormulaFault;
use std::test::Fail;

static ROOTS: Rows = Rows {
    before: b"",
    behind: b"",
    lines: b"\
fine <property-set/>
fine <property-set xmlns='x' id='*'> text </property-set>
unexpected ^<property/>
unexpected   ^<Property-set/>
unexpected ^<pnml><property-set/></pnml>
unexpected ^<formula/>
unexpected <property-set>^<a/></property-set>
",
};

#[test]
fn the_root_breaks_what_is_said(rt: HostRuntime) -> Result<(), Fail> {
    assert_eq!(rt; first_wrong(rt.alloc(), &ROOTS)?, None);
    Ok(())
}

static PROPERTIES: Rows = Rows {
    before: b"<property-set>",
    behind: b"</property-set>",
    lines: b"\
fine <property><id>P</id><formula><x/></formula></property>
fine <property><formula><x/></formula><id>P</id></property>
fine <property a='b'>text<description>d<x/></description><id c='*'> P\t</id><tags/><formula>text<x><y/></x></formula></property>
fine <property><id>P</id><formula><property/></formula></property>
fine <property><name/><graphics/><toolspecific/><text/><property/><place/><id>P</id><formula><name/></formula><description/></property>
missing-child ^<property/>
missing-child ^<property>id</property>
missing-child ^<property><id>P</id></property>
missing-child ^<property><formula><x/></formula></property>
missing-child ^<property><description><id>P</id><formula><x/></formula></description></property>
unexpected ^<id>P</id>
unexpected ^<formula><x/></formula>
unexpected ^<description/>
unexpected ^<name/>
unexpected ^<text/>
unexpected ^<graphics/>
unexpected ^<toolspecific/>
unexpected ^<property-set/>
unexpected ^<Property/>
unexpected ^<x/><property/>
unexpected <property><id>P</id>^<id>P</id><formula><x/></formula></property>
unexpected <property><id>P</id>^<id>Q</id></property>
unexpected <property><id>P</id><description/>^<id>*</id></property>
unexpected <property><id>P</id><formula><x/></formula>^<formula><x/></formula></property>
unexpected <property><formula><x/></formula>^<formula/><id>*</id></property>
missing-child <property><id>P</id>^<formula/></property>
missing-child <property>^<formula>text</formula><id>*</id></property>
missing-child <property>^<formula><!-- x --></formula></property>
unexpected <property><id>P</id><formula><x/>^<y/></formula></property>
unexpected <property><id>P</id><formula><x/>^<x/><y/></formula></property>
unexpected <property><formula><x/>^<description/></formula></property>
bad-id <property>^<id/><formula><x/></formula></property>
bad-id <property>^<id> </id><formula><x/></formula></property>
bad-id <property>^<id>a b</id><formula><x/></formula></property>
bad-id <property>^<id>a&amp;b</id><formula><x/></formula></property>
bad-id <property>^<id>*</id><formula/></property>
bad-id <property>^<id>a,b</id></property>
fine <property><id>\xc3\xa9-.:_9\xe2\x82\xac</id><formula><x/></formula></property>
fine <property><id>&#80;</id><formula><x/></formula></property>
fine <property><id>&#32;P&#10;</id><formula><x/></formula></property>
unexpected <property><id>^<x/>P</id><formula><x/></formula></property>
unexpected <property><id>^<x/></id></property>
unexpected <property><id>*^<description/><x/></id></property>
fine <property><id>P</id><formula><x/></formula></property><property><id>Q</id><formula><x/></formula></property><property><id>p</id><formula><x/></formula></property>
duplicate-id <property><id>P</id><formula><x/></formula></property><property>^<id>P</id><formula><x/></formula></property>
duplicate-id <property><id> P </id><formula><x/></formula></property><property><formula><x/></formula>^<id>P</id></property>
duplicate-id <property><id>P</id><formula><x/></formula></property><property><id>Q</id><formula><x/></formula></property><property>^<id>\tP</id><formula/></property>
duplicate-id <property><id>P</id><formula><x/></formula></property><property>^<id>P</id></property>
unexpected <property><id>P</id><formula><x/></formula></property><property><id>^<x/>P</id><formula><x/></formula></property>
missing-child <property><id>P</id><formula><x/></formula></property><property>^<formula/><id>P</id></property>
missing-child <property><id>P</id><formula><x/></formula></property>^<property><formula><x/></formula></property>
",
};

#[test]
fn properties_break_what_is_said(rt: HostRuntime) -> Result<(), Fail> {
    assert_eq!(rt; first_wrong(rt.alloc(), &PROPERTIES)?, None);
    Ok(())
}

static PATHS: Rows = Rows {
    before: b"<property-set><property><id>P</id>",
    behind: b"</property></property-set>",
    lines: b"\
A?0 <formula><all-paths><globally><is-fireable><transition>t</transition></is-fireable></globally></all-paths></formula>
E?0 <formula><exists-path><finally><is-fireable><transition>t</transition></is-fireable></finally></exists-path></formula>
A?0 <formula a='b'>x<all-paths a='b'>x<globally a='b'>x<is-fireable a='b'>x<transition a='b'>t</transition></is-fireable></globally></all-paths></formula>
not-reachability <formula>^<globally/></formula>
not-reachability <formula>^<x/></formula>
not-reachability <formula>^<is-fireable><transition>t</transition></is-fireable></formula>
not-reachability <formula>^<name/></formula>
not-reachability <formula>^<all-paths/></formula>
not-reachability <formula>^<exists-path>text</exists-path></formula>
not-reachability <formula><all-paths>^<finally><is-fireable/></finally></all-paths></formula>
not-reachability <formula><all-paths>^<next/></all-paths></formula>
not-reachability <formula><all-paths>^<until/></all-paths></formula>
not-reachability <formula><exists-path>^<globally><is-fireable/></globally></exists-path></formula>
not-reachability <formula><all-paths>^<all-paths/></all-paths></formula>
not-reachability <formula><all-paths>^<globally/></all-paths></formula>
not-reachability <formula><exists-path>^<finally/></exists-path></formula>
not-reachability <formula><all-paths><globally><is-fireable><transition>t</transition></is-fireable></globally>^<globally/></all-paths></formula>
not-reachability <formula><all-paths><globally><is-fireable><transition>t</transition></is-fireable></globally>^<x/></all-paths></formula>
not-reachability <formula><exists-path><finally><is-fireable><transition>t</transition></is-fireable>^<is-fireable><transition>t</transition></is-fireable></finally></exists-path></formula>
not-reachability <formula><exists-path><finally>^<globally/></finally></exists-path></formula>
not-reachability <formula><exists-path><finally>^<deadlock/></finally></exists-path></formula>
not-reachability <formula><exists-path><finally>^<all-paths/></finally></exists-path></formula>
not-reachability <formula><exists-path><finally>^<tokens-count><place>p0</place></tokens-count></finally></exists-path></formula>
not-reachability <formula><exists-path><finally>^<integer-constant>1</integer-constant></finally></exists-path></formula>
not-reachability <formula><exists-path><finally>^<place>p0</place></finally></exists-path></formula>
not-reachability <formula><exists-path><finally>^<transition>t</transition></finally></exists-path></formula>
not-reachability <formula><exists-path><finally>^<formula/></finally></exists-path></formula>
not-reachability <formula><exists-path><finally>^<description/></finally></exists-path></formula>
",
};

#[test]
fn paths_are_what_is_said(rt: HostRuntime) -> Result<(), Fail> {
    assert_eq!(rt; first_wrong(rt.alloc(), &PATHS)?, None);
    Ok(())
}

static STATES: Rows = Rows {
    before: b"<property-set><property><id>P</id><formula><all-paths><globally>",
    behind: b"</globally></all-paths></formula></property></property-set>",
    lines: b"\
A!?0 <negation><is-fireable><transition>t</transition></is-fireable></negation>
A!!?2 <negation><negation><is-fireable><transition>u</transition></is-fireable></negation></negation>
not-reachability ^<negation/>
not-reachability ^<negation>text</negation>
not-reachability <negation>^<x/></negation>
not-reachability <negation>^<place>p0</place></negation>
not-reachability <negation><is-fireable><transition>t</transition></is-fireable>^<is-fireable/></negation>

A&(?0) <conjunction><is-fireable><transition>t</transition></is-fireable></conjunction>
A&(?0)(1<=2) <conjunction><is-fireable><transition>t</transition></is-fireable><integer-le><integer-constant>1</integer-constant><integer-constant>2</integer-constant></integer-le></conjunction>
A&(?0)(?0)(?0) <conjunction><is-fireable><transition>t</transition></is-fireable><is-fireable><transition>t</transition></is-fireable><is-fireable><transition>t</transition></is-fireable></conjunction>
not-reachability ^<conjunction/>
not-reachability <conjunction><is-fireable><transition>t</transition></is-fireable>^<integer-constant>1</integer-constant></conjunction>
not-reachability <conjunction>^<integer-le/><x/></conjunction>
not-reachability <conjunction>^<description/></conjunction>

A|(!?0) <disjunction><negation><is-fireable><transition>t</transition></is-fireable></negation></disjunction>
A|(&(?0)(?2))(|(?1)) <disjunction><conjunction><is-fireable><transition>t</transition></is-fireable><is-fireable><transition>u</transition></is-fireable></conjunction><disjunction><is-fireable><transition>both</transition></is-fireable></disjunction></disjunction>
not-reachability ^<disjunction/>
not-reachability <disjunction>^<globally/></disjunction>
not-reachability <disjunction><is-fireable><transition>t</transition></is-fireable>^<tokens-count><place>p0</place></tokens-count></disjunction>

A?0,2 <is-fireable><transition>t</transition><transition>u</transition></is-fireable>
A?2,2 <is-fireable><transition>u</transition><transition>u</transition></is-fireable>
A?1 <is-fireable><transition> both </transition></is-fireable>
not-reachability ^<is-fireable/>
not-reachability ^<is-fireable>t</is-fireable>
not-reachability <is-fireable>^<place>t</place></is-fireable>
not-reachability <is-fireable><transition>t</transition>^<x/></is-fireable>
not-reachability <is-fireable>^<transition/></is-fireable>
not-reachability <is-fireable>^<transition>a b</transition></is-fireable>
not-reachability <is-fireable>^<transition>*</transition><transition>zz</transition></is-fireable>
not-reachability <is-fireable><transition>^<x/>t</transition></is-fireable>
not-reachability <is-fireable><transition>zz^<x/></transition></is-fireable>
unknown-node <is-fireable>^<transition>zz</transition></is-fireable>
unknown-node <is-fireable>^<transition>zz</transition><x/></is-fireable>
unknown-node <is-fireable>^<transition>p0</transition></is-fireable>
unknown-node <is-fireable>^<transition>T</transition></is-fireable>
unknown-node <is-fireable>^<transition>an-arc</transition></is-fireable>
unknown-node <is-fireable><transition>t</transition>^<transition>a-reference</transition></is-fireable>
",
};

#[test]
fn states_are_what_is_said(rt: HostRuntime) -> Result<(), Fail> {
    assert_eq!(rt; first_wrong(rt.alloc(), &STATES)?, None);
    Ok(())
}

static COUNTS: Rows = Rows {
    before: b"<property-set><property><id>P</id><formula><exists-path><finally>",
    behind: b"</finally></exists-path></formula></property></property-set>",
    lines: b"\
E#0<=1 <integer-le><tokens-count><place>p0</place></tokens-count><integer-constant>1</integer-constant></integer-le>
E1<=#1,0,2 <integer-le><integer-constant>1</integer-constant><tokens-count><place>p1</place><place>p0</place><place>both</place></tokens-count></integer-le>
E#0,0<=#1 <integer-le><tokens-count><place>p0</place><place>p0</place></tokens-count><tokens-count><place>p1</place></tokens-count></integer-le>
E0<=0 <integer-le><integer-constant>0</integer-constant><integer-constant>00</integer-constant></integer-le>
E7<=9223372036854775807 <integer-le><integer-constant> 007\t</integer-constant><integer-constant>9223372036854775807</integer-constant></integer-le>
not-reachability ^<integer-le/>
not-reachability ^<integer-le><integer-constant>0</integer-constant></integer-le>
not-reachability <integer-le>^<integer-constant>-1</integer-constant></integer-le>
not-reachability <integer-le><integer-constant>0</integer-constant><integer-constant>0</integer-constant>^<integer-constant>0</integer-constant></integer-le>
not-reachability <integer-le><integer-constant>0</integer-constant><integer-constant>0</integer-constant>^<x/></integer-le>
not-reachability <integer-le>^<is-fireable><transition>t</transition></is-fireable><integer-constant>0</integer-constant></integer-le>
not-reachability <integer-le><integer-constant>0</integer-constant>^<place>p0</place></integer-le>
not-reachability <integer-le>^<integer-sum/></integer-le>
not-reachability <integer-le>^<description/></integer-le>

not-reachability <integer-le><integer-constant>0</integer-constant>^<integer-constant>9223372036854775808</integer-constant></integer-le>
not-reachability <integer-le><integer-constant>0</integer-constant>^<integer-constant>-1</integer-constant></integer-le>
not-reachability <integer-le><integer-constant>0</integer-constant>^<integer-constant>+1</integer-constant></integer-le>
not-reachability <integer-le><integer-constant>0</integer-constant>^<integer-constant>1 2</integer-constant></integer-le>
not-reachability <integer-le><integer-constant>0</integer-constant>^<integer-constant/></integer-le>
not-reachability <integer-le><integer-constant>0</integer-constant>^<integer-constant>x</integer-constant></integer-le>
not-reachability <integer-le><integer-constant>x^<place/></integer-constant></integer-le>
not-reachability <integer-le><integer-constant>^<integer-constant>1</integer-constant></integer-constant></integer-le>

not-reachability <integer-le>^<tokens-count/></integer-le>
not-reachability <integer-le>^<tokens-count>p0</tokens-count><integer-constant>0</integer-constant></integer-le>
not-reachability <integer-le><tokens-count>^<transition>t</transition></tokens-count></integer-le>
not-reachability <integer-le><tokens-count><place>p0</place>^<x/></tokens-count></integer-le>
not-reachability <integer-le><tokens-count>^<place/></tokens-count></integer-le>
not-reachability <integer-le><tokens-count>^<place>p 0</place></tokens-count></integer-le>
not-reachability <integer-le><tokens-count>^<place>p0,p1</place></tokens-count></integer-le>
not-reachability <integer-le><tokens-count><place>^<name/>p0</place></tokens-count></integer-le>
not-reachability <integer-le><tokens-count><place>zz^<x/></place></tokens-count></integer-le>
unknown-node <integer-le><tokens-count>^<place>zz</place></tokens-count><integer-constant>1</integer-constant></integer-le>
unknown-node <integer-le><tokens-count>^<place>zz</place></tokens-count></integer-le>
unknown-node <integer-le><tokens-count>^<place>t</place><x/></tokens-count></integer-le>
unknown-node <integer-le><tokens-count><place>p0</place>^<place>P0</place></tokens-count><x/></integer-le>
unknown-node <integer-le><tokens-count>^<place>an-arc</place></tokens-count></integer-le>
unknown-node <integer-le><tokens-count>^<place>a-reference</place></tokens-count></integer-le>
",
};

#[test]
fn counts_are_what_is_said(rt: HostRuntime) -> Result<(), Fail> {
    assert_eq!(rt; first_wrong(rt.alloc(), &COUNTS)?, None);
    Ok(())
}

#[test]
fn no_property_has_another_id(rt: HostRuntime) -> Result<(), Fail> {
    let text =
        b"<property-set><property><id>P</id><formula><x/></formula></property></property-set>";
    let Ok(properties) = properties_of(rt.alloc(), text) else {
        assert!(rt; false);
        return Ok(());
    };
    let there = found(&properties, b"P");
    let missing = found(&properties, b"Q");
    assert!(rt; there == Ok(0));
    assert!(rt; missing == Err(FormulaFault::NoProperty));
    assert!(rt; found(&properties, b"") == Err(FormulaFault::NoProperty));
    Ok(())
}
