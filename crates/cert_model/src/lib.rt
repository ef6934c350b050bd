//! What a certificate must show of a reduced net, and what it then shows.
//!
//! The definitions in `specs/` speak of plain data with numbers in the place of names, unbounded
//! sums and lists of all instances: `Nets` and `Formulas` of a reduced net, its runs and its
//! formulas, `Facts` of flows, traps and bounds with their obligations, `Paths` and `Trees` of the
//! case tree, `Judging` of the judgements, `Names` of the first line with an unknown name. The
//! functions here do nothing: each one's contract is a law over these definitions.
#![tactic(auto)]

ghost use Rattle.cert_model.specs.Examples.{ExamplesAreRight};
ghost use Rattle.cert_model.specs.Laws.{FactsHold, NodesLeaveNoneOut, ShownIsInvariant, ShownSectionsHold, TreesRefute};

/// Whether an obligation is true, within sums of 128 bits.
#[derive(Clone, Copy, Debug, PartialEq, Eq)]
pub enum Check {
    /// No sign rule is broken, what is named is there, every listed sum is in range, and the
    /// condition holds.
    True,
    /// A sign rule is broken or a named hypothesis or choice isn't there, or every listed sum is in
    /// range and the condition fails.
    False,
    /// No sign rule is broken, what is named is there, and the absolute values of the terms of a
    /// listed sum add up past 2^127 - 1.
    Wide,
}

/// Where every obligation of the facts is true, each marking that the reduced net reaches meets
/// the meaning of each fact.
pub fn facts_hold()
    ensures { FactsHold }
{}

/// At a node whose obligation is true, a marking that meets the path's state meets that of some
/// branch; at a true `close` or `clash` none meets it.
pub fn nodes_leave_none_out()
    ensures { NodesLeaveNoneOut }
{}

/// Where all obligations of a tree are true, its invariant is true at each marking that meets the
/// facts.
pub fn trees_refute()
    ensures { TreesRefute }
{}

/// Where all obligations of the facts and of a tree are true, the tree's invariant is true at each
/// marking that the reduced net reaches.
pub fn shown_is_invariant()
    ensures { ShownIsInvariant }
{}

/// Where a section is judged `Shown`, its invariant is true at each marking that the reduced net
/// reaches. Where the whole certificate is judged `Shown`, each section is.
pub fn shown_sections_hold()
    ensures { ShownSectionsHold }
{}

/// The definitions give the judgements of small certificates.
pub fn examples_are_right()
    ensures { ExamplesAreRight }
{}
