ghost use Rattle.std.specs.Prelude.{◌≡◌};
ghost use Rattle.mcc_model.specs.Table.{fewest, has_room, may_have_more, part_named, part_of_child, parts_of};

use mcc_model::{Part, word_of};

const STATES: &[Part] = &[
    Part::Negation,
    Part::Conjunction,
    Part::Disjunction,
    Part::IntegerLe,
    Part::IsFireable,
];

/// What the children of a part may be.
fn parts_of(part: Part) -> &'static [Part]
    ensures { result.now ≡ parts_of part }
{
    match part {
        Part::Whole => &[Part::AllPaths, Part::ExistsPath],
        Part::AllPaths => &[Part::Globally],
        Part::ExistsPath => &[Part::Finally],
        Part::Globally | Part::Finally | Part::Negation | Part::Conjunction | Part::Disjunction =>
            STATES,
        Part::IntegerLe => &[Part::TokensCount, Part::IntegerConstant],
        Part::TokensCount => &[Part::Place],
        Part::IsFireable => &[Part::Transition],
        Part::IntegerConstant | Part::Place | Part::Transition => &[],
    }
}

/// How many children there are at least.
pub fn fewest(part: Part) -> usize
    ensures { result ≡ fewest part }
{
    match part {
        Part::IntegerLe => 2,
        Part::IntegerConstant | Part::Place | Part::Transition => 0,
        _ => 1,
    }
}

fn may_have_more(part: Part) -> bool
    ensures { result ≡ may_have_more part }
{
    matches!(
        part,
        Part::Conjunction | Part::Disjunction | Part::TokensCount | Part::IsFireable
    )
}

fn has_room(part: Part, before: usize) -> bool
    ensures { result ≡ has_room part before }
{
    may_have_more(part) || before < fewest(part)
}

/// The first of some parts whose elements have this name.
pub fn part_named(parts: &[Part], name: &[u8]) -> Option<Part>
    ensures { result ≡ part_named parts.now name.now }
{
    for part in parts {
        if name == word_of(*part) {
            return Some(*part);
        }
    }
    None
}

/// How a child of this name is read that stands behind so many others, or `None` where it may not stand there.
pub fn part_of_child(parent: Part, before: usize, name: &[u8]) -> Option<Part>
    ensures { result ≡ part_of_child parent before name.now }
{
    if has_room(parent, before) {
        part_named(parts_of(parent), name)
    } else {
        None
    }
}
