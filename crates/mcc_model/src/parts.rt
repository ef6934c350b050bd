ghost use Rattle.std.specs.Prelude.{◌≡◌};
ghost use Rattle.mcc_model.specs.Table.{word_of};

/// How an element of a formula is read: a row of the table of formulas.
#[derive(Clone, Copy, Debug, PartialEq, Eq)]
pub enum Part {
    /// `formula`. The whole formula of a property.
    Whole,
    /// `all-paths`. Each run.
    AllPaths,
    /// `exists-path`. Some run.
    ExistsPath,
    /// `globally`. Each marking of a run.
    Globally,
    /// `finally`. Some marking of a run.
    Finally,
    /// `negation`. Not a formula.
    Negation,
    /// `conjunction`. All of some formulas.
    Conjunction,
    /// `disjunction`. Some of some formulas.
    Disjunction,
    /// `integer-le`. One number is at most another one.
    IntegerLe,
    /// `tokens-count`. The tokens on some places.
    TokensCount,
    /// `integer-constant`. A number.
    IntegerConstant,
    /// `is-fireable`. One of some transitions can fire.
    IsFireable,
    /// `place`. The id of a place.
    Place,
    /// `transition`. The id of a transition.
    Transition,
}

/// The name of the elements of a part.
pub fn word_of(part: Part) -> &'static [u8]
    ensures { result.now ≡ word_of part }
{
    match part {
        Part::Whole => b"formula",
        Part::AllPaths => b"all-paths",
        Part::ExistsPath => b"exists-path",
        Part::Globally => b"globally",
        Part::Finally => b"finally",
        Part::Negation => b"negation",
        Part::Conjunction => b"conjunction",
        Part::Disjunction => b"disjunction",
        Part::IntegerLe => b"integer-le",
        Part::TokensCount => b"tokens-count",
        Part::IntegerConstant => b"integer-constant",
        Part::IsFireable => b"is-fireable",
        Part::Place => b"place",
        Part::Transition => b"transition",
    }
}
