ghost use Rattle.std.specs.Prelude.{◌≡◌, ◌+◌, ◌≤◌, ◌^◌, List, ℕ, true, false};
ghost use Rattle.colour_sorts.specs.Limits.{broken_in, passes_limit as is_past_limit};
ghost use Rattle.colour_sorts.specs.declared.sorts.Sort.{Sort};
ghost use Rattle.colour_sorts.specs.Judging.{AreCapped, IsFacts, joined};

use crate::rules::Rule;

/// What the rules ask of a sort whose names are followed, with numbers that stop just above their
/// limits.
#[derive(Clone, Copy, Debug, PartialEq, Eq)]
pub(crate) struct Facts {
    pub(crate) is_known: bool,
    pub(crate) is_upside_down: bool,
    pub(crate) lacks_constants: bool,
    pub(crate) lacks_components: bool,
    pub(crate) size: u64,
    pub(crate) sorts: u64,
    pub(crate) depth: u64,
}

/// How far a named sort is.
#[derive(Clone, Copy, Debug, PartialEq, Eq)]
pub(crate) enum Mark {
    /// It isn't done.
    Fresh,
    /// All that it leads to is done.
    Done(Facts),
}

impl Facts {
    /// Whether the sort passes the limits.
    pub(crate) fn passes_limit(&self) -> bool
        ensures { (constants : List (List (List ℕ))) (s : Sort) → IsFacts constants s self.now → result ≡ is_past_limit constants s }
    {
        self.size > 1_048_576 || self.sorts > 4_096 || self.depth > 256
    }

    /// The first rule that the sort breaks, where all names are known.
    pub(crate) fn broken(&self) -> Option<Rule>
        ensures { (constants : List (List (List ℕ))) (s : Sort) → IsFacts constants s self.now → result ≡ broken_in constants s }
    {
        if self.is_upside_down {
            Some(Rule::RangeUpsideDown)
        } else if self.lacks_constants {
            Some(Rule::EmptySort)
        } else if self.lacks_components {
            Some(Rule::EmptyProduct)
        } else if self.passes_limit() {
            Some(Rule::DomainLimit)
        } else {
            None
        }
    }

    /// A sort that is no product, with so many colours.
    pub(crate) fn leaf(size: u64) -> Facts
        requires { size ≤ 2 ^ 20 + 1 }
        ensures { result ≡ record { is_known = true; is_upside_down = false; lacks_constants = false; lacks_components = false; size = size; sorts = 1; depth = 1 } }
    {
        Facts {
            is_known: true,
            is_upside_down: false,
            lacks_constants: false,
            lacks_components: false,
            size,
            sorts: 1,
            depth: 1,
        }
    }

    /// The product without components as a start, where it is one or where some follow.
    pub(crate) fn no_product(is_empty: bool) -> Facts
        ensures { result ≡ record { is_known = true; is_upside_down = false; lacks_constants = false; lacks_components = is_empty; size = 1; sorts = 1; depth = 1 } }
    {
        Facts {
            is_known: true,
            is_upside_down: false,
            lacks_constants: false,
            lacks_components: is_empty,
            size: 1,
            sorts: 1,
            depth: 1,
        }
    }

    /// The product of these components with one more.
    pub(crate) fn with(&self, part: &Facts) -> Facts
        requires one { AreCapped self.now }
        requires two { AreCapped part.now }
        ensures { result ≡ joined self.now part.now }
    {
        Facts {
            is_known: self.is_known && part.is_known,
            is_upside_down: self.is_upside_down || part.is_upside_down,
            lacks_constants: self.lacks_constants || part.lacks_constants,
            lacks_components: self.lacks_components || part.lacks_components,
            size: (self.size * part.size).min(1_048_577),
            sorts: (self.sorts + part.sorts).min(4_097),
            depth: self.depth.max(part.depth + 1).min(257),
        }
    }
}
