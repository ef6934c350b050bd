ghost use Rattle.std.specs.Prelude.{◌≡◌, length};

use std::marker::Model;

/// The constant of a form.
#[derive(Clone, Copy, Debug, PartialEq, Eq)]
pub enum Constant {
    /// A number whose terms have absolute values that add up to at most 2^127 - 1.
    Value(i128),
    /// The absolute values of its terms add up past 2^127 - 1.
    Wide,
}

/// The coefficient of a form on a place.
#[derive(Clone, Copy, Debug, PartialEq, Eq)]
pub struct Term {
    /// The number of the place.
    pub place: u32,
    /// The coefficient.
    pub value: i64,
}

/// A whole number per place and a constant: terms with strictly rising places, and 0 on all others.
#[derive(Debug, Drop)]
pub struct Form {
    terms: Vec<Term>,
    constant: Constant,
}

impl Model for Form {
    ghost use Rattle.linear_cert.specs.Sparse.{SparseForm, sparse, IsSparse};

    ghost Value = { SparseForm };

    ghost view = { λ f. sparse f.terms.items f.constant };

    ghost invariant = { λ f. IsSparse (sparse f.terms.items f.constant) };
}

impl Form {
    ghost use Rattle.linear_cert.specs.Sparse.{IsSparse, coefficient_in, sparse};

    /// The form with these terms, whose places rise strictly, and this constant, whose absolute
    /// value is at most 2^127 - 1.
    pub fn new(terms: Vec<Term>, constant: Constant) -> Form
        requires { IsSparse (sparse terms.items constant) }
        ensures { result ≡ sparse terms.items constant }
    {
        Form { terms, constant }
    }

    /// The terms, by rising place.
    pub fn terms(&self) -> &[Term]
        ensures terms { result.now ≡ self.now.terms }
        ensures sparse { IsSparse self.now }
    {
        self.terms.as_slice()
    }

    /// The constant.
    pub fn constant(&self) -> Constant
        ensures constant { result ≡ self.now.constant }
        ensures sparse { IsSparse self.now }
    {
        self.constant
    }

    /// The coefficient on a place, 0 where there is no term, found by halving.
    pub fn coefficient(&self, place: u32) -> i64
        ensures { result ≡ coefficient_in self.now.terms place }
    {
        match self.terms.binary_search_by_key(&place, |term| term.place) {
            Ok(found) => self.terms[found].value,
            Err(_) => 0,
        }
    }
}
