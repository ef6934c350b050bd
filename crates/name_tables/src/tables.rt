ghost use Rattle.std.specs.Prelude.{◌≡◌, ℕ, ◌<◌, IfSome, IfNone, Some, slice_get};
ghost use Rattle.name_tables.specs.Numbering.{number_in};

use std::marker::Model;

/// A fixed list of `N` names in strictly rising byte order, each with a tag: its place, from 0. `N` is at most 65,536.
/// Contracts see the list of the names.
#[derive(Debug, Drop)]
pub struct Table<const N: usize> {
    pub(crate) words: &'static [&'static [u8]],
}

impl<const N: usize> Model for Table<N> {
    ghost use Rattle.std.specs.Prelude.{ℕ, ◌≡◌, ◌≤◌, List, IsTrue, length, map};
    ghost use Rattle.name_tables.specs.Tables.{are_rising};

    ghost Value = { List (List ℕ) };

    ghost view = { λ table. map (λ word. word.now) table.words.now };

    ghost invariant = { λ table. (length table.words.now ≡ N) × (N ≤ 65536)
        × IsTrue (are_rising (map (λ word. word.now) table.words.now)) };
}

impl<const N: usize> Table<N> {
    /// The tag of a name, or `None` where no row has the name.
    pub fn find(&self, name: &[u8]) -> Option<u16>
        ensures place { result ≡ number_in self.now name.now }
        ensures within { IfSome result (λ tag. tag < N) }
        ensures found { IfSome result (λ tag. slice_get self.now tag ≡ Some name.now) }
        ensures none { IfNone result ((tag : ℕ) → slice_get self.now tag ≡ Some name.now → ⊥) }
    {
        match self.words.binary_search(&name) {
            Ok(tag) => Some(tag as u16),
            Err(_) => None,
        }
    }

    /// The name of a tag, which is below `N`. Since the names are distinct, finding that name gives the tag again.
    pub fn text(&self, tag: u16) -> &'static [u8]
        requires { tag < N }
        ensures text { slice_get self.now tag ≡ Some result.now }
        ensures distinct { number_in self.now result.now ≡ Some tag }
    {
        self.words[tag as usize]
    }
}
