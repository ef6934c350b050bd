ghost use Rattle.std.specs.Prelude.{◌≡◌, ◌<◌, ◌≤◌, ◌^◌};
ghost use Rattle.colour_sorts.specs.Colours.{size};
ghost use Rattle.colour_sorts.specs.Places.{IsCyclic, before_of, next_of};

use crate::domains::Domains;
use crate::sorts::Sort;

impl Domains {
    /// The number of the colour after a colour of a cyclic enumeration; the first follows the last.
    /// It takes no memory.
    pub fn next_in_cycle(&self, sort: &Sort, index: u32) -> u32
        requires cyclic { IsCyclic sort.now }
        requires within { index < size self.now.constants sort.now }
        requires limit { size self.now.constants sort.now ≤ 2 ^ 20 }
        ensures { result ≡ next_of (size self.now.constants sort.now) index }
    {
        if index + 1 == self.size(sort) {
            0
        } else {
            index + 1
        }
    }

    /// The number of the colour before a colour of a cyclic enumeration; the last is before the
    /// first. It takes no memory.
    pub fn before_in_cycle(&self, sort: &Sort, index: u32) -> u32
        requires cyclic { IsCyclic sort.now }
        requires within { index < size self.now.constants sort.now }
        requires limit { size self.now.constants sort.now ≤ 2 ^ 20 }
        ensures { result ≡ before_of (size self.now.constants sort.now) index }
    {
        if index == 0 {
            self.size(sort) - 1
        } else {
            index - 1
        }
    }
}
