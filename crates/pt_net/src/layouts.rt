ghost use Rattle.std.specs.Prelude.{◌≡◌, ◌+◌, ◌<◌, length, slice_index};

use name_tables::Ids;
use std::marker::Model;

/// How the place instances and the candidate bindings of a net are numbered.
///
/// The instances of a place are those from its start up to and without the start of the next place.
/// The starts begin with 0 and never fall, and there is one more than there are places. There is one
/// number of candidate bindings for each transition.
#[derive(Debug, Drop)]
pub struct Layout {
    places: Ids,
    starts: Vec<u32>,
    transitions: Ids,
    bindings: Vec<u32>,
}

impl Model for Layout {
    ghost use Rattle.pt_net.specs.Numbering.{NetNumbering, numbering_of, IsNumbering};

    ghost Value = { NetNumbering };

    ghost view = { λ l. numbering_of l.places l.starts.items l.transitions l.bindings.items };

    ghost invariant = { λ l. IsNumbering (numbering_of l.places l.starts.items l.transitions l.bindings.items) };
}

impl Layout {
    ghost use Rattle.pt_net.specs.Numbering.{IsNumbering, numbering_of};

    /// The layout of these places and transitions, by their ids. `starts` has the first instance of
    /// each place and at its end the number of all of them, and `bindings` the number of candidate
    /// bindings of each transition.
    pub fn new(places: Ids, starts: Vec<u32>, transitions: Ids, bindings: Vec<u32>) -> Layout
        requires { IsNumbering (numbering_of places starts.items transitions bindings.items) }
        ensures { result ≡ numbering_of places starts.items transitions bindings.items }
    {
        Layout {
            places,
            starts,
            transitions,
            bindings,
        }
    }

    /// The ids of the places.
    pub fn places(&self) -> &Ids
        ensures { result.now ≡ self.now.places }
    {
        &self.places
    }

    /// The first instance of a place; one past the last place, the number of all instances.
    pub fn start(&self, place: u32) -> u32
        requires { place < length self.now.places + 1 }
        ensures { result ≡ slice_index self.now.starts place }
    {
        self.starts[place as usize]
    }

    /// The first instance of each place, and at the end the number of all instances.
    pub fn starts(&self) -> &[u32]
        ensures starts { result.now ≡ self.now.starts }
        ensures numbering { IsNumbering self.now }
    {
        self.starts.as_slice()
    }

    /// The ids of the transitions.
    pub fn transitions(&self) -> &Ids
        ensures { result.now ≡ self.now.transitions }
    {
        &self.transitions
    }

    /// The number of candidate bindings of each transition.
    pub fn bindings(&self) -> &[u32]
        ensures bindings { result.now ≡ self.now.bindings }
        ensures numbering { IsNumbering self.now }
    {
        self.bindings.as_slice()
    }
}
