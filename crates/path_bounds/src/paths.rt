ghost use Rattle.std.specs.Prelude.{◌≡◌, ◌<◌, ◌≤◌, length, max, IfOk, OnOk, OnErr};
ghost use Rattle.path_bounds.specs.Held.{AreBounds, cut_to, nothing_named, with_lower, with_room, with_upper};

use crate::bounds::Bounds;
use crate::trails::{Named, cut_lowers, cut_uppers, name_lower, name_upper};
use std::alloc::Global;
use std::marker::Model;
use wide_sums::Memory;

/// The bounds of places along a path, seen as the bounds that were named, with the room for more.
#[derive(Debug, Drop)]
pub struct PathBounds {
    bounds: Bounds,
    lowers: Vec<Named<u64>>,
    uppers: Vec<Named<Option<u64>>>,
    room: usize,
}

impl Model for PathBounds {
    ghost use Rattle.std.specs.Prelude.{◌≡◌, ◌≤◌, None, vec_capacity, vec_len};
    ghost use Rattle.cert_model.specs.Paths.{lower_of, upper_of};
    ghost use Rattle.path_bounds.specs.Held.{Held};
    ghost use Rattle.path_bounds.specs.Following.{names_of, IsTrail};

    ghost Value = { Held };

    ghost view = { λ p. record {
      places = vec_len p.bounds.lower;
      room = p.room;
      lowers = names_of p.lowers.items;
      uppers = names_of p.uppers.items;
    } };

    ghost invariant = { λ p. (vec_len p.bounds.upper ≡ vec_len p.bounds.lower)
        × (p.room ≤ vec_capacity p.lowers) × (p.room ≤ vec_capacity p.uppers)
        × IsTrail 0 lower_of p.bounds.lower.items p.lowers.items
        × IsTrail None upper_of p.bounds.upper.items p.uppers.items };
}

impl PathBounds {
    /// No bounds, for so many places, and room for none.
    pub fn new(alloc: Global, places: usize) -> Result<PathBounds, Memory>
        ensures { IfOk result (λ path. path ≡ nothing_named places) }
    {
        let mut lower = Vec::new(alloc);
        lower.resize(places, 0)?;
        let mut upper = Vec::new(alloc);
        upper.resize(places, None)?;
        Ok(PathBounds {
            bounds: Bounds { lower, upper },
            lowers: Vec::new(alloc),
            uppers: Vec::new(alloc),
            room: 0,
        })
    }

    /// The bounds of each place.
    pub fn bounds(&self) -> &Bounds
        ensures { AreBounds self.now result.now.lower.items result.now.upper.items }
    {
        &self.bounds
    }

    /// How many places there are.
    pub fn places(&self) -> usize
        ensures { result ≡ self.now.places }
    {
        self.bounds.lower.len()
    }

    /// How many bounds of each kind there is room for.
    pub fn room(&self) -> usize
        ensures { result ≡ self.now.room }
    {
        self.room
    }

    /// How many lower bounds are named.
    pub fn lowers(&self) -> usize
        ensures { result ≡ length self.now.lowers }
    {
        self.lowers.len()
    }

    /// How many upper bounds are named.
    pub fn uppers(&self) -> usize
        ensures { result ≡ length self.now.uppers }
    {
        self.uppers.len()
    }

    /// Takes room for so many bounds of each kind, where there is less.
    pub fn reserve(&mut self, room: usize) -> Result<(), Memory>
        ensures ok { OnOk result (self.new ≡ with_room (max self.old.room room) self.old) }
        ensures err { OnErr result (self.new ≡ self.old) }
    {
        if room > self.room {
            self.lowers.reserve(room.saturating_sub(self.lowers.len()))?;
            self.uppers.reserve(room.saturating_sub(self.uppers.len()))?;
            self.room = room;
        }
        Ok(())
    }

    /// Names a lower bound of the place.
    pub fn name_lower(&mut self, place: usize, count: u64)
        requires place { place < self.old.places }
        requires room { length self.old.lowers < self.old.room }
        ensures { self.new ≡ with_lower place count self.old }
    {
        name_lower(&mut self.bounds.lower, &mut self.lowers, place, count);
    }

    /// Names an upper bound of the place.
    pub fn name_upper(&mut self, place: usize, count: u64)
        requires place { place < self.old.places }
        requires room { length self.old.uppers < self.old.room }
        ensures { self.new ≡ with_upper place count self.old }
    {
        name_upper(&mut self.bounds.upper, &mut self.uppers, place, count);
    }

    /// Takes bounds back: the first ones are left, so many of each kind.
    pub fn cut(&mut self, lowers: usize, uppers: usize)
        ensures { self.new ≡ cut_to lowers uppers self.old }
    {
        cut_lowers(&mut self.bounds.lower, &mut self.lowers, lowers);
        cut_uppers(&mut self.bounds.upper, &mut self.uppers, uppers);
    }
}
