ghost use Rattle.std.specs.Prelude.{◌≡◌, ◌+◌, ◌<◌, ◌≤◌, [], ◌∷◌, ◌++◌, All, length, max, slice_index_or, IfOk, IsOk, OnOk, IfSome, IfNone, Some, None};
ghost use Rattle.cert_model.specs.Facts.{element};
ghost use Rattle.path_bounds.specs.Held.{AreBounds};
ghost use Rattle.case_tree.specs.Agendas.{added_by, bounds_of};
ghost use Rattle.case_tree.specs.Bounds.{with_lowers, with_uppers};
ghost use Rattle.case_tree.specs.States.{hypotheses_in, hypothesis_of, choice_of, last_weight, lowers_of, room_of, choices_in, count_of, left_path, paths_below, pick, uppers_of, with_item};

use crate::agendas::Agenda;
use path_bounds::{Bounds, PathBounds};
use std::alloc::Global;
use std::marker::Model;
use wide_sums::{Cell, Memory};

/// A path, as contracts see it: no value of it is made.
#[derive(Drop)]
pub struct Supposed {
    nothing: bool,
}

impl Model for Supposed {
    ghost use Rattle.std.specs.Prelude.{[]};
    ghost use Rattle.case_tree.specs.States.{Path};

    ghost Value = { Path };

    ghost view = { λ s. record { items = []; entered = [] } };
}

/// A path from the root of a case tree, by the items that were entered.
#[derive(Drop)]
pub struct CasePath<A: Agenda> {
    agenda: A,
    bounds: PathBounds,
    entered: Vec<usize>,
    room: usize,
}

impl<A: Agenda> Model for CasePath<A> {
    ghost use Rattle.std.specs.Prelude.{◌≡◌, ◌≤◌, reverse, vec_capacity};
    ghost use Rattle.case_tree.specs.States.{Walked, lowers_of, room_of, uppers_of};

    ghost Value = { Walked };

    ghost view = { λ p. record {
      path = record { items = A.items p.agenda; entered = reverse p.entered.items };
      room = p.room;
    } };

    ghost invariant = { λ p. (p.bounds.places ≡ A.places p.agenda)
        × (p.bounds.lowers ≡ lowers_of (A.items p.agenda) (reverse p.entered.items))
        × (p.bounds.uppers ≡ uppers_of (A.items p.agenda) (reverse p.entered.items))
        × (p.room ≤ p.bounds.room) × (p.room ≤ vec_capacity p.entered)
        × (room_of record { items = A.items p.agenda; entered = reverse p.entered.items } ≤ p.room) };
}

// A choice that an item added.
#[derive(Clone, Copy, Debug, PartialEq, Eq)]
struct Choice {
    // The item that was entered.
    item: usize,
    // Which of the choices that it added, from 0.
    choice: usize,
}

// Names lower bounds, for which there is room.
fn name_lowers(bounds: &mut PathBounds, cells: &[Cell])
    requires places { All (λ c. c.at < bounds.old.places) cells.now }
    requires room { length bounds.old.lowers + length cells.now ≤ bounds.old.room }
    ensures { bounds.new ≡ with_lowers (bounds_of cells.now) bounds.old }
{
    for cell in cells {
        bounds.name_lower(cell.at as usize, cell.count);
    }
}

// Names upper bounds, for which there is room.
fn name_uppers(bounds: &mut PathBounds, cells: &[Cell])
    requires places { All (λ c. c.at < bounds.old.places) cells.now }
    requires room { length bounds.old.uppers + length cells.now ≤ bounds.old.room }
    ensures { bounds.new ≡ with_uppers (bounds_of cells.now) bounds.old }
{
    for cell in cells {
        bounds.name_upper(cell.at as usize, cell.count);
    }
}

impl<A: Agenda> CasePath<A> {
    /// The path at the root, over so many places.
    pub fn new(alloc: Global, agenda: A, places: usize) -> Result<CasePath<A>, Memory>
        requires { places ≡ A.places agenda }
        ensures { IfOk result (λ walked. walked ≡ record { path = record { items = A.items agenda; entered = [] }; room = 0 }) }
    {
        let bounds = PathBounds::new(alloc, places)?;
        Ok(CasePath {
            agenda,
            bounds,
            entered: Vec::new(alloc),
            room: 0,
        })
    }

    /// The bounds of each place.
    pub fn bounds(&self) -> &Bounds
        ensures { AreBounds record { places = length result.now.lower.items; room = 0; lowers = lowers_of self.now.path.items self.now.path.entered; uppers = uppers_of self.now.path.items self.now.path.entered } result.now.lower.items result.now.upper.items }
    {
        self.bounds.bounds()
    }

    /// What entering the item that was entered last added, in all.
    pub fn weight(&self) -> u64
        ensures { result ≡ last_weight self.now.path.items self.now.path.entered }
    {
        match self.entered.last() {
            Some(item) => self.agenda.weight(*item),
            None => 0,
        }
    }

    // The room that the path takes with one more item.
    fn size_with(&self, item: usize) -> Option<usize>
        ensures some { IfSome result (λ room. room ≡ room_of (with_item item self.now.path)) }
        ensures none { IfNone result (self.now.room < room_of (with_item item self.now.path)) }
    {
        let lowers = self
            .bounds
            .lowers()
            .checked_add(self.agenda.lowers(item).len())?;
        let uppers = self
            .bounds
            .uppers()
            .checked_add(self.agenda.uppers(item).len())?;
        self.entered
            .len()
            .checked_add(1)?
            .checked_add(lowers)?
            .checked_add(uppers)
    }

    // Takes so much room, where there is less.
    fn reserve(&mut self, room: usize) -> Result<(), Memory>
        ensures path { self.new.path ≡ self.old.path }
        ensures room { self.old.room ≤ self.new.room }
        ensures ok { OnOk result (self.new.room ≡ max self.old.room room) }
        ensures fits { room ≤ self.old.room → IsOk result }
    {
        if room > self.room {
            self.bounds.reserve(room)?;
            self.entered
                .reserve(room.saturating_sub(self.entered.len()))?;
            self.room = room;
        }
        Ok(())
    }

    // Enters an item, for which there is room.
    fn push(&mut self, item: usize)
        requires { room_of (with_item item self.old.path) ≤ self.old.room }
        ensures path { self.new.path ≡ with_item item self.old.path }
        ensures room { self.new.room ≡ self.old.room }
    {
        name_lowers(&mut self.bounds, self.agenda.lowers(item));
        name_uppers(&mut self.bounds, self.agenda.uppers(item));
        match self.entered.push(item) {
            Ok(()) => {}
            Err(_) => unreachable!(),
        }
    }

    /// Enters an item. [`Memory`] is wanted only where the room that the path has doesn't do.
    pub fn enter(&mut self, item: usize) -> Result<(), Memory>
        ensures fits { room_of (with_item item self.old.path) ≤ self.old.room → IsOk result }
        ensures room { self.old.room ≤ self.new.room }
        ensures path { OnOk result (self.new.path ≡ with_item item self.old.path) }
        ensures below { OnOk result (paths_below self.new.path.items self.new.path.entered ≡ self.old.path ∷ paths_below self.old.path.items self.old.path.entered) }
        ensures has_room { OnOk result (room_of self.new.path ≤ self.new.room) }
    {
        let Some(room) = self.size_with(item) else {
            return Err(Memory);
        };
        self.reserve(room)?;
        self.push(item);
        Ok(())
    }

    /// Leaves the item that was entered last.
    pub fn leave(&mut self)
        ensures path { self.new.path ≡ left_path self.old.path }
        ensures room { self.new.room ≡ self.old.room }
    {
        if let Some(item) = self.entered.pop() {
            let lowers = self.bounds.lowers() - self.agenda.lowers(item).len();
            let uppers = self.bounds.uppers() - self.agenda.uppers(item).len();
            self.bounds.cut(lowers, uppers);
        }
    }

    // The choice with this number, from 1, where there is one.
    fn choice(&self, number: usize) -> Option<Choice>
        ensures some { IfSome result (λ c. choice_of self.now.path number ≡ Some (slice_index_or (added_by self.now.path.items c.item).choices c.choice [])) }
        ensures none { IfNone result (choice_of self.now.path number ≡ None) }
    {
        if number == 0 {
            return None;
        }
        choice_at(&self.agenda, &self.entered, number - 1)
    }

    /// The number of a hypothesis of the path. The hypotheses are numbered from 1 in the order in which they were added, and `None`
    /// means that it isn't there.
    pub fn hypothesis(&self, number: usize) -> Option<usize>
        ensures { result ≡ hypothesis_of self.now.path number }
    {
        if number == 0 {
            return None;
        }
        hypothesis_at(&self.agenda, &self.entered, number - 1)
    }

    /// How many items a choice of the path has. The choices are numbered from 1, and `None` means that it isn't there.
    pub fn choice_len(&self, number: usize) -> Option<usize>
        ensures { result ≡ count_of (choice_of self.now.path number) }
    {
        let Some(found) = self.choice(number) else {
            return None;
        };
        Some(self.agenda.choice_len(found.item, found.choice))
    }

    /// The number of an item of a choice of the path, or 0 where it isn't there. The choices are numbered from 1, and their items
    /// from 0.
    pub fn choice_item(&self, number: usize, index: usize) -> usize
        ensures { result ≡ pick (choice_of self.now.path number) index }
    {
        let Some(found) = self.choice(number) else {
            return 0;
        };
        if index < self.agenda.choice_len(found.item, found.choice) {
            self.agenda.choice_item(found.item, found.choice, index)
        } else {
            0
        }
    }
}

// The choice that stands at this place among those of all items, from 0.
fn choice_at<A: Agenda>(agenda: &A, entered: &[usize], at: usize) -> Option<Choice>
    ensures some { IfSome result (λ c. element (choices_in (A.items agenda.now) entered.now) at ≡ Some (slice_index_or (added_by (A.items agenda.now) c.item).choices c.choice [])) }
    ensures none { IfNone result (element (choices_in (A.items agenda.now) entered.now) at ≡ None) }
{
    let mut left = at;
    for item in entered {
        let choices = agenda.choices(*item);
        if left < choices {
            return Some(Choice {
                item: *item,
                choice: left,
            });
        }
        left -= choices;
    }
    None
}

// The hypothesis that stands at this place among those of all items, from 0.
fn hypothesis_at<A: Agenda>(agenda: &A, entered: &[usize], at: usize) -> Option<usize>
    ensures { result ≡ element (hypotheses_in (A.items agenda.now) entered.now) at }
{
    let mut left = at;
    for item in entered {
        let hypotheses = agenda.hypotheses(*item);
        if left < hypotheses {
            return Some(agenda.hypothesis(*item, left));
        }
        left -= hypotheses;
    }
    None
}
