ghost use Rattle.std.specs.Prelude.{◌≡◌, ◌<◌, ℕ, List, [], All, length, map, slice_index_or};
ghost use Rattle.wide_sums.specs.declared.rows.Cell.{Cell};
ghost use Rattle.case_tree.specs.Agendas.{Added, added_by, bounds_of, weight};

use wide_sums::Cell;

/// What can be entered along a path: items by number, each of which adds hypotheses, choices and bounds. A number that is no item's
/// adds nothing.
pub trait Agenda: Drop {
    /// What entering each item adds.
    ghost items: { Self → List Added };
    /// The number of places.
    ghost places: { Self → ℕ };

    /// How many hypotheses, items of choices and bounds the item adds.
    fn weight(&self, item: usize) -> u64
        ensures { result ≡ weight (added_by (items self.now) item) };

    /// How many hypotheses the item adds.
    fn hypotheses(&self, item: usize) -> usize
        ensures { result ≡ length (added_by (items self.now) item).hypotheses };

    /// The number of a hypothesis that the item adds.
    fn hypothesis(&self, item: usize, index: usize) -> usize
        requires { index < length (added_by (items self.now) item).hypotheses }
        ensures { result ≡ slice_index_or (added_by (items self.now) item).hypotheses index 0 };

    /// How many choices the item adds.
    fn choices(&self, item: usize) -> usize
        ensures { result ≡ length (added_by (items self.now) item).choices };

    /// How many items a choice has that the item adds.
    fn choice_len(&self, item: usize, choice: usize) -> usize
        ensures { result ≡ length (slice_index_or (added_by (items self.now) item).choices choice []) };

    /// The number of an item of a choice that the item adds.
    fn choice_item(&self, item: usize, choice: usize, index: usize) -> usize
        requires { index < length (slice_index_or (added_by (items self.now) item).choices choice []) }
        ensures { result ≡ slice_index_or (slice_index_or (added_by (items self.now) item).choices choice []) index 0 };

    /// The lower bounds that the item adds.
    fn lowers(&self, item: usize) -> &[Cell]
        ensures bounds { bounds_of result.now ≡ (added_by (items self.now) item).lowers }
        ensures places { All (λ c. c.at < places self.now) result.now };

    /// The upper bounds that the item adds.
    fn uppers(&self, item: usize) -> &[Cell]
        ensures bounds { bounds_of result.now ≡ (added_by (items self.now) item).uppers }
        ensures places { All (λ c. c.at < places self.now) result.now };
}
