ghost use Rattle.std.specs.Prelude.{◌≡◌, ℕ, ◌+◌, ◌^◌, ◌<◌, ◌≤◌, length, slice_index, All, MatchBool, OnOk, OnErr};
ghost use Rattle.wide_sums.specs.Cells.{IsRow, amount};
ghost use Rattle.pt_net.specs.Markings.{Covers, IsShort, IsFull, IsInRange};

use crate::rows::count_at;
use std::marker::Model;
use thiserror::Error;
use wide_sums::Cell;

const MOST: u64 = 9_223_372_036_854_775_807;

/// Why an instance did not fire.
#[derive(Clone, Copy, Debug, PartialEq, Eq, Error)]
pub enum FireFault {
    /// A place has fewer tokens than the instance takes.
    #[error("the instance is not enabled")]
    NotEnabled,
    /// A place would have more than 2^63 - 1 tokens.
    #[error("a count would pass 2^63 - 1")]
    Count,
}

/// A marking: a count from 0 to 2^63 - 1 for each place.
#[derive(Debug, Drop)]
pub struct Marking {
    counts: Vec<u64>,
}

impl Model for Marking {
    ghost use Rattle.std.specs.Prelude.{ℕ, ◌^◌, ◌<◌, List, All};

    ghost Value = { List ℕ };

    ghost view = { λ m. m.counts.items };

    ghost invariant = { λ m. All (λ k. k < 2 ^ 63) m.counts.items };
}

impl Marking {
    ghost use Rattle.pt_net.specs.Markings.{Covers, IsShort, IsFull, IsInRange};

    /// The marking with these counts, each at most 2^63 - 1.
    pub fn of(counts: Vec<u64>) -> Marking
        requires { All (λ k. k < 2 ^ 63) counts.items }
        ensures { result ≡ counts.items }
    {
        Marking { counts }
    }

    /// The count of a place.
    pub fn count(&self, place: u32) -> u64
        requires { place < length self.now }
        ensures count { result ≡ slice_index self.now place }
        ensures within { result < 2 ^ 63 }
    {
        self.counts[place as usize]
    }

    /// The counts of all places.
    pub fn counts(&self) -> &[u64]
        ensures counts { result.now ≡ self.now }
        ensures within { All (λ k. k < 2 ^ 63) result.now }
    {
        self.counts.as_slice()
    }

    /// Whether the marking has what a row takes.
    pub(crate) fn covers(&self, row: &[Cell]) -> bool
        requires row { IsRow row.now }
        requires in_range { IsInRange (length self.now) row.now }
        ensures { MatchBool result (Covers self.now row.now) (IsShort self.now row.now) }
    {
        covers(self.counts.as_slice(), row)
    }

    /// Takes away what the row `pre` has and adds what `post` has.
    pub(crate) fn fire(&mut self, pre: &[Cell], post: &[Cell]) -> Result<(), FireFault>
        requires pre { IsRow pre.now }
        requires post { IsRow post.now }
        requires pre_in_range { IsInRange (length self.old) pre.now }
        requires post_in_range { IsInRange (length self.old) post.now }
        ensures covered { OnOk result (Covers self.old pre.now) }
        ensures as_long { OnOk result (length self.new ≡ length self.old) }
        ensures moved { OnOk result ((p : ℕ) → slice_index self.new p + amount p pre.now ≡ slice_index self.old p + amount p post.now) }
        ensures within { OnOk result (All (λ k. k < 2 ^ 63) self.new) }
        ensures not_enabled { result ≡ Err FireFault.NotEnabled → IsShort self.old pre.now }
        ensures count { result ≡ Err FireFault.Count → Covers self.old pre.now × IsFull self.old pre.now post.now }
        ensures err { OnErr result (self.new ≡ self.old) }
    {
        if !self.covers(pre) {
            return Err(FireFault::NotEnabled);
        }
        if !has_room(self.counts.as_slice(), pre, post) {
            return Err(FireFault::Count);
        }
        take_row(self.counts.as_mut_slice(), pre);
        put_row(self.counts.as_mut_slice(), post);
        Ok(())
    }
}

// Whether each place has what the row takes there.
fn covers(counts: &[u64], row: &[Cell]) -> bool
    requires row { IsRow row.now }
    requires in_range { IsInRange (length counts.now) row.now }
    ensures { MatchBool result (Covers counts.now row.now) (IsShort counts.now row.now) }
{
    for cell in row {
        if counts[cell.at as usize] < cell.count {
            return false;
        }
    }
    true
}

// Whether each place can take what `post` adds there, once what `pre` takes is gone.
fn has_room(counts: &[u64], pre: &[Cell], post: &[Cell]) -> bool
    requires pre { IsRow pre.now }
    requires post { IsRow post.now }
    requires counts { All (λ k. k < 2 ^ 63) counts.now }
    requires covered { Covers counts.now pre.now }
    requires in_range { IsInRange (length counts.now) post.now }
    ensures { MatchBool result ((p : ℕ) → slice_index counts.now p + amount p post.now < 2 ^ 63 + amount p pre.now)
        (IsFull counts.now pre.now post.now) }
{
    for cell in post {
        let left = counts[cell.at as usize] - count_at(pre, cell.at);
        if cell.count > MOST - left {
            return false;
        }
    }
    true
}

// Takes away what the row has at each place.
fn take_row(counts: &mut [u64], row: &[Cell])
    requires in_range { IsInRange (length counts.old) row.now }
    requires covered { Covers counts.old row.now }
    ensures { (p : ℕ) → slice_index counts.new p + amount p row.now ≡ slice_index counts.old p }
{
    for cell in row {
        counts[cell.at as usize] -= cell.count;
    }
}

// Adds what the row has at each place.
fn put_row(counts: &mut [u64], row: &[Cell])
    requires in_range { IsInRange (length counts.old) row.now }
    requires room { (p : ℕ) → slice_index counts.old p + amount p row.now < 2 ^ 63 }
    ensures { (p : ℕ) → slice_index counts.new p ≡ slice_index counts.old p + amount p row.now }
{
    for cell in row {
        counts[cell.at as usize] += cell.count;
    }
}
