ghost use Rattle.std.specs.Prelude.{◌≡◌, ℕ, ◌+◌, ◌-◌, ◌^◌, ◌<◌, ◌≤◌, ◌⊎◌, [], ◌++◌, length, take, drop, All, min, IsTrue, None, Some, is_ok, is_some, OnOk, OnErr, IfOk, MatchOption, not};
ghost use Rattle.std.specs.Io.{ReadsAtMost};
ghost use Rattle.std.specs.Io.KnownBytes.{ReadConsumes, WriteAppends};
ghost use Rattle.host_io.specs.Causes.{Rose, HasCause};
ghost use Rattle.host_io.specs.Held.{bytes_of, IsOpened, IsUnheld};
ghost use Rattle.host_io.specs.Memory.{fails, capped, bytes_at, held_by, place_of, left_in, opened_place, after_open, given_count, after_read, put_fails, taken_count, after_put};

use crate::outside::{Failed, Files, Sink};
use name_tables::Name;
use sqlite_items::Items;
use std::alloc::Global;
use std::marker::Model;
use wide_sums::Memory;

/// The call of this number fails: it is listed, or no further call can be counted.
fn is_failing(failing: &[u64], call: u64) -> bool
    ensures { result ≡ fails failing.now call }
{
    failing.contains(&call) || call == u64::MAX
}

/// At most `most`, and at most the cut of this call, where there are cuts.
fn capped_count(cuts: &[usize], call: u64, most: usize) -> usize
    requires { All (λ cut. 0 < cut) cuts.now }
    ensures count { result ≡ capped cuts.now call most }
    ensures within { result ≤ most }
    ensures some { 0 < most → 0 < result }
{
    if cuts.is_empty() {
        return most;
    }
    let turn = call % cuts.len() as u64;
    let cut = cuts[turn as usize];
    if cut < most { cut } else { most }
}

/// The place of the first entry with this name.
fn position_of(entries: &[(Name, Items<u8>)], name: &[u8]) -> Option<usize>
    ensures { result ≡ place_of entries.now name.now }
{
    entries.iter().position(|entry| name == entry.0.bytes())
}

/// The same, where the bytes of the entry are those that are held under the name.
fn place_of(entries: &[(Name, Items<u8>)], name: &[u8]) -> Option<usize>
    ensures place { result ≡ place_of entries.now name.now }
    ensures held { MatchOption result (bytes_of (held_by entries.now) name.now ≡ None)
        (λ place. bytes_of (held_by entries.now) name.now ≡ Some (bytes_at entries.now (Some place))) }
{
    position_of(entries, name)
}

/// The bytes of the current entry from `at` on.
fn rest_of(entries: &[(Name, Items<u8>)], current: Option<usize>, at: usize) -> &[u8]
    ensures bytes { result.now ≡ drop at (bytes_at entries.now current) }
    ensures fits { at + length result.now < 2 ^ 64 }
{
    let Some(place) = current else {
        return &[];
    };
    match entries.get(place) {
        Some((_, bytes)) => bytes.as_slice().get(at..).unwrap_or(&[]),
        None => &[],
    }
}

/// Files in memory, which tell all that they hold. Reads can be cut short, and calls can fail, by
/// the numbers of the calls.
#[derive(Debug, Drop)]
pub struct MemFiles {
    entries: Vec<(Name, Items<u8>)>,
    cuts: Vec<usize>,
    failing: Vec<u64>,
    current: Option<usize>,
    at: usize,
    calls: u64,
    faults: u64,
}

impl Model for MemFiles {
    ghost use Rattle.std.specs.Prelude.{◌<◌, All};
    ghost use Rattle.host_io.specs.Memory.{FilesState};

    ghost Value = { FilesState };

    ghost view = { λ f. record {
      entries = f.entries.items;
      cuts = f.cuts.items;
      failing = f.failing.items;
      current = f.current;
      at = f.at;
      calls = f.calls;
      faults = f.faults;
    } };

    ghost invariant = { λ f. All (λ cut. 0 < cut) f.cuts.items };
}

impl MemFiles {
    /// Files of these entries, each a name and its bytes, with no current file. Of two entries with
    /// one name the first is held.
    ///
    /// Calls of both kinds are numbered from 0. Those listed in `failing` fail. A read that is call
    /// `k` gives at most `cuts[k mod length]` bytes, where there are cuts.
    pub fn new(entries: Vec<(Name, Items<u8>)>, cuts: Vec<usize>, failing: Vec<u64>) -> MemFiles
        requires { All (λ cut. 0 < cut) cuts.items }
        ensures { result ≡ record {
          entries = entries.items;
          cuts = cuts.items;
          failing = failing.items;
          current = None;
          at = 0;
          calls = 0;
          faults = 0;
        } }
    {
        MemFiles {
            entries,
            cuts,
            failing,
            current: None,
            at: 0,
            calls: 0,
            faults: 0,
        }
    }

    /// How many calls there were.
    pub fn calls(&self) -> u64
        ensures { result ≡ self.now.calls }
    {
        self.calls
    }

    /// How many calls failed by the list.
    pub fn faults(&self) -> u64
        ensures { result ≡ self.now.faults }
    {
        self.faults
    }
}

impl Files for MemFiles {
    ghost held = { λ files. Some (held_by files.entries) };

    ghost left = { λ files. Some (left_in files) };

    ghost ready = { λ files. is_some files.current };

    ghost faults = { λ files. files.faults };

    /// Fails where its call is listed, which is counted as a fault, or where no entry has the name,
    /// which isn't.
    fn open_file(&mut self, name: &Name) -> Result<(), Failed>
        ensures answer { is_ok result ≡ is_some (opened_place self.old name.now) }
        ensures state { self.new ≡ after_open self.old name.now }
        ensures opened { OnOk result
            (IsOpened (Some (held_by self.old.entries)) name.now (Some (left_in self.new))) }
        ensures ready { is_some self.new.current ≡ is_ok result }
        ensures same { Some (held_by self.new.entries) ≡ Some (held_by self.old.entries) }
        ensures later { self.old.faults ≤ self.new.faults }
        ensures quiet { OnOk result (self.new.faults ≡ self.old.faults) }
        ensures failed { OnErr result
            (Rose self.old.faults self.new.faults ⊎ IsUnheld (Some (held_by self.old.entries)) name.now) }
    {
        let call = self.calls;
        self.calls = call.saturating_add(1);
        self.current = None;
        self.at = 0;
        if is_failing(&self.failing, call) {
            self.faults = self.faults.saturating_add(1);
            return Err(Failed);
        }
        self.current = place_of(&self.entries, name.bytes());
        if self.current.is_some() {
            Ok(())
        } else {
            Err(Failed)
        }
    }

    /// Fails where its call is listed. Else it gives as many bytes as the buffer, what is left and
    /// the cut of the call allow.
    fn read(&mut self, buf: &mut [u8]) -> Result<usize, Failed>
        requires ready { IsTrue (is_some self.old.current) }
        requires room { 0 < length buf.old }
        ensures answer { is_ok result ≡ not (fails self.old.failing self.old.calls) }
        ensures count { IfOk result (λ n. n ≡ given_count self.old (length buf.old)) }
        ensures given { IfOk result
            (λ n. buf.new ≡ take n (left_in self.old) ++ drop n buf.old) }
        ensures state { self.new ≡ after_read self.old (length buf.old) }
        ensures bound { ReadsAtMost result buf.new }
        ensures bytes { ReadConsumes (Some (left_in self.old)) (Some (left_in self.new)) result buf.new }
        ensures ready { IsTrue (is_some self.new.current) }
        ensures same { Some (held_by self.new.entries) ≡ Some (held_by self.old.entries) }
        ensures quiet { OnOk result (self.new.faults ≡ self.old.faults) }
        ensures cause { HasCause self.old.faults self.new.faults result }
    {
        let call = self.calls;
        self.calls = call.saturating_add(1);
        if is_failing(&self.failing, call) {
            self.faults = self.faults.saturating_add(1);
            return Err(Failed);
        }
        let rest = rest_of(&self.entries, self.current, self.at);
        let most = if rest.len() < buf.len() {
            rest.len()
        } else {
            buf.len()
        };
        let count = capped_count(&self.cuts, call, most);
        buf[..count].copy_from_slice(&rest[..count]);
        self.at += count;
        Ok(count)
    }
}

/// A sink in memory, which tells all that it took. Puts can be cut short, and calls can fail, by the
/// numbers of the calls.
#[derive(Debug, Drop)]
pub struct MemSink {
    bytes: Vec<u8>,
    room: usize,
    cuts: Vec<usize>,
    failing: Vec<u64>,
    calls: u64,
    faults: u64,
}

impl Model for MemSink {
    ghost use Rattle.std.specs.Prelude.{◌<◌, ◌≤◌, All, vec_len, vec_capacity};
    ghost use Rattle.host_io.specs.Memory.{SinkState};

    ghost Value = { SinkState };

    ghost view = { λ s. record {
      bytes = s.bytes.items;
      room = s.room;
      cuts = s.cuts.items;
      failing = s.failing.items;
      calls = s.calls;
      faults = s.faults;
    } };

    ghost invariant = { λ s. (vec_len s.bytes ≤ s.room) × (s.room ≤ vec_capacity s.bytes)
        × All (λ cut. 0 < cut) s.cuts.items };
}

impl MemSink {
    /// An empty sink that takes `room` bytes in all.
    ///
    /// Its calls are numbered from 0. Those listed in `failing` fail. Call `k` takes at most
    /// `cuts[k mod length]` bytes, where there are cuts. [`Memory`] means that the room wasn't found.
    pub fn new(
        alloc: Global,
        room: usize,
        cuts: Vec<usize>,
        failing: Vec<u64>,
    ) -> Result<MemSink, Memory>
        requires { All (λ cut. 0 < cut) cuts.items }
        ensures { IfOk result (λ sink. sink ≡ record {
          bytes = [];
          room = room;
          cuts = cuts.items;
          failing = failing.items;
          calls = 0;
          faults = 0;
        }) }
    {
        let bytes = Vec::with_capacity(alloc, room)?;
        Ok(MemSink {
            bytes,
            room,
            cuts,
            failing,
            calls: 0,
            faults: 0,
        })
    }

    /// The bytes taken so far.
    pub fn bytes(&self) -> &[u8]
        ensures { result.now ≡ self.now.bytes }
    {
        self.bytes.as_slice()
    }

    /// How many calls there were.
    pub fn calls(&self) -> u64
        ensures { result ≡ self.now.calls }
    {
        self.calls
    }

    /// How many calls failed, by the list or for want of room.
    pub fn faults(&self) -> u64
        ensures { result ≡ self.now.faults }
    {
        self.faults
    }
}

impl Sink for MemSink {
    ghost written = { λ sink. Some sink.bytes };

    ghost faults = { λ sink. sink.faults };

    /// Fails where its call is listed or no room is left. Else it takes as much of the piece as the
    /// cut of the call and the room left allow.
    fn put(&mut self, piece: &[u8]) -> Result<usize, Failed>
        requires { 0 < length piece.now }
        ensures answer { is_ok result ≡ not (put_fails self.old) }
        ensures count { IfOk result (λ n. n ≡ taken_count self.old (length piece.now)) }
        ensures state { self.new ≡ after_put self.old piece.now }
        ensures some { IfOk result (λ n. 0 < n) }
        ensures within { IfOk result (λ n. n ≤ length piece.now) }
        ensures bytes { WriteAppends (Some self.old.bytes) (Some self.new.bytes) result piece.now }
        ensures quiet { OnOk result (self.new.faults ≡ self.old.faults) }
        ensures cause { HasCause self.old.faults self.new.faults result }
    {
        let call = self.calls;
        self.calls = call.saturating_add(1);
        if is_failing(&self.failing, call) || self.room <= self.bytes.len() {
            self.faults = self.faults.saturating_add(1);
            return Err(Failed);
        }
        let left = self.room - self.bytes.len();
        let most = if piece.len() < left {
            piece.len()
        } else {
            left
        };
        let count = capped_count(&self.cuts, call, most);
        match self.bytes.extend_from_slice(&piece[..count]) {
            Ok(()) => Ok(count),
            Err(_) => unreachable!(),
        }
    }
}
