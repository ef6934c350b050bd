ghost use Rattle.std.specs.Prelude.{◌≡◌, ◌-◌, ◌^◌, ◌<◌, ◌≤◌, ◌⊎◌, false, length, None, is_ok, is_err, IsTrue, IsErr, OnOk, OnErr, IfOk};
ghost use Rattle.std.specs.Io.{ReadsAtMost};
ghost use Rattle.std.specs.Io.KnownBytes.{ReadConsumes, WriteAppends};
ghost use Rattle.host_io.specs.Causes.{faults_after, Rose, HasCause};
ghost use Rattle.host_io.specs.Held.{IsOpened, IsUnheld};

use crate::outside::{Failed, Files, Sink};
use name_tables::Name;
use std::io::{Read, Write};
use std::marker::Model;
use std::{fs, str};

/// The files of the system, by the runtime `R`. They don't tell what they hold; of the current file
/// they tell what the runtime tells. Once the count of faults stands at its greatest value every
/// call fails.
#[derive(Drop)]
pub struct HostFiles<R: fs::Files + Drop> {
    rt: R,
    file: Option<R::File>,
    faults: u64,
}

impl<R: fs::Files + Drop> Model for HostFiles<R> {
    ghost use Rattle.std.specs.Prelude.{is_some};
    ghost use Rattle.host_io.specs.Host.{HostState, left_in};

    ghost Value = { HostState };

    ghost view = { λ f. record {
      ready = is_some f.file;
      left = left_in R.File.remaining f.file;
      faults = f.faults;
    } };
}

impl<R: fs::Files + Drop> HostFiles<R> {
    /// The files that `rt` reaches, with no current file and no fault.
    pub fn new(rt: R) -> HostFiles<R>
        ensures { result ≡ record { ready = false; left = None; faults = 0 } }
    {
        HostFiles {
            rt,
            file: None,
            faults: 0,
        }
    }

    /// How many faults there were.
    pub fn faults(&self) -> u64
        ensures { result ≡ self.now.faults }
    {
        self.faults
    }
}

impl<R: fs::Files + Drop> Files for HostFiles<R> {
    ghost held = { λ _. None };

    ghost left = { λ files. files.left };

    ghost ready = { λ files. files.ready };

    ghost faults = { λ files. files.faults };

    fn open_file(&mut self, name: &Name) -> Result<(), Failed>
        ensures state { self.new.faults ≡ faults_after (is_err result) self.old.faults }
        ensures spent { self.old.faults ≡ 2 ^ 64 - 1 → IsErr result }
        ensures opened { OnOk result (IsOpened None name.now self.new.left) }
        ensures ready { self.new.ready ≡ is_ok result }
        ensures later { self.old.faults ≤ self.new.faults }
        ensures quiet { OnOk result (self.new.faults ≡ self.old.faults) }
        ensures failed { OnErr result
            (Rose self.old.faults self.new.faults ⊎ IsUnheld None name.now) }
    {
        self.file = None;
        if self.faults < u64::MAX {
            if let Ok(path) = str::from_utf8(name.bytes()) {
                if let Ok(file) = fs::open(&self.rt, path) {
                    self.file = Some(file);
                    return Ok(());
                }
            }
        }
        self.faults = self.faults.saturating_add(1);
        Err(Failed)
    }

    fn read(&mut self, buf: &mut [u8]) -> Result<usize, Failed>
        requires ready { IsTrue self.old.ready }
        requires room { 0 < length buf.old }
        ensures state { self.new.faults ≡ faults_after (is_err result) self.old.faults }
        ensures spent { self.old.faults ≡ 2 ^ 64 - 1 → IsErr result }
        ensures bound { ReadsAtMost result buf.new }
        ensures bytes { ReadConsumes self.old.left self.new.left result buf.new }
        ensures ready { IsTrue self.new.ready }
        ensures quiet { OnOk result (self.new.faults ≡ self.old.faults) }
        ensures cause { HasCause self.old.faults self.new.faults result }
    {
        if self.faults < u64::MAX {
            if let Some(file) = &mut self.file {
                if let Ok(count) = file.read(buf) {
                    return Ok(count);
                }
            }
        }
        self.faults = self.faults.saturating_add(1);
        Err(Failed)
    }
}

/// A writer of the system, as standard output. It tells what the writer tells. Once the count of
/// faults stands at its greatest value every call fails.
#[derive(Drop)]
pub struct HostSink<W: Write + Drop> {
    writer: W,
    faults: u64,
}

impl<W: Write + Drop> Model for HostSink<W> {
    ghost use Rattle.host_io.specs.Host.{SinkSeen};

    ghost Value = { SinkSeen };

    ghost view = { λ s. record { written = W.contents s.writer; faults = s.faults } };
}

impl<W: Write + Drop> HostSink<W> {
    /// The sink that writes to `writer`, as `io::writer(&rt)`, with no fault.
    pub fn new(writer: W) -> HostSink<W>
        ensures { result ≡ record { written = W.contents writer; faults = 0 } }
    {
        HostSink { writer, faults: 0 }
    }

    /// How many faults there were.
    pub fn faults(&self) -> u64
        ensures { result ≡ self.now.faults }
    {
        self.faults
    }
}

impl<W: Write + Drop> Sink for HostSink<W> {
    ghost written = { λ sink. sink.written };

    ghost faults = { λ sink. sink.faults };

    fn put(&mut self, piece: &[u8]) -> Result<usize, Failed>
        requires { 0 < length piece.now }
        ensures state { self.new.faults ≡ faults_after (is_err result) self.old.faults }
        ensures spent { self.old.faults ≡ 2 ^ 64 - 1 → IsErr result }
        ensures some { IfOk result (λ n. 0 < n) }
        ensures within { IfOk result (λ n. n ≤ length piece.now) }
        ensures bytes { WriteAppends self.old.written self.new.written result piece.now }
        ensures quiet { OnOk result (self.new.faults ≡ self.old.faults) }
        ensures cause { HasCause self.old.faults self.new.faults result }
    {
        if self.faults < u64::MAX {
            if let Ok(count) = self.writer.write(piece) {
                if count > 0 {
                    return Ok(count);
                }
            }
        }
        self.faults = self.faults.saturating_add(1);
        Err(Failed)
    }
}
