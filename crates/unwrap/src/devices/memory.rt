//! A sink and a shelf in memory.
ghost use Rattle.std.specs.Prelude.{◌≡◌, ◌+◌, ◌++◌, ◌<◌, ◌≤◌, ◌↔◌, ◌||◌, Some, is_none, is_err};
ghost use Rattle.std.specs.Prelude.{IfOk, OnOk, OnErr, IsErrOf, IsTrue, [], min, length, take};
ghost use Rattle.std.specs.Prelude.{vec_len};
ghost use Rattle.std.specs.Option.{option_copied};
ghost use Rattle.std.specs.Io.{WritesAtMost};
ghost use Rattle.std.specs.Io.KnownBytes.{WriteAppends};
ghost use Rattle.enc_io.specs.Faults.{Rose, count_after, is_failing};
ghost use Rattle.unwrap.specs.Memory.{is_full};
ghost use Rattle.unwrap.specs.Files.{file, files_of, IsShortFile, IsLongFile};

use crate::devices::shelf::{MOST_BYTES, Shelf, ShelfError};
use crate::devices::sink::Sink;
use enc_io::Failed;
use std::alloc::Global;
use std::marker::Model;

/// A sink that takes bytes into a vector, from its front, at most `step` at a time. It fails at the
/// calls whose numbers it was given, and at a nonempty write where no room is left. It numbers its
/// own calls from 1; the number stays at `u64::MAX` once that is reached.
#[derive(Drop)]
pub struct MemorySink {
    room: Vec<u8>,
    count: usize,
    step: usize,
    failing: Vec<u64>,
    calls: u64,
    faults: u64,
}

impl Model for MemorySink {
    ghost use Rattle.std.specs.Prelude.{◌-◌, ◌≤◌, take, vec_len};
    ghost use Rattle.unwrap.specs.Memory.{SinkInMemory};

    ghost Value = { SinkInMemory };

    ghost view = { λ s. record {
      taken = take s.count s.room.items;
      room = vec_len s.room - s.count;
      step = s.step;
      failing = s.failing.items;
      calls = s.calls;
      faults = s.faults;
    } };

    ghost invariant = { λ s. (s.count ≤ vec_len s.room) × (1 ≤ s.step) };
}

impl MemorySink {
    /// A sink with the room of this vector, which takes at most `step` bytes in one call and fails
    /// at the calls whose numbers are in `failing`.
    pub fn new(room: Vec<u8>, step: usize, failing: Vec<u64>) -> MemorySink
        requires { 1 ≤ step }
        ensures { result ≡ record {
          taken = [];
          room = vec_len room;
          step = step;
          failing = failing.items;
          calls = 0;
          faults = 0;
        } }
    {
        MemorySink {
            room,
            count: 0,
            step,
            failing,
            calls: 0,
            faults: 0,
        }
    }

    /// The bytes taken so far.
    pub fn taken(&self) -> &[u8]
        ensures { result.now ≡ self.now.taken }
    {
        &self.room[..self.count]
    }

    // Whether the piece is nonempty and no room is left.
    fn is_full(&self, piece: &[u8]) -> bool
        ensures { result ≡ is_full self.now.room piece.now }
    {
        self.room.len() - self.count == 0 && piece.len() > 0
    }

    // Whether the call whose number stands now is one that fails, for a write of this piece.
    fn fails(&self, piece: &[u8]) -> bool
        ensures { result
            ≡ (is_failing self.now.failing self.now.calls || is_full self.now.room piece.now) }
    {
        self.failing.contains(&self.calls) || self.is_full(piece)
    }
}

impl Sink for MemorySink {
    ghost taken = { λ s. Some s.taken };

    ghost faults = { λ s. s.faults };

    ghost calls = { λ s. s.calls };

    fn write(&mut self, piece: &[u8]) -> Result<usize, Failed>
        // As of every sink.
        ensures within { WritesAtMost result piece.now }
        ensures appended { WriteAppends (Some self.old.taken) (Some self.new.taken) result
            piece.now }
        ensures some { IfOk result (λ n. 0 < length piece.now → 1 ≤ n) }
        ensures counted { OnOk result (self.new.faults ≡ self.old.faults) }
        ensures failed { OnErr result (Rose self.old.faults self.new.faults) }
        ensures never_falls { self.old.faults ≤ self.new.faults }
        // What it does exactly.
        ensures fails { is_err result
            ≡ (is_failing self.old.failing self.new.calls || is_full self.old.room piece.now) }
        ensures calls { self.new.calls ≡ count_after self.old.calls }
        ensures faults { OnErr result (self.new.faults ≡ count_after self.old.faults) }
        ensures amount { IfOk result (λ n.
            n ≡ min self.old.step (min (length piece.now) self.old.room)) }
        ensures taken { IfOk result (λ n. self.new.taken ≡ self.old.taken ++ take n piece.now) }
        ensures room { IfOk result (λ n. self.new.room + n ≡ self.old.room) }
        ensures kept { OnErr result (self.new.taken ≡ self.old.taken) }
        ensures kept_room { OnErr result (self.new.room ≡ self.old.room) }
        ensures step { self.new.step ≡ self.old.step }
        ensures failing { self.new.failing ≡ self.old.failing }
    {
        self.calls = self.calls.saturating_add(1);
        if self.fails(piece) {
            self.faults = self.faults.saturating_add(1);
            return Err(Failed);
        }
        let free = self.room.len() - self.count;
        let n = self.step.min(piece.len()).min(free);
        self.room[self.count..self.count + n].copy_from_slice(&piece[..n]);
        self.count += n;
        Ok(n)
    }
}

/// A shelf of files in memory, of which the first entry of a name counts. It fails at the calls
/// whose numbers it was given. It numbers its own calls from 1; the number stays at `u64::MAX` once
/// that is reached.
#[derive(Drop)]
pub struct MemoryShelf {
    files: Vec<(String, Vec<u8>)>,
    failing: Vec<u64>,
    calls: u64,
    faults: u64,
}

impl Model for MemoryShelf {
    ghost use Rattle.unwrap.specs.Files.{files_of};
    ghost use Rattle.unwrap.specs.Memory.{ShelfInMemory};

    ghost Value = { ShelfInMemory };

    ghost view = { λ s. record {
      files = files_of s.files.items;
      failing = s.failing.items;
      calls = s.calls;
      faults = s.faults;
    } };
}

impl MemoryShelf {
    /// A shelf of these files by their names, which fails at the calls whose numbers are in
    /// `failing`.
    pub fn new(files: Vec<(String, Vec<u8>)>, failing: Vec<u64>) -> MemoryShelf
        ensures { result ≡ record {
          files = files_of files.items;
          failing = failing.items;
          calls = 0;
          faults = 0;
        } }
    {
        MemoryShelf {
            files,
            failing,
            calls: 0,
            faults: 0,
        }
    }
}

// The bytes of the first file of this name.
fn find<'a>(files: &'a [(String, Vec<u8>)], name: &str) -> Option<&'a [u8]>
    ensures { option_copied result ≡ file (files_of files.now) name.now }
{
    for entry in files {
        if entry.0.as_str() == name {
            return Some(entry.1.as_slice());
        }
    }
    None
}

impl Shelf for MemoryShelf {
    ghost files = { λ s. Some s.files };

    ghost faults = { λ s. s.faults };

    ghost calls = { λ s. s.calls };

    fn fetch(&mut self, alloc: Global, name: &str) -> Result<Vec<u8>, ShelfError>
        // As of every shelf.
        ensures found { IfOk result (λ bytes. file self.old.files name.now ≡ Some bytes.items) }
        ensures short { IfOk result (λ bytes. IsShortFile bytes.items) }
        ensures long { IsErrOf result ShelfError.TooLong
            → IsLongFile (file self.old.files name.now) }
        ensures same { self.new.files ≡ self.old.files }
        ensures calls { self.new.calls ≡ count_after self.old.calls }
        ensures counted { OnOk result (self.new.faults ≡ self.old.faults) }
        ensures counted_memory { IsErrOf result ShelfError.Memory
            → self.new.faults ≡ self.old.faults }
        ensures counted_long { IsErrOf result ShelfError.TooLong
            → self.new.faults ≡ self.old.faults }
        ensures failed { IsErrOf result ShelfError.Failed → Rose self.old.faults self.new.faults }
        ensures never_falls { self.old.faults ≤ self.new.faults }
        // What it does exactly.
        ensures fails { IsErrOf result ShelfError.Failed
            ↔ IsTrue (is_failing self.old.failing self.new.calls
            || is_none (file self.old.files name.now)) }
        ensures faults { IsErrOf result ShelfError.Failed
            → self.new.faults ≡ count_after self.old.faults }
        ensures failing { self.new.failing ≡ self.old.failing }
    {
        self.calls = self.calls.saturating_add(1);
        if self.failing.contains(&self.calls) {
            self.faults = self.faults.saturating_add(1);
            return Err(ShelfError::Failed);
        }
        let Some(bytes) = find(self.files.as_slice(), name) else {
            self.faults = self.faults.saturating_add(1);
            return Err(ShelfError::Failed);
        };
        if bytes.len() > MOST_BYTES {
            return Err(ShelfError::TooLong);
        }
        Ok(Vec::from_slice(alloc, bytes)?)
    }
}
