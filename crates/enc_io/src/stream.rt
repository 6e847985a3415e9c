//! A source over a reader of std.
ghost use Rattle.std.specs.Prelude.{◌≡◌, ◌≤◌, None, OnOk, OnErr};
ghost use Rattle.std.specs.Io.{ReadsAtMost};
ghost use Rattle.std.specs.Io.KnownBytes.{ReadConsumes};
ghost use Rattle.enc_io.specs.Faults.{Rose, count_after};

use crate::outside::{Failed, Source};
use std::io::Read;
use std::marker::Model;

#[cfg(test)]
mod tests;

/// A source over a reader, as of a file or standard input. It tells nothing, and keeps counts of
/// its failures and of its calls, which stand still at `u64::MAX`.
#[derive(Drop)]
pub struct StreamSource<R> {
    reader: R,
    faults: u64,
    calls: u64,
}

impl<R> Model for StreamSource<R> {
    ghost use Rattle.enc_io.specs.Stream.{Streaming};

    ghost Value = { Streaming R };

    ghost view = { λ s. record { reader = s.reader; faults = s.faults; calls = s.calls } };
}

impl<R: Read> StreamSource<R> {
    /// A source of what the reader gives.
    pub fn new(reader: R) -> StreamSource<R>
        ensures { result ≡ record { reader = reader; faults = 0; calls = 0 } }
    {
        StreamSource {
            reader,
            faults: 0,
            calls: 0,
        }
    }
}

impl<R: Read> Source for StreamSource<R> {
    ghost left = { λ _. None };

    ghost faults = { λ s. s.faults };

    ghost calls = { λ s. s.calls };

    fn read(&mut self, buf: &mut [u8]) -> Result<usize, Failed>
        // As of every source.
        ensures within { ReadsAtMost result buf.new }
        ensures calls { self.new.calls ≡ count_after self.old.calls }
        ensures counted { OnOk result (self.new.faults ≡ self.old.faults) }
        ensures failed { OnErr result (Rose self.old.faults self.new.faults) }
        ensures never_falls { self.old.faults ≤ self.new.faults }
        // What it does to the bytes of its reader, where that tells them.
        ensures moved { ReadConsumes
            (R.remaining self.old.reader) (R.remaining self.new.reader) result buf.new }
        ensures faults { OnErr result (self.new.faults ≡ count_after self.old.faults) }
    {
        self.calls = self.calls.saturating_add(1);
        match self.reader.read(buf) {
            Ok(n) => Ok(n),
            Err(_) => {
                self.faults = self.faults.saturating_add(1);
                Err(Failed)
            }
        }
    }
}
