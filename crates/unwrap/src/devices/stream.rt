//! A sink over a writer of std.
ghost use Rattle.std.specs.Prelude.{◌≡◌, ◌<◌, ◌≤◌, None, IfOk, OnOk, OnErr, length, take};
ghost use Rattle.std.specs.Io.{WritesAtMost};
ghost use Rattle.std.specs.Io.KnownBytes.{Appends};
ghost use Rattle.enc_io.specs.Faults.{Rose, count_after};

use crate::devices::sink::Sink;
use enc_io::Failed;
use std::io;
use std::io::{Error, ErrorKind, Write};
use std::marker::Model;

/// A sink over a writer, as of a file or standard output, which it flushes after each write. It
/// tells nothing, and keeps counts of its failures and of its calls, which stand still at
/// `u64::MAX`.
#[derive(Drop)]
pub struct StreamSink<W> {
    writer: W,
    faults: u64,
    calls: u64,
}

impl<W> Model for StreamSink<W> {
    ghost use Rattle.unwrap.specs.StreamSink.{SinkOver};

    ghost Value = { SinkOver W };

    ghost view = { λ s. record { writer = s.writer; faults = s.faults; calls = s.calls } };
}

impl<W: Write> StreamSink<W> {
    /// A sink that writes to the writer.
    pub fn new(writer: W) -> StreamSink<W>
        ensures { result ≡ record { writer = writer; faults = 0; calls = 0 } }
    {
        StreamSink {
            writer,
            faults: 0,
            calls: 0,
        }
    }
}

// Writes once, and flushes. A writer that takes nothing of a nonempty piece has failed.
fn write_and_flush<W: Write>(writer: &mut W, piece: &[u8]) -> io::Result<usize>
    ensures within { WritesAtMost result piece.now }
    ensures some { IfOk result (λ n. 0 < length piece.now → 1 ≤ n) }
    ensures appended { IfOk result (λ n.
        Appends (W.contents writer.old) (W.contents writer.new) (take n piece.now)) }
{
    let n = writer.write(piece)?;
    writer.flush()?;
    if n == 0 && !piece.is_empty() {
        return Err(Error::from(ErrorKind::WriteZero));
    }
    Ok(n)
}

impl<W: Write> Sink for StreamSink<W> {
    ghost taken = { λ _. None };

    ghost faults = { λ s. s.faults };

    ghost calls = { λ s. s.calls };

    /// A flush that fails counts as a write that fails, and so does a writer that takes nothing of
    /// a nonempty piece.
    fn write(&mut self, piece: &[u8]) -> Result<usize, Failed>
        // As of every sink.
        ensures within { WritesAtMost result piece.now }
        ensures some { IfOk result (λ n. 0 < length piece.now → 1 ≤ n) }
        ensures calls { self.new.calls ≡ count_after self.old.calls }
        ensures counted { OnOk result (self.new.faults ≡ self.old.faults) }
        ensures failed { OnErr result (Rose self.old.faults self.new.faults) }
        ensures never_falls { self.old.faults ≤ self.new.faults }
        // What it does to the bytes of its writer, where that tells them.
        ensures appended_there { IfOk result (λ n. Appends (W.contents self.old.writer)
            (W.contents self.new.writer) (take n piece.now)) }
        ensures faults { OnErr result (self.new.faults ≡ count_after self.old.faults) }
    {
        self.calls = self.calls.saturating_add(1);
        match write_and_flush(&mut self.writer, piece) {
            Ok(n) => Ok(n),
            Err(_) => {
                self.faults = self.faults.saturating_add(1);
                Err(Failed)
            }
        }
    }
}
