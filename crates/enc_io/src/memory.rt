//! A source in memory.
ghost use Rattle.std.specs.Prelude.{◌≡◌, ◌++◌, ◌↔◌, ◌≤◌, Some, IsErr, IsTrue, IfOk, OnOk, OnErr};
ghost use Rattle.std.specs.Prelude.{min, length, take, drop};
ghost use Rattle.std.specs.Io.{ReadsAtMost};
ghost use Rattle.std.specs.Io.KnownBytes.{ReadConsumes};
ghost use Rattle.enc_io.specs.Faults.{Rose, count_after, is_failing};

use crate::outside::{Failed, Source};
use std::marker::Model;

#[cfg(test)]
mod tests;

/// A source that gives the bytes of a vector, at most `step` at a time, and fails at the calls
/// whose numbers it was given. It numbers its own calls from 1; the number stays at `u64::MAX` once
/// that is reached.
#[derive(Drop)]
pub struct MemorySource {
    bytes: Vec<u8>,
    place: usize,
    step: usize,
    failing: Vec<u64>,
    calls: u64,
    faults: u64,
}

impl Model for MemorySource {
    ghost use Rattle.std.specs.Prelude.{◌≤◌, drop, vec_len};
    ghost use Rattle.enc_io.specs.Memory.{Memory};

    ghost Value = { Memory };

    ghost view = { λ s. record {
      left = drop s.place s.bytes.items;
      step = s.step;
      failing = s.failing.items;
      calls = s.calls;
      faults = s.faults;
    } };

    ghost invariant = { λ s. (s.place ≤ vec_len s.bytes) × (1 ≤ s.step) };
}

impl MemorySource {
    /// A source of these bytes, which moves at most `step` of them in one call and fails at the
    /// calls whose numbers are in `failing`.
    pub fn new(bytes: Vec<u8>, step: usize, failing: Vec<u64>) -> MemorySource
        requires { 1 ≤ step }
        ensures { result ≡ record {
          left = bytes.items;
          step = step;
          failing = failing.items;
          calls = 0;
          faults = 0;
        } }
    {
        MemorySource {
            bytes,
            place: 0,
            step,
            failing,
            calls: 0,
            faults: 0,
        }
    }
}

impl Source for MemorySource {
    ghost left = { λ s. Some s.left };

    ghost faults = { λ s. s.faults };

    ghost calls = { λ s. s.calls };

    fn read(&mut self, buf: &mut [u8]) -> Result<usize, Failed>
        // As of every source.
        ensures within { ReadsAtMost result buf.new }
        ensures moved { ReadConsumes (Some self.old.left) (Some self.new.left) result buf.new }
        ensures counted { OnOk result (self.new.faults ≡ self.old.faults) }
        ensures failed { OnErr result (Rose self.old.faults self.new.faults) }
        ensures never_falls { self.old.faults ≤ self.new.faults }
        // What it does exactly.
        ensures fails { IsErr result ↔ IsTrue (is_failing self.old.failing self.new.calls) }
        ensures calls { self.new.calls ≡ count_after self.old.calls }
        ensures faults { OnErr result (self.new.faults ≡ count_after self.old.faults) }
        ensures amount { IfOk result (λ n. n ≡ min self.old.step
            (min (length buf.old) (length self.old.left))) }
        ensures given { IfOk result (λ n. buf.new ≡ take n self.old.left ++ drop n buf.old) }
        ensures rest { IfOk result (λ n. self.new.left ≡ drop n self.old.left) }
        ensures kept { OnErr result (self.new.left ≡ self.old.left) }
        ensures untouched { OnErr result (buf.new ≡ buf.old) }
        ensures step { self.new.step ≡ self.old.step }
        ensures failing { self.new.failing ≡ self.old.failing }
    {
        self.calls = self.calls.saturating_add(1);
        if self.failing.contains(&self.calls) {
            self.faults = self.faults.saturating_add(1);
            return Err(Failed);
        }
        let left = &self.bytes[self.place..];
        let n = self.step.min(buf.len()).min(left.len());
        buf[..n].copy_from_slice(&left[..n]);
        self.place += n;
        Ok(n)
    }
}
