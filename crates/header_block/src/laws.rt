//! Laws of header blocks. Each function's contract is a law.
ghost use Rattle.std.specs.Prelude.{◌≡◌, ℕ, List, Some, map};
ghost use Rattle.enc_drivers.specs.Units.{AreBytes};
ghost use Rattle.enc_front.specs.Indexes.{Indexes};
ghost use Rattle.enc_io.specs.Options.{Options};
ghost use Rattle.enc_io.specs.Reader.{fresh as fresh_reader};
ghost use Rattle.enc_io.specs.Text.{stream_text};
ghost use Rattle.words.specs.declared.strategy.RecoverStrategy.{RecoverStrategy};
ghost use Rattle.header_block.specs.Block.{fresh};
ghost use Rattle.header_block.specs.Calls.{Calls, Shown, shown_of};
ghost use Rattle.header_block.specs.Fields.{fields};

/// What calls of a fresh block show up to its end, with failed reads and want of memory between
/// them, is one answer for each field of the stream's text, in order: its name and the text of its
/// value, or the fault of that.
#[tactic(auto, using(crate::proofs::CallLemmas::calls_law))]
pub fn joined_answers()
    ensures { (options : Options) (known indexes : Indexes) (strategy : RecoverStrategy)
        (buffer faults calls : ℕ) (bytes : List ℕ) (shown : List Shown) → AreBytes bytes
        → Calls (fresh (fresh_reader options known buffer (Some bytes) faults calls) strategy
        indexes) shown
        → shown ≡ map (shown_of strategy indexes) (fields (stream_text options known bytes)) }
{}
