//! Laws of readers of a stream's text. Each function's contract is a law.
ghost use Rattle.std.specs.Prelude.{◌≡◌, ℕ, ◌≤◌, List, [], length, true, Ok};
ghost use Rattle.std.specs.declared.option.Option.{Option};
ghost use Rattle.enc_front.specs.Indexes.{Indexes};
ghost use Rattle.enc_io.specs.BuilderView.{options_of};
ghost use Rattle.enc_io.specs.Joined.{Joined};
ghost use Rattle.enc_io.specs.Options.{Options, default_options};
ghost use Rattle.enc_io.specs.Reader.{fresh, still};
ghost use Rattle.enc_io.specs.ReaderCalls.{HasGivenText, KeepsLittle};
ghost use Rattle.enc_io.specs.Reader.{ReaderStanding};
ghost use Rattle.enc_io.specs.ReaderView.{standing_of};
ghost use Rattle.enc_io.specs.Text.{stream_text};

use crate::bom::PossibleBom;
use crate::builder::{BuildError, DecodeReaderBytesBuilder};
use crate::outside::{Failed, Source};
use crate::reader::{DecodeReaderBytes, ReadError};
use crate::tiny::TinyTranscoder;
use std::alloc::AllocError;

/// What a fresh reader has still to give is the text of the stream.
#[tactic(auto, using(crate::proofs::ReaderLemmas::still_fresh))]
pub fn fresh_gives_all()
    ensures { (options : Options) (indexes : Indexes) (buffer : ℕ) (left : Option (List ℕ))
        (faults calls : ℕ) (rest : List ℕ)
        → still (fresh options indexes buffer left faults calls) rest
        ≡ stream_text options indexes rest }
{}

/// What reads of a fresh reader give in all is the text of the bytes that they took, whatever the
/// lengths of their buffers and the faults between them.
#[tactic(auto, using(crate::proofs::JoinedLemmas::joined_law))]
pub fn joined_reads()
    ensures { (options : Options) (indexes : Indexes) (buffer : ℕ) (left : Option (List ℕ))
        (faults calls : ℕ) (last : ReaderStanding) (moved given : List ℕ)
        → Joined (fresh options indexes buffer left faults calls) last moved given
        → HasGivenText last → given ≡ stream_text options indexes moved }
{}

/// A reader that keeps little, as after a failed read of its source, has at most nine bytes to give
/// where nothing more comes: the text of at most three.
#[tactic(auto, using(crate::proofs::BoundLemmas::few_reader))]
pub fn little_is_few<S: Source>(reader: &DecodeReaderBytes<'_, S>)
    ensures { KeepsLittle (standing_of reader.now)
        → length (still (standing_of reader.now) []) ≤ 9 }
{}

/// Two first bytes of streams are equal exactly where they are the same.
pub fn equal_boms(a: PossibleBom, b: PossibleBom) -> bool
    ensures equal { result ≡ true → (a.bytes ≡ b.bytes) × (a.len ≡ b.len) }
    ensures same { a ≡ b → result ≡ true }
{
    a == b
}

/// Two answers of a reader are equal exactly where they are the same.
pub fn equal_read_errors(a: ReadError, b: ReadError) -> bool
    ensures equal { result ≡ true → a ≡ b }
    ensures same { a ≡ b → result ≡ true }
{
    a == b
}

/// Two answers of a builder are equal exactly where they are the same.
pub fn equal_build_errors(a: BuildError, b: BuildError) -> bool
    ensures equal { result ≡ true → a ≡ b }
    ensures same { a ≡ b → result ≡ true }
{
    a == b
}

/// Two failures are equal.
pub fn equal_failures(a: Failed, b: Failed) -> bool
    ensures { result ≡ true }
{
    a == b
}

/// A clone of a builder is the same.
pub fn clone_of_builder(
    builder: &DecodeReaderBytesBuilder,
) -> Result<DecodeReaderBytesBuilder, AllocError>
    ensures { result ≡ Ok builder.now }
{
    builder.clone()
}

/// A builder by default has the default options.
pub fn default_builder() -> DecodeReaderBytesBuilder
    ensures { options_of result ≡ default_options }
{
    DecodeReaderBytesBuilder::default()
}

/// A clone of a transcoder is the same.
pub fn clone_of_transcoder(tiny: &TinyTranscoder) -> Result<TinyTranscoder, AllocError>
    ensures { result ≡ Ok tiny.now }
{
    tiny.clone()
}

/// A clone of the first bytes of a stream is the same.
pub fn clone_of_bom(bom: &PossibleBom) -> Result<PossibleBom, AllocError>
    ensures { result ≡ Ok bom.now }
{
    bom.clone()
}

/// A clone of an answer of a reader is the same.
pub fn clone_of_read_error(error: &ReadError) -> Result<ReadError, AllocError>
    ensures { result ≡ Ok error.now }
{
    error.clone()
}

/// A clone of an answer of a builder is the same.
pub fn clone_of_build_error(error: &BuildError) -> Result<BuildError, AllocError>
    ensures { result ≡ Ok error.now }
{
    error.clone()
}
