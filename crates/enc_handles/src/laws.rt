//! Laws of text and of the types of this crate. Each function's contract is a law; it does nothing.
ghost use Rattle.std.specs.Prelude.{◌≡◌, ℕ, List};
ghost use Rattle.enc_handles.specs.Scalars.{scalars16};
ghost use Rattle.enc_handles.specs.TypeLaws.{IsEquality, ClonesSame};
ghost use Rattle.enc_handles.specs.Utf16.{encode_utf16_all};
ghost use Rattle.enc_handles.specs.Utf8.{AreScalars};

use crate::results::{CoderResult, DecoderResult, EncoderResult};
use crate::unaligned::UnalignedU16Slice;
use crate::unicode::{NonAscii, Unicode};

/// The scalars of the UTF-16 of scalars are these.
pub fn utf16_is_read_back()
    ensures { (scalars : List ℕ) → AreScalars scalars → scalars16 (encode_utf16_all scalars)
        ≡ scalars }
{}

/// Two values of a type of this crate are equal by `==` exactly where they are the same.
pub fn equality()
    ensures decoder_results { IsEquality ⟦<DecoderResult as PartialEq>⟧.eq }
    ensures encoder_results { IsEquality ⟦<EncoderResult as PartialEq>⟧.eq }
    ensures coder_results { IsEquality ⟦<CoderResult as PartialEq>⟧.eq }
    ensures scalars { IsEquality ⟦<Unicode as PartialEq>⟧.eq }
    ensures scalars_past_ascii { IsEquality ⟦<NonAscii as PartialEq>⟧.eq }
{}

/// A clone of a value of a type of this crate is that value.
pub fn clones<'a>()
    ensures decoder_results { ClonesSame ⟦<DecoderResult as Clone>⟧.is_clone }
    ensures encoder_results { ClonesSame ⟦<EncoderResult as Clone>⟧.is_clone }
    ensures coder_results { ClonesSame ⟦<CoderResult as Clone>⟧.is_clone }
    ensures scalars { ClonesSame ⟦<Unicode as Clone>⟧.is_clone }
    ensures scalars_past_ascii { ClonesSame ⟦<NonAscii as Clone>⟧.is_clone }
    ensures units { ClonesSame ⟦<UnalignedU16Slice<'a> as Clone>⟧.is_clone }
{}
