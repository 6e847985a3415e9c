//! What holds of written texts at every text. A function without a body does nothing: its contract
//! is the law.
ghost use Rattle.std.specs.Prelude.{◌≡◌, IfOk, IfErr, string_bytes};
ghost use Rattle.words.specs.declared.decoder.Error.TheVariants.{Memory};
ghost use Rattle.word_writer.specs.Laws.{IsReadBack, HasNoLongWord, HasShortLines};
ghost use Rattle.word_writer.specs.Laws.{IsInAscii, HasNoMark, IsOwnStreamText};

use crate::writer::write_words;
use enc_front::Tables;
use std::alloc::Global;
use words::{Decoder, Error, RecoverStrategy};

/// Each text is read back as it was written, whatever becomes of words that are too long and
/// whatever indexes there are (RFC 2047, sections 4 and 6).
pub fn reading_back()
    ensures { IsReadBack }
{}

/// No encoded word of a written text has more than 75 bytes, and no line more than 76 (RFC 2047,
/// section 2).
pub fn short_words_and_lines()
    ensures words { HasNoLongWord }
    ensures lines { HasShortLines }
{}

/// A written text is ASCII, and no byte order mark stands in front: so a reader of streams gives it
/// as it is.
pub fn ascii_without_a_mark()
    ensures ascii { IsInAscii }
    ensures no_mark { HasNoMark }
    ensures stream_text { IsOwnStreamText }
{}

/// A text, written as the value of a header and read back: the text itself. The only error is
/// `Memory`, for want of memory.
pub fn read_back(
    alloc: Global,
    tables: &Tables,
    strategy: RecoverStrategy,
    text: &str,
) -> Result<String, Error>
    ensures text { IfOk result (λ back. string_bytes back ≡ text.now) }
    ensures fault { IfErr result (λ error. error ≡ Memory) }
{
    let Ok(value) = write_words(alloc, text) else {
        return Err(Error::Memory);
    };
    let decoder = Decoder::new().too_long_encoded_word_strategy(strategy);
    match decoder.decode(alloc, tables, value.as_bytes()) {
        Ok(back) => Ok(back),
        Err(error) => Err(error),
    }
}
