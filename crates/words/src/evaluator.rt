//! The text of parsed words and of clear text (RFC 2047, sections 4 and 6).
ghost use Rattle.std.specs.Prelude.{◌≡◌, ◌⊎◌, ◌++◌, Ok, Err, Some, None, map, All, IsTrue};
ghost use Rattle.std.specs.Prelude.{IfOk, OnOk, IfErr, IfSome, string_bytes};
ghost use Rattle.std.specs.Str.{IsUtf8};
ghost use Rattle.std.specs.Option.{option_map};
ghost use Rattle.enc_front.specs.Charset.{encoding_of};
ghost use Rattle.enc_front.specs.Indexes.{indexes_of, known};
ghost use Rattle.words.specs.declared.evaluator.EvaluatorError.TheVariants.{Memory};
ghost use Rattle.words.specs.declared.evaluator.EvaluatorError.TheVariants.{DecodeBase64Error};
ghost use Rattle.words.specs.Base64.{b_value};
ghost use Rattle.words.specs.Fault.{IsTextFault};
ghost use Rattle.words.specs.Header.{underscore_to_space, q_value, value_of, clear_text};
ghost use Rattle.words.specs.Parsed.{ParsedWord, parsed_of, sliced_of, in_charset};
ghost use Rattle.words.specs.Parsed.{parsed_text, parsed_texts, IsKnown, IsKnownSlice};
ghost use Rattle.words.specs.Appends.{Appends};

use crate::b_text;
use crate::parser::{Encoding, ParsedEncodedWord, ParsedEncodedWords, ParsedSlice};
use enc_front::{Charset, Tables};
use qp::{ParseMode, QuotedPrintableError};
use std::alloc::{AllocError, Global};
use thiserror::Error;

/// Why parsed words have no text.
#[derive(Debug, PartialEq, Drop, Error)]
pub enum EvaluatorError {
    /// Clear text, or a skipped word, isn't UTF-8.
    #[error("clear text is not UTF-8 at byte {valid_up_to}")]
    DecodeUtf8Error {
        /// The length in bytes of the longest front of the text that is UTF-8.
        valid_up_to: usize,
    },
    /// The text of a B word isn't Base64.
    #[error("the base64 text is wrong")]
    DecodeBase64Error,
    /// Never answered: every Q text has a value.
    #[error(transparent)]
    DecodeQuotedPrintableError(QuotedPrintableError),
    /// Want of memory.
    #[error("no memory")]
    Memory,
}

impl From<AllocError> for EvaluatorError {
    ghost use Rattle.std.specs.Prelude.{◌≡◌};
    ghost use Rattle.words.specs.declared.evaluator.EvaluatorError.TheVariants.{Memory};

    ghost from_gives = { λ _ e. e ≡ Memory };

    fn from(_error: AllocError) -> EvaluatorError {
        EvaluatorError::Memory
    }
}

// The value of a B text. `spare` is free to change.
fn decode_base64(
    alloc: Global,
    encoded_bytes: &[u8],
    spare: &mut Vec<u8>,
) -> Result<Vec<u8>, EvaluatorError>
    ensures value { IfOk result (λ value. b_value encoded_bytes.now ≡ Some value.items) }
    ensures fault { IfErr result (λ error. (error ≡ Memory) ⊎
        ((error ≡ DecodeBase64Error) × (b_value encoded_bytes.now ≡ None))) }
{
    match b_text::decode(alloc, encoded_bytes, spare)? {
        Some(value) => Ok(value),
        None => Err(EvaluatorError::DecodeBase64Error),
    }
}

// Puts the space in the place of each underscore that stands for it.
fn underscores_to_spaces(text: &mut [u8])
    ensures { text.new ≡ map underscore_to_space text.old }
{
    for byte in text.iter_mut() {
        if *byte == b'_' {
            *byte = b' ';
        }
    }
}

// The value of a Q text (RFC 2047, section 4.2). `spare` is free to change.
#[tactic(auto, unfolding(crate::specs::Header::q_value))]
fn decode_quoted_printable(
    alloc: Global,
    encoded_bytes: &[u8],
    spare: &mut Vec<u8>,
) -> Result<Vec<u8>, AllocError>
    ensures { IfOk result (λ value. value.items ≡ q_value encoded_bytes.now) }
{
    spare.clear();
    spare.extend_from_slice(encoded_bytes)?;
    underscores_to_spaces(spare);
    match qp::decode(alloc, spare, ParseMode::Robust) {
        Ok(value) => Ok(value),
        Err(_) => Err(AllocError),
    }
}

// The value of a word's text. `spare` is free to change.
fn decode_with_encoding(
    alloc: Global,
    encoding: &Encoding,
    encoded_bytes: &[u8],
    spare: &mut Vec<u8>,
) -> Result<Vec<u8>, EvaluatorError>
    ensures value { IfOk result (λ value.
        value_of encoding.now encoded_bytes.now ≡ Some value.items) }
    ensures fault { IfErr result (λ error. (error ≡ Memory) ⊎
        ((error ≡ DecodeBase64Error) × (value_of encoding.now encoded_bytes.now ≡ None))) }
{
    match encoding {
        Encoding::B => decode_base64(alloc, encoded_bytes, spare),
        Encoding::Q => Ok(decode_quoted_printable(alloc, encoded_bytes, spare)?),
    }
}

// Appends the text of a value in a charset, or in ASCII where the charset is unknown.
fn append_in_charset(
    charset: Option<Charset>,
    value: &[u8],
    tables: &Tables,
    text: &mut Vec<u8>,
) -> Result<(), AllocError>
    requires { IfSome charset (λ found.
        IsTrue (known (encoding_of found) (indexes_of tables.now))) }
    ensures text { OnOk result (text.new.items ≡ text.old.items
        ++ in_charset (option_map encoding_of charset) (indexes_of tables.now) value.now) }
    ensures utf_8 { OnOk result
        (IsUtf8 (in_charset (option_map encoding_of charset) (indexes_of tables.now) value.now)) }
{
    match charset {
        Some(charset) => charset.append(value, tables, text),
        None => Charset::append_ascii(value, text),
    }
}

// Appends clear text as it stands.
fn append_clear_text(bytes: &[u8], text: &mut Vec<u8>) -> Result<(), EvaluatorError>
    ensures text { OnOk result (Appends (clear_text bytes.now) text.old.items text.new.items) }
    ensures fault { IfErr result (IsTextFault (clear_text bytes.now)) }
{
    match str::from_utf8(bytes) {
        Ok(_) => {
            text.extend_from_slice(bytes)?;
            Ok(())
        }
        Err(error) => {
            let valid_up_to = error.valid_up_to();
            Err(EvaluatorError::DecodeUtf8Error { valid_up_to })
        }
    }
}

// Appends the text of a word. `spare` is free to change.
fn append_word(
    alloc: Global,
    charset: Option<Charset>,
    encoding: &Encoding,
    encoded_text: &[u8],
    tables: &Tables,
    text: &mut Vec<u8>,
    spare: &mut Vec<u8>,
) -> Result<(), EvaluatorError>
    requires { IfSome charset (λ found.
        IsTrue (known (encoding_of found) (indexes_of tables.now))) }
    ensures text { OnOk result (Appends (parsed_text (indexes_of tables.now)
        (ParsedWord (option_map encoding_of charset) encoding.now encoded_text.now))
        text.old.items text.new.items) }
    ensures fault { IfErr result (IsTextFault (parsed_text (indexes_of tables.now)
        (ParsedWord (option_map encoding_of charset) encoding.now encoded_text.now))) }
{
    let value = decode_with_encoding(alloc, encoding, encoded_text, spare)?;
    append_in_charset(charset, value.as_slice(), tables, text)?;
    Ok(())
}

// Appends the text of a word or of clear text. `spare` is free to change.
fn append_part(
    alloc: Global,
    part: &ParsedSlice<'_>,
    tables: &Tables,
    text: &mut Vec<u8>,
    spare: &mut Vec<u8>,
) -> Result<(), EvaluatorError>
    requires { IsKnownSlice (indexes_of tables.now) part.now }
    ensures text { OnOk result (Appends (parsed_text (indexes_of tables.now) (sliced_of part.now))
        text.old.items text.new.items) }
    ensures fault { IfErr result
        (IsTextFault (parsed_text (indexes_of tables.now) (sliced_of part.now))) }
{
    match part {
        ParsedSlice::ClearText(clear_text) => append_clear_text(clear_text, text),
        ParsedSlice::EncodedWord {
            charset,
            encoding,
            encoded_text,
        } => append_word(alloc, *charset, encoding, encoded_text, tables, text, spare),
    }
}

// As `run`, over parsed words where they stand in the header, or elsewhere.
pub(crate) fn text_of(
    alloc: Global,
    parsed: Vec<ParsedSlice<'_>>,
    tables: &Tables,
) -> Result<String, EvaluatorError>
    requires { All (IsKnownSlice (indexes_of tables.now)) parsed.items }
    ensures text { IfOk result (λ text.
        parsed_texts (indexes_of tables.now) (map sliced_of parsed.entry.items)
        ≡ Ok (string_bytes text)) }
    ensures fault { IfErr result (IsTextFault
        (parsed_texts (indexes_of tables.now) (map sliced_of parsed.entry.items))) }
{
    let mut text = Vec::new(alloc);
    let mut spare = Vec::new(alloc);
    for part in parsed {
        append_part(alloc, &part, tables, &mut text, &mut spare)?;
    }
    Ok(unsafe { String::from_utf8_unchecked(text) })
}

// Parsed words, with their bytes where they stand.
fn slices_of(
    alloc: Global,
    parsed: &[ParsedEncodedWord],
) -> Result<Vec<ParsedSlice<'_>>, AllocError>
    ensures { IfOk result (λ slices. map sliced_of slices.items ≡ map parsed_of parsed.now) }
{
    let mut slices = Vec::with_capacity(alloc, parsed.len())?;
    for part in parsed {
        slices.push(part.as_slice())?;
    }
    Ok(slices)
}

/// The texts of parsed words and of clear text, joined: of a word its value in
/// its charset, or in ASCII where the charset is unknown; clear text as it
/// stands (RFC 2047, sections 4 and 6.2). `tables` must have what each charset's
/// encoding needs. The first part without a text gives the error:
/// `DecodeUtf8Error` for clear text that isn't UTF-8, `DecodeBase64Error` for a
/// B text that isn't Base64. `Memory` comes for want of memory, and
/// `DecodeQuotedPrintableError` never.
pub fn run(
    alloc: Global,
    parsed: ParsedEncodedWords,
    tables: &Tables,
) -> Result<String, EvaluatorError>
    requires { All (IsKnown (indexes_of tables.now)) parsed.items }
    ensures text { IfOk result (λ text.
        parsed_texts (indexes_of tables.now) (map parsed_of parsed.items)
        ≡ Ok (string_bytes text)) }
    ensures fault { IfErr result (IsTextFault
        (parsed_texts (indexes_of tables.now) (map parsed_of parsed.items))) }
{
    let slices = slices_of(alloc, &parsed)?;
    text_of(alloc, slices, tables)
}

#[cfg(test)]
mod tests;
