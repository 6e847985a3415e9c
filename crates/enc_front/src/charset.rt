//! Charsets, which mail words name.

ghost use Rattle.std.specs.Prelude.{◌≡◌, [], ◌∷◌, ◌++◌, is_ok, IfOk, OnOk, IfSome, IsTrue, nat_lt};
ghost use Rattle.std.specs.Prelude.{if◌then◌else◌};
ghost use Rattle.std.specs.Str.{IsUtf8};
ghost use Rattle.std.specs.Option.{option_map};
ghost use Rattle.std.specs.String.{string_bytes};
ghost use Rattle.enc_drivers.specs.Units.{replacement};
ghost use Rattle.enc_front.specs.Indexes.{indexes_of, known};
ghost use Rattle.enc_front.specs.Charset.{encoding_of, charset, ascii_text, marked_text};

#[cfg(test)]
pub(crate) mod tests;

use crate::decoder::Decoder;
use crate::encoding::Encoding;
use crate::tables::Tables;
use crate::whole::append_whole;
use std::alloc::{AllocError, Global};

/// The encoding that a mail word's charset names.
#[derive(Clone, Copy, Debug, PartialEq, Eq, Hash)]
pub struct Charset {
    encoding: Encoding,
}

impl Charset {
    /// The charset with this label, where `tables` has what its encoding needs; else none.
    pub fn for_label(label: &[u8], tables: &Tables) -> Option<Charset>
        ensures encoding { option_map encoding_of result
            ≡ charset label.now (indexes_of tables.now) }
        ensures known { IfSome result
            (λ found. IsTrue (known (encoding_of found) (indexes_of tables.now))) }
    {
        let encoding = Encoding::for_label(label)?;
        if tables.has(encoding) {
            Some(Charset { encoding })
        } else {
            None
        }
    }

    /// The text of `bytes` in the charset, with U+FFFD for each malformed unit. A byte order mark
    /// at the front is dropped, and decides the encoding (Encoding Standard, section 6, "decode").
    /// `tables` must have what the charset's encoding needs. Fails only for want of memory.
    pub fn decode(self, alloc: Global, bytes: &[u8], tables: &Tables) -> Result<String, AllocError>
        requires { IsTrue (known (encoding_of self) (indexes_of tables.now)) }
        ensures { IfOk result
            (λ text. string_bytes text
            ≡ marked_text (encoding_of self) (indexes_of tables.now) bytes.now) }
    {
        let mut text = Vec::new(alloc);
        self.append(bytes, tables, &mut text)?;
        Ok(unsafe { String::from_utf8_unchecked(text) })
    }

    /// Appends the text of `bytes` in the charset to `text`, as [`Charset::decode`] gives it. It is
    /// UTF-8. Fails only for want of memory, and then `text` stays as it was.
    pub fn append(self, bytes: &[u8], tables: &Tables, text: &mut Vec<u8>) -> Result<(), AllocError>
        requires { IsTrue (known (encoding_of self) (indexes_of tables.now)) }
        ensures appended { text.new.items ≡ (if is_ok result
            then text.old.items ++ marked_text (encoding_of self) (indexes_of tables.now) bytes.now
            else text.old.items) }
        ensures utf_8 { OnOk result
            (IsUtf8 (marked_text (encoding_of self) (indexes_of tables.now) bytes.now)) }
    {
        append_whole(Decoder::new(self.encoding, tables), bytes, text)?;
        Ok(())
    }

    /// The text of `bytes` in ASCII, with U+FFFD for each byte above 7F. Fails only for want of
    /// memory.
    pub fn decode_ascii(alloc: Global, bytes: &[u8]) -> Result<String, AllocError>
        ensures { IfOk result (λ text. string_bytes text ≡ ascii_text bytes.now) }
    {
        let mut text = Vec::new(alloc);
        Charset::append_ascii(bytes, &mut text)?;
        Ok(unsafe { String::from_utf8_unchecked(text) })
    }

    /// Appends the text of `bytes` in ASCII to `text`, as [`Charset::decode_ascii`] gives it. It is
    /// UTF-8. Fails only for want of memory, and then `text` stays as it was.
    #[tactic(auto, using(crate::proofs::AsciiLemmas::ascii_text_utf_8))]
    pub fn append_ascii(bytes: &[u8], text: &mut Vec<u8>) -> Result<(), AllocError>
        ensures appended { text.new.items ≡ (if is_ok result
            then text.old.items ++ ascii_text bytes.now else text.old.items) }
        ensures utf_8 { OnOk result (IsUtf8 (ascii_text bytes.now)) }
    {
        let start = text.len();
        text.reserve(bytes.len())?;
        for byte in bytes {
            let Ok(()) = push_ascii(text, *byte) else {
                text.truncate(start);
                return Err(AllocError);
            };
        }
        Ok(())
    }
}

// What stands for a byte past ASCII: U+FFFD.
const REPLACEMENT: [u8; 3] = [0xEF, 0xBF, 0xBD];

// Appends an ASCII byte, or U+FFFD for another.
fn push_ascii(text: &mut Vec<u8>, byte: u8) -> Result<(), AllocError>
    ensures { text.new.items ≡ (if is_ok result
        then text.old.items ++ (if nat_lt byte 0x80 then byte ∷ [] else replacement)
        else text.old.items) }
{
    if byte >= 0x80 {
        return text.extend_from_slice(&REPLACEMENT);
    }
    match text.push(byte) {
        Ok(()) => Ok(()),
        Err(_) => Err(AllocError),
    }
}
