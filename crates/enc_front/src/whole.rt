//! The text of whole values, in one call of a decoder.
ghost use Rattle.std.specs.Prelude.{◌≡◌, ◌++◌, if◌then◌else◌, is_ok, IfOk, OnOk, IsTrue};
ghost use Rattle.std.specs.Prelude.{string_bytes};
ghost use Rattle.std.specs.Str.{IsUtf8};
ghost use Rattle.enc_drivers.specs.Units.{text};
ghost use Rattle.enc_front.specs.Decoder.{to_come};
ghost use Rattle.enc_front.specs.DecoderView.{place_of, standing_of, fresh};
ghost use Rattle.enc_front.specs.Indexes.{indexes_of, known};
ghost use Rattle.enc_front.specs.Marks.{own};
ghost use Rattle.enc_front.specs.Units.{decoded};
ghost use Rattle.enc_front.specs.Whole.{some_malformed, has_malformed};

#[cfg(test)]
mod tests;

use crate::decoder::Decoder;
use crate::encoding::Encoding;
use crate::tables::Tables;
use std::alloc::{AllocError, Global};

impl Encoding {
    /// The text of `bytes` in this encoding, with U+FFFD for each malformed unit, and whether there
    /// is one. A byte order mark is decoded like other bytes (Encoding Standard, section 6, "UTF-8
    /// decode without BOM"). `tables` must have what the encoding needs. Fails only for want of
    /// memory.
    pub fn decode_without_bom_handling(
        self,
        alloc: Global,
        tables: &Tables,
        bytes: &[u8],
    ) -> Result<(String, bool), AllocError>
        requires { IsTrue (known self (indexes_of tables.now)) }
        ensures text { IfOk result
            (λ r. string_bytes r.0 ≡ decoded self (indexes_of tables.now) bytes.now) }
        ensures malformed { IfOk result
            (λ r. r.1 ≡ has_malformed self (indexes_of tables.now) bytes.now) }
    {
        decode_whole(
            alloc,
            Decoder::new_without_bom_handling(self, tables),
            bytes,
        )
    }

    /// As [`Encoding::decode_without_bom_handling`], of `bytes` without the byte order mark of this
    /// encoding, where one is at the front (Encoding Standard, section 6, "UTF-8 decode").
    pub fn decode_with_bom_removal(
        self,
        alloc: Global,
        tables: &Tables,
        bytes: &[u8],
    ) -> Result<(String, bool), AllocError>
        requires { IsTrue (known self (indexes_of tables.now)) }
        ensures text { IfOk result (λ r. string_bytes r.0
            ≡ decoded self (indexes_of tables.now) (own self bytes.now)) }
        ensures malformed { IfOk result (λ r. r.1
            ≡ has_malformed self (indexes_of tables.now) (own self bytes.now)) }
    {
        decode_whole(alloc, Decoder::new_with_bom_removal(self, tables), bytes)
    }
}

// The text of all bytes of a decoder's stream, with U+FFFD for each malformed unit, and whether
// there is one.
fn decode_whole(
    alloc: Global,
    decoder: Decoder<'_>,
    bytes: &[u8],
) -> Result<(String, bool), AllocError>
    requires { standing_of decoder ≡ fresh (place_of decoder).marks (place_of decoder).encoding
        (place_of decoder).indexes }
    ensures text { IfOk result
        (λ r. string_bytes r.0 ≡ text (to_come (place_of decoder.entry) bytes.now)) }
    ensures malformed { IfOk result
        (λ r. r.1 ≡ some_malformed (to_come (place_of decoder.entry) bytes.now)) }
{
    let mut text = Vec::new(alloc);
    let malformed = append_whole(decoder, bytes, &mut text)?;
    Ok((unsafe { String::from_utf8_unchecked(text) }, malformed))
}

// Appends the text of all bytes of a decoder's stream, with U+FFFD for each malformed unit, and
// answers whether there is one. The room is taken once. Where there is no memory, nothing changes.
pub(crate) fn append_whole(
    mut decoder: Decoder<'_>,
    bytes: &[u8],
    buffer: &mut Vec<u8>,
) -> Result<bool, AllocError>
    requires { standing_of decoder ≡ fresh (place_of decoder).marks (place_of decoder).encoding
        (place_of decoder).indexes }
    ensures appended { buffer.new.items ≡ (if is_ok result
        then buffer.old.items ++ text (to_come (place_of decoder.entry) bytes.now)
        else buffer.old.items) }
    ensures malformed { IfOk result (λ some.
        some ≡ some_malformed (to_come (place_of decoder.entry) bytes.now)) }
    ensures utf_8 { OnOk result (IsUtf8 (text (to_come (place_of decoder.entry) bytes.now))) }
{
    let Some(room) = decoder.max_utf8_buffer_length(bytes.len()) else {
        return Err(AllocError);
    };
    let start = buffer.len();
    let Some(end) = start.checked_add(room) else {
        return Err(AllocError);
    };
    buffer.resize(end, 0)?;
    let (_, _, written, malformed) = decoder.decode_to_utf8(bytes, &mut buffer[start..], true);
    buffer.truncate(start + written);
    Ok(malformed)
}
