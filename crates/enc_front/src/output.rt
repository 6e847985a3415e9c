//! What a decoder writes: bytes of UTF-8, or code units of UTF-16.
ghost use Rattle.std.specs.Prelude.{◌≡◌, ℕ, ◌<◌, ◌≤◌, ◌++◌, List, length, take, None, IfSome, refl};
ghost use Rattle.enc_drivers.specs.Decodes.{DecodesRaw};
ghost use Rattle.enc_front.specs.Output.{Output, utf_8, utf_16, form_of, room_in, replacement_in};
ghost use Rattle.enc_front.specs.Variant.{unit_in, standing_in};

use crate::variant::VariantDecoder;
use enc_handles::results::DecoderResult;

// An element of what is written.
pub(crate) trait Element {
    // Of which text.
    ghost output: { Output };

    // Elements as numbers.
    ghost values: { List Self → List ℕ };

    // Decodes, as the driver does.
    fn decode_raw(
        variant: &mut VariantDecoder<'_>,
        src: &[u8],
        dst: &mut [Self],
        last: bool,
    ) -> (DecoderResult, usize, usize)
        ensures { DecodesRaw (unit_in variant.old) (unit_in variant.new) (form_of output)
            (room_in output) last (standing_in variant.old) (standing_in variant.new)
            src.now (values dst.old) (values dst.new) result };

    // Writes U+FFFD to the front, and answers its length; none where there is no room for it.
    fn put_replacement(dst: &mut [Self]) -> Option<usize>
        ensures full { result ≡ None → length dst.new < length (replacement_in output) }
        ensures within { IfSome result (λ n. n ≤ length dst.new) }
        ensures count { IfSome result (λ n. n ≡ length (replacement_in output)) }
        ensures text { IfSome result (λ n. take n (values dst.new) ≡ replacement_in output) };

    // The numbers are those of each element.
    ghost values_length: { (l : List Self) → length (values l) ≡ length l };

    ghost values_take: { (n : ℕ) (l : List Self) → take n (values l) ≡ values (take n l) };

    ghost values_append: { (a b : List Self) → values (a ++ b) ≡ values a ++ values b };
}

impl Element for u8 {
    ghost output = { utf_8 };

    ghost values = { λ l. l };

    fn decode_raw(
        variant: &mut VariantDecoder<'_>,
        src: &[u8],
        dst: &mut [u8],
        last: bool,
    ) -> (DecoderResult, usize, usize) {
        variant.decode_to_utf8_raw(src, dst, last)
    }

    fn put_replacement(dst: &mut [u8]) -> Option<usize> {
        if dst.len() < 3 {
            return None;
        }
        dst[0] = 0xEF;
        dst[1] = 0xBF;
        dst[2] = 0xBD;
        Some(3)
    }

    ghost values_length = { λ l. refl };

    ghost values_take = { λ n l. refl };

    ghost values_append = { λ a b. refl };
}

impl Element for u16 {
    ghost output = { utf_16 };

    ghost values = { λ l. l };

    fn decode_raw(
        variant: &mut VariantDecoder<'_>,
        src: &[u8],
        dst: &mut [u16],
        last: bool,
    ) -> (DecoderResult, usize, usize) {
        variant.decode_to_utf16_raw(src, dst, last)
    }

    fn put_replacement(dst: &mut [u16]) -> Option<usize> {
        if dst.is_empty() {
            return None;
        }
        dst[0] = 0xFFFD;
        Some(1)
    }

    ghost values_length = { λ l. refl };

    ghost values_take = { λ n l. refl };

    ghost values_append = { λ a b. refl };
}
