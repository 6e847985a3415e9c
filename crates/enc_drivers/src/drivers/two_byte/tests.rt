//! The driver of two-byte codes: each call once.

use crate::codes::euc_kr::EucKr;
use crate::drivers::two_byte::TwoByteDriver;
use crate::testing::{Alphas, same};
use enc_handles::results::DecoderResult::*;

#[test]
fn both_widths(rt: HostRuntime) {
    let mut driver = TwoByteDriver::new(EucKr::new(&Alphas));
    let mut bytes = [0; 8];
    let held = driver.decode_to_utf8_raw(b"a\xb0", &mut bytes, false);
    same(&rt, &held, &(InputEmpty, 2, 1), &"held");
    let mut units = [0; 4];
    let end = driver.decode_to_utf16_raw(b"\xa1b", &mut units, true);
    same(&rt, &end, &(InputEmpty, 2, 2), &"end");
    same(&rt, &(units[0], units[1]), &(0x3B1, 0x62), &"units");
}

// The copy of ASCII stores a stride before it looks at it: behind the text stands what followed in
// the source.
#[test]
fn copies_ascii_by_strides(rt: HostRuntime) {
    let mut driver = TwoByteDriver::new(EucKr::new(&Alphas));
    let mut bytes = [0; 16];
    let wrong = driver.decode_to_utf8_raw(b"abc\xffxxxxxxxxxxxx", &mut bytes, true);
    same(&rt, &wrong, &(Malformed(1, 0), 4, 3), &"wrong");
    same(
        &rt,
        &(bytes[0], bytes[1], bytes[2]),
        &(b'a', b'b', b'c'),
        &"text",
    );
    same(&rt, &bytes[5], &b'x', &"behind");
}
