use crate::ascii::{
    ascii_to_ascii_double_stride, ascii_to_ascii_stride, ascii_to_basic_latin_double_stride,
    ascii_to_basic_latin_stride, basic_latin_to_ascii_double_stride, basic_latin_to_ascii_stride,
    pack_stride, unpack_stride, validate_ascii_double_stride, validate_ascii_stride,
};
use crate::bmp::validate_bmp_stride;
use crate::latin1::{validate_latin1_str_simd, validate_latin1_str_stride};
use crate::runs::{ascii_to_ascii, ascii_to_basic_latin};
use crate::simd_funcs::{
    contains_surrogates, is_half_stride_bidi, is_u16x8_bidi, load16_unaligned, simd_byte_swap,
    simd_is_ascii, simd_is_basic_latin, simd_is_latin1, simd_is_str_latin1, simd_pack, simd_unpack,
    simd_unpack_narrow, store8_unaligned, store16_unaligned, to_u16_lanes,
};
use std::simd::prelude::*;

// Sixteen bytes `a`, with another at a place.
fn letters(at: usize, byte: u8) -> [u8; 16] {
    let mut bytes = [b'a'; 16];
    if at < 16 {
        bytes[at] = byte;
    }
    bytes
}

// Sixteen units of `a`, with another at a place.
fn units(at: usize, unit: u16) -> [u16; 16] {
    let mut all = [0x61; 16];
    if at < 16 {
        all[at] = unit;
    }
    all
}

// Eight units of one value, with another in the fourth lane.
fn lanes(value: u16, other: u16) -> u16x8 {
    u16x8::from_array([value, value, value, other, value, value, value, value])
}

#[test]
fn strides_of_ascii(rt: HostRuntime) {
    let mut bytes = [0; 16];
    let mut wide = [0; 16];
    assert_eq!(&rt; validate_ascii_stride(&letters(16, 0)), None);
    assert_eq!(&rt; validate_ascii_stride(&letters(3, 0x80)), Some((0x80, 3)));
    assert_eq!(&rt;
        ascii_to_ascii_stride(&letters(15, 0xFF), &mut bytes),
        Some((0xFF, 15))
    );
    assert_eq!(&rt; bytes[14], b'a');
    assert_eq!(&rt;
        ascii_to_basic_latin_stride(&letters(0, 0x7F), &mut wide),
        None
    );
    assert_eq!(&rt; wide[0], 0x7F);
    assert_eq!(&rt;
        basic_latin_to_ascii_stride(&units(9, 0x80), &mut bytes),
        Some((0x80, 9))
    );
    assert_eq!(&rt; bytes[8], b'a');
    assert_eq!(&rt;
        basic_latin_to_ascii_stride(&units(9, 0x161), &mut bytes),
        Some((0x161, 9))
    );
}

#[test]
fn double_strides_of_ascii(rt: HostRuntime) {
    let mut bytes = [[0; 16]; 2];
    let mut wide = [[0; 16]; 2];
    let second = [letters(16, 0), letters(1, 0x80)];
    assert_eq!(&rt; validate_ascii_double_stride(&second), Some((0x80, 17)));
    assert_eq!(&rt;
        ascii_to_ascii_double_stride(&second, &mut bytes),
        Some((0x80, 17))
    );
    assert_eq!(&rt; bytes[1][0], b'a');
    let first = [letters(4, 0x90), letters(1, 0x80)];
    assert_eq!(&rt;
        ascii_to_ascii_double_stride(&first, &mut bytes),
        Some((0x90, 4))
    );
    let none = [letters(16, 0), letters(16, 0)];
    assert_eq!(&rt; ascii_to_basic_latin_double_stride(&none, &mut wide), None);
    assert_eq!(&rt; wide[1][15], 0x61);
    let wide = [units(16, 0), units(15, 0x3B1)];
    assert_eq!(&rt;
        basic_latin_to_ascii_double_stride(&wide, &mut bytes),
        Some((0x3B1, 31))
    );
    assert_eq!(&rt; bytes[1][14], b'a');
}

#[test]
fn questions_on_lanes(rt: HostRuntime) {
    for other in [0x81, 0xFFF, 0xFFFF] {
        assert_eq!(&rt; simd_is_basic_latin(lanes(0x61, other)), false);
    }
    assert_eq!(&rt; simd_is_basic_latin(lanes(0x61, 0x7F)), true);
    assert_eq!(&rt; simd_is_latin1(lanes(0x61, 0xFF)), true);
    assert_eq!(&rt; simd_is_latin1(lanes(0x61, 0x100)), false);
    assert_eq!(&rt; simd_is_ascii(load16_unaligned(&letters(7, 0x81))), false);
    assert_eq!(&rt; simd_is_ascii(load16_unaligned(&letters(16, 0))), true);
    assert_eq!(&rt;
        simd_is_str_latin1(load16_unaligned(&letters(7, 0xC3))),
        true
    );
    assert_eq!(&rt;
        simd_is_str_latin1(load16_unaligned(&letters(7, 0xC4))),
        false
    );
    assert_eq!(&rt;
        validate_latin1_str_simd(load16_unaligned(&letters(7, 0xC4))),
        Some(7)
    );
    assert_eq!(&rt; validate_latin1_str_stride(&letters(7, 0xC3)), None);
    assert_eq!(&rt; contains_surrogates(lanes(0x20, 0xDFFF)), true);
    assert_eq!(&rt; contains_surrogates(lanes(0x20, 0xE000)), false);
    assert_eq!(&rt; validate_bmp_stride(&units(15, 0xD800)), Some(15));
    assert_eq!(&rt; validate_bmp_stride(&units(15, 0xD7FF)), None);
}

#[test]
fn units_of_right_to_left_text(rt: HostRuntime) {
    for unit in [
        0x590, 0x8FF, 0xFB1D, 0xFDFF, 0xFE70, 0xFEFE, 0xD802, 0xD803, 0xD83A, 0xD83B, 0x200F,
        0x202B, 0x202E, 0x2067,
    ] {
        assert_eq!(&rt; is_u16x8_bidi(lanes(0x20, unit)), true);
    }
    for unit in [
        0x58F, 0x900, 0xFB1C, 0xFE00, 0xFE6F, 0xFEFF, 0xD801, 0xD804, 0xD839, 0xD83C, 0x200E,
        0x2010, 0x202A, 0x202C, 0x202D, 0x202F, 0x2066, 0x2068,
    ] {
        assert_eq!(&rt; is_half_stride_bidi(&lanes(0x20, unit).to_array()), false);
    }
}

#[test]
fn moves_between_lanes(rt: HostRuntime) {
    let mut bytes = [0; 16];
    let mut half = [0; 8];
    let mut wide = [0; 16];
    unpack_stride(&letters(16, 0), &mut wide);
    assert_eq!(&rt; wide, [0x61; 16]);
    pack_stride(&wide, &mut bytes);
    assert_eq!(&rt; bytes, [0x61; 16]);
    let packed = simd_pack(u16x8::splat(0x141), u16x8::splat(0x62)).to_array();
    assert_eq!(&rt;
        (packed[0], packed[7], packed[8], packed[15]),
        (0x41, 0x41, 0x62, 0x62)
    );
    store16_unaligned(&mut bytes, u8x16::splat(0x12));
    assert_eq!(&rt; bytes, [0x12; 16]);
    let two = u8x16::from_array([0x34, 0x12, 0, 1, 2, 3, 4, 5, 6, 7, 8, 9, 10, 11, 0xFE, 0xFF]);
    store8_unaligned(&mut half, to_u16_lanes(two));
    assert_eq!(&rt; (half[0], half[1], half[7]), (0x1234, 0x100, 0xFFFE));
    store8_unaligned(&mut half, simd_byte_swap(to_u16_lanes(two)));
    assert_eq!(&rt; (half[0], half[1], half[7]), (0x3412, 1, 0xFEFF));
    let (low, high) = simd_unpack_narrow(two);
    assert_eq!(&rt; (low.to_array()[0], high.to_array()[7]), (0x34, 0xFF));
    assert_eq!(&rt; simd_unpack(two).to_array()[14], 0xFE);
}

#[test]
fn runs_of_ascii(rt: HostRuntime) {
    let mut text = [b'a'; 60];
    let mut bytes = [0; 60];
    let mut units = [0; 60];
    assert_eq!(&rt; ascii_to_ascii(&text, &mut bytes), 60);
    assert_eq!(&rt; bytes, text);
    assert_eq!(&rt; ascii_to_basic_latin(&text, &mut units[..50]), 50);
    assert_eq!(&rt; (units[49], units[50]), (0x61, 0));
    for place in 0..60 {
        text[place] = 0x80;
        assert_eq!(&rt; ascii_to_ascii(&text, &mut bytes), place);
        assert_eq!(&rt; ascii_to_basic_latin(&text, &mut units), place);
        text[place] = b'a';
    }
}
