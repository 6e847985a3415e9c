//! Units at any place of a list of bytes.
use super::*;
use crate::endian::{BigEndian, LittleEndian};
use crate::testing::same;

#[test]
fn unaligned_units(rt: HostRuntime) {
    let bytes = [0x61, 0, 0x3D, 0xD8, 0x62, 0, 0x63];
    let mut units = UnalignedU16Slice::new(&bytes, 3);
    same(&rt, &units.len(), &3, &"len");
    same(&rt, &units.at(1), &0xD83D, &"at");
    same(&rt, &units.tail(2).len(), &1, &"tail");
    let mut other = [7u16; 4];
    let found = units.copy_bmp_to::<LittleEndian>(&mut other);
    same(&rt, &found, &Some((0xD83D, 1)), &"a surrogate");
    same(&rt, &other[0], &0x61, &"copied");
    same(&rt, &other[3], &7, &"left");
    units.trim_last();
    let found = units.copy_bmp_to::<BigEndian>(&mut other);
    same(&rt, &found, &None, &"none");
    same(&rt, &&other[..2], &[0x6100, 0x3DD8].as_slice(), &"copied");
}

// Nine units, of which the second and those behind it are taken.
const BYTES: [u8; 18] = *b"\x61\0\xE4\0\x34\x04\0\xAC\x3D\xD8\0\xDE\x20\0\x41\0\x42\0";

#[test]
fn eight_units_at_once(rt: HostRuntime) {
    let units = UnalignedU16Slice::new(&BYTES, 9);
    assert!(rt; units.len() >= 9);
    let eight = units.simd_at(1).to_array();
    let wanted = [0xE4, 0x434, 0xAC00, 0xD83D, 0xDE00, 0x20, 0x41, 0x42];
    same(&rt, &eight, &wanted, &"eight");
}
