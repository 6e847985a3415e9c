//! What is written in rooms for a scalar.
use crate::destination::{Destination, DestinationOver, Utf8Destination, Utf16Destination};
use crate::space::Space;
use crate::testing::{full_at, same};
use crate::unit_slice::UnitSlice;
use std::process::Abort;

fn put_ascii<S: UnitSlice>(dest: &mut DestinationOver<S>) {
    if let Space::Available(room) = dest.check_space_bmp() {
        room.write_ascii(0x41);
    }
}

fn put_last_ascii<S: UnitSlice>(dest: &mut DestinationOver<S>) {
    if let Space::Available(room) = dest.check_space_bmp() {
        room.write_bmp(0x7F);
    }
}

fn put_first_past_ascii<S: UnitSlice>(dest: &mut DestinationOver<S>) {
    if let Space::Available(room) = dest.check_space_bmp() {
        room.write_bmp_excl_ascii(0x80);
    }
}

fn put_last_of_two<S: UnitSlice>(dest: &mut DestinationOver<S>) {
    if let Space::Available(room) = dest.check_space_bmp() {
        room.write_mid_bmp(0x7FF);
    }
}

fn put_first_of_three<S: UnitSlice>(dest: &mut DestinationOver<S>) {
    if let Space::Available(room) = dest.check_space_bmp() {
        room.write_upper_bmp(0x800);
    }
}

fn leave_bmp<S: UnitSlice>(dest: &mut DestinationOver<S>) {
    if let Space::Available(room) = dest.check_space_bmp() {
        let _written = room.written();
        room.commit();
    }
}

fn put_astral_ascii<S: UnitSlice>(dest: &mut DestinationOver<S>) {
    if let Space::Available(room) = dest.check_space_astral() {
        room.write_ascii(0x42);
    }
}

fn put_replacement<S: UnitSlice>(dest: &mut DestinationOver<S>) {
    if let Space::Available(room) = dest.check_space_astral() {
        room.write_bmp(0xFFFD);
    }
}

fn put_before_surrogates<S: UnitSlice>(dest: &mut DestinationOver<S>) {
    if let Space::Available(room) = dest.check_space_astral() {
        room.write_bmp_excl_ascii(0xD7FF);
    }
}

fn put_behind_surrogates<S: UnitSlice>(dest: &mut DestinationOver<S>) {
    if let Space::Available(room) = dest.check_space_astral() {
        room.write_upper_bmp(0xE000);
    }
}

fn put_first_astral<S: UnitSlice>(dest: &mut DestinationOver<S>) {
    if let Space::Available(room) = dest.check_space_astral() {
        room.write_astral(0x1_0000);
    }
}

fn put_last_pair<S: UnitSlice>(dest: &mut DestinationOver<S>) {
    if let Space::Available(room) = dest.check_space_astral() {
        room.write_surrogate_pair(0xDBFF, 0xDFFF);
    }
}

fn put_combination<S: UnitSlice>(dest: &mut DestinationOver<S>) {
    if let Space::Available(room) = dest.check_space_astral() {
        room.write_big5_combination(0xCA, 0x304);
    }
}

fn leave_astral<S: UnitSlice>(dest: &mut DestinationOver<S>) {
    if let Space::Available(room) = dest.check_space_astral() {
        let _written = room.written();
        room.commit();
    }
}

// Writes in rooms for a scalar up to U+FFFF, by each call.
fn write_in_bmp_rooms<S: UnitSlice>(dest: &mut DestinationOver<S>) {
    put_ascii(dest);
    put_last_ascii(dest);
    put_first_past_ascii(dest);
    put_last_of_two(dest);
    put_first_of_three(dest);
    leave_bmp(dest);
}

// Writes in rooms for any scalar, by each call.
fn write_in_astral_rooms<S: UnitSlice>(dest: &mut DestinationOver<S>) {
    put_astral_ascii(dest);
    put_replacement(dest);
    put_before_surrogates(dest);
    put_behind_surrogates(dest);
    put_first_astral(dest);
    put_last_pair(dest);
    put_combination(dest);
    leave_astral(dest);
}

// Compares the places where no room is found: for a scalar up to U+FFFF, and for any.
fn check_full<S: UnitSlice>(
    rt: &impl Abort,
    dest: &mut DestinationOver<S>,
    bmp: Option<usize>,
    astral: Option<usize>,
) {
    same(rt, &full_at(dest.check_space_bmp()), &bmp, &"bmp");
    same(rt, &full_at(dest.check_space_astral()), &astral, &"astral");
}

#[test]
fn three_bytes_are_room_for_one_bmp_scalar(rt: HostRuntime) {
    let mut buffer = [0u8; 3];
    let mut dest = Utf8Destination::new(&mut buffer);
    check_full(&rt, &mut dest, None, Some(0));
    if let Space::Available(room) = dest.check_space_bmp() {
        room.write_ascii(0x61);
    }
    check_full(&rt, &mut dest, Some(1), Some(1));
    same(&rt, &buffer[0], &0x61, &"text");
}

// Writes by each call, and answers how many elements are written.
fn write_each<S: UnitSlice>(dest: &mut DestinationOver<S>) -> usize {
    write_in_bmp_rooms(dest);
    write_in_astral_rooms(dest);
    dest.written()
}

const UTF8: [u8; 31] =
    *b"\x41\x7F\xC2\x80\xDF\xBF\xE0\xA0\x80\x42\xEF\xBF\xBD\xED\x9F\xBF\xEE\x80\x80\
    \xF0\x90\x80\x80\xF4\x8F\xBF\xBF\xC3\x8A\xCC\x84";

#[test]
fn each_write_in_utf8(rt: HostRuntime) {
    let mut buffer = [0u8; 31];
    let mut dest = Utf8Destination::new(&mut buffer);
    same(&rt, &write_each(&mut dest), &31, &"written");
    same(&rt, &buffer, &UTF8, &"text");
}

const UTF16: [u16; 15] = [
    0x41, 0x7F, 0x80, 0x7FF, 0x800, 0x42, 0xFFFD, 0xD7FF, 0xE000, 0xD800, 0xDC00, 0xDBFF, 0xDFFF,
    0xCA, 0x304,
];

#[test]
fn each_write_in_utf16(rt: HostRuntime) {
    let mut buffer = [0u16; 15];
    let mut dest = Utf16Destination::new(&mut buffer);
    same(&rt, &write_each(&mut dest), &15, &"written");
    same(&rt, &buffer, &UTF16, &"text");
}
