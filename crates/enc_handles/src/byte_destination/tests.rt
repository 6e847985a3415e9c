//! Rooms of a destination of bytes.
use super::*;
use crate::testing::{full_at, same};

// Whether there is a handle for one byte, for two, for three and for four.
fn handles(dst: &mut [u8]) -> (bool, bool, bool, bool) {
    let mut dest = ByteDestination::new(dst);
    let one = full_at(dest.check_space_one()).is_none();
    let two = full_at(dest.check_space_two()).is_none();
    let three = full_at(dest.check_space_three()).is_none();
    let four = full_at(dest.check_space_four()).is_none();
    (one, two, three, four)
}

#[test]
fn a_handle_comes_where_its_bytes_are_free(rt: HostRuntime) {
    for room in 0..=4 {
        let mut bytes = [0u8; 4];
        let wanted = (room >= 1, room >= 2, room >= 3, room >= 4);
        same(&rt, &handles(&mut bytes[..room]), &wanted, &room);
    }
}

fn put_one<D: ByteBuffer>(dest: &mut ByteDestinationOver<D>) {
    if let Space::Available(handle) = dest.check_space_one() {
        handle.write_one(1);
    }
}

fn put_two<D: ByteBuffer>(dest: &mut ByteDestinationOver<D>) {
    if let Space::Available(handle) = dest.check_space_two() {
        handle.write_two(2, 3);
    }
}

fn put_three<D: ByteBuffer>(dest: &mut ByteDestinationOver<D>) {
    if let Space::Available(handle) = dest.check_space_three() {
        handle.write_three(4, 5, 6);
    }
}

fn put_three_more<D: ByteBuffer>(dest: &mut ByteDestinationOver<D>) {
    if let Space::Available(handle) = dest.check_space_three() {
        let _written = handle.write_three_return_written(7, 8, 9);
    }
}

fn put_four<D: ByteBuffer>(dest: &mut ByteDestinationOver<D>) {
    if let Space::Available(handle) = dest.check_space_four() {
        handle.write_four(10, 11, 12, 13);
    }
}

// Writes one, two, three, three and four bytes, and answers where it found no more room.
fn write_each<D: ByteBuffer>(dest: &mut ByteDestinationOver<D>) -> Option<usize> {
    put_one(dest);
    put_two(dest);
    put_three(dest);
    put_three_more(dest);
    put_four(dest);
    full_at(dest.check_space_one())
}

#[test]
fn each_write_of_bytes(rt: HostRuntime) {
    let mut bytes = [0u8; 14];
    let mut dest = ByteDestination::new(&mut bytes);
    dest.advance(1);
    same(&rt, &write_each(&mut dest), &Some(14), &"full");
    let wanted = [0, 1, 2, 3, 4, 5, 6, 7, 8, 9, 10, 11, 12, 13];
    same(&rt, &bytes, &wanted, &"bytes");
}
