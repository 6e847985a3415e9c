//! Reading byte by byte.
use super::*;
use crate::testing::{full_at, same};
use std::process::Abort;

// What the next byte is, and the places before the read, after it and after it was put back.
fn peek<B: ByteSlice>(source: &mut ByteSourceOver<B>) -> Option<(u8, usize, usize, usize)> {
    match source.check_available() {
        Space::Available(handle) => {
            let before = handle.consumed();
            let (byte, unread) = handle.read();
            let after = unread.consumed();
            Some((byte, before, after, unread.unread()))
        }
        Space::Full(_place) => None,
    }
}

// The next byte.
fn next<B: ByteSlice>(source: &mut ByteSourceOver<B>) -> Option<u8> {
    match source.check_available() {
        Space::Available(handle) => {
            let (byte, unread) = handle.read();
            unread.commit();
            Some(byte)
        }
        Space::Full(_place) => None,
    }
}

// Looks at a byte, puts it back, and reads it.
fn check(rt: &impl Abort, source: &mut ByteSource, byte: u8, places: (usize, usize, usize)) {
    let (before, after, back) = places;
    same(rt, &peek(source), &Some((byte, before, after, back)), &byte);
    same(rt, &next(source), &Some(byte), &byte);
}

#[test]
fn a_source_is_read_and_put_back(rt: HostRuntime) {
    let mut source = ByteSource::new(&[0x61, 0xFF]);
    check(&rt, &mut source, 0x61, (0, 1, 0));
    check(&rt, &mut source, 0xFF, (1, 2, 1));
    same(&rt, &next(&mut source), &None, &"end");
    same(&rt, &full_at(source.check_available()), &Some(2), &"end");
}
