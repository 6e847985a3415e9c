//! What the tests of codes and drivers share.
ghost use Rattle.std.specs.Prelude.{◌≡◌, ◌<◌, ◌≤◌, ◌==◌, if◌then◌else◌, None, Some, slice_set};
ghost use Rattle.std.specs.Prelude.{replicate};
ghost use Rattle.std.proofs.Common.{rules};
ghost use Rattle.enc_handles.specs.Entries.{entry_of};

use crate::code::{Code, Step};
use crate::drivers::general::GeneralDriver;
use crate::lookup::Lookup;
use crate::{Item, Mode};
use enc_handles::entry::entry_of;
use enc_handles::results::DecoderResult;
use std::alloc::Global;
use std::fmt::Debug;
use std::process::Abort;
use std::test::Fail;

// What is wanted of a step: a scalar or malformed bytes, and how many, or more bytes.
#[derive(Clone, Copy)]
pub(crate) enum Want {
    One(char, u8),
    Bad(u8),
    More,
}

fn step_of(want: Want) -> Step {
    match want {
        Want::One(scalar, length) => Step::Unit {
            item: Item::One(scalar),
            length,
            next: Mode::Plain,
        },
        Want::Bad(length) => Step::Unit {
            item: Item::Malformed,
            length,
            next: Mode::Plain,
        },
        Want::More => Step::More,
    }
}

// Bytes, and what is wanted before the end and at the end.
pub(crate) type Front = (&'static [u8], Want, Want);

// Compares two values, of the row of this name. Proved once, so that a test that calls it costs
// little.
pub(crate) fn same<T: PartialEq + Debug, N: Debug>(rt: &impl Abort, got: &T, want: &T, name: &N) {
    assert_eq!(rt; *got, *want, "{name:?}");
}

// Compares what a code tells of a front in a mode, before the end and at the end.
pub(crate) fn check_step<C: Code>(
    rt: &impl Abort,
    code: &C,
    mode: Mode,
    front: &[u8],
    before: Step,
    at_end: Step,
) {
    assert!(rt; !front.is_empty() && front.len() <= 4);
    same(rt, &code.step(mode, front, false), &before, &front);
    same(rt, &code.step(mode, front, true), &at_end, &front);
}

pub(crate) fn check_steps<C: Code>(rt: &impl Abort, code: &C, rows: &[Front]) {
    for row in rows {
        let (front, before, at_end) = *row;
        check_step(
            rt,
            code,
            Mode::Plain,
            front,
            step_of(before),
            step_of(at_end),
        );
    }
}

// An index of nothing.
pub(crate) struct Nothing;

impl Lookup for Nothing {
    ghost places = { λ index place. None };

    ghost scalars = { λ index place. Prim.search rules };

    fn at(&self, place: u32) -> Option<char> {
        let _ = place;
        None
    }
}

// An index with one scalar everywhere.
pub(crate) struct Alphas;

impl Lookup for Alphas {
    ghost places = { λ index place. Some 0x3B1 };

    ghost scalars = { λ index place. Prim.search rules };

    fn at(&self, place: u32) -> Option<char> {
        let _ = place;
        Some('\u{3b1}')
    }
}

// An index with one scalar everywhere, which tells its entries; of bytes that of 80 alone.
#[derive(Drop)]
pub(crate) struct Told {
    table: [u32; 256],
    ghost told: { table ≡ slice_set (replicate 256 0) 0x80 (entry_of 0x3B1) },
}

impl Told {
    pub(crate) fn new() -> Told {
        let mut table = [0; 256];
        table[0x80] = entry_of(0x3B1);
        Told { table }
    }
}

impl Lookup for Told {
    ghost places = { λ index place. Some 0x3B1 };

    ghost scalars = { λ index place. Prim.search rules };

    fn at(&self, place: u32) -> Option<char> {
        let _ = place;
        Some('\u{3b1}')
    }

    #[tactic(auto, using(crate::proofs::ToldEntries::told_bytes))]
    fn byte_entries(&self) -> Option<&[u32; 256]> {
        Some(&self.table)
    }

    #[tactic(auto, using(crate::proofs::ToldEntries::told_place))]
    fn entry(&self, place: u32) -> u32 {
        let _ = place;
        entry_of(0x3B1)
    }
}

// An index of one row: U+0416 at a place.
#[derive(Drop)]
pub(crate) struct OneRow {
    pub(crate) place: u32,
}

impl Lookup for OneRow {
    ghost places = { λ index place. (if place == index.place then Some 0x416 else None) };

    ghost scalars = { λ index place. Prim.search rules };

    fn at(&self, place: u32) -> Option<char> {
        if place == self.place {
            Some('\u{416}')
        } else {
            None
        }
    }
}

// Decodes a piece into so much room a call, and appends its text, with U+FFFD for malformed units,
// and the lengths of these.
fn decode_piece<C: Code>(
    driver: &mut GeneralDriver<C>,
    piece: &[u8],
    last: bool,
    room: usize,
    text: &mut Vec<u8>,
    lengths: &mut Vec<u8>,
) -> Result<bool, Fail> {
    let mut rest = piece;
    for _ in 0..100 {
        let mut buffer = [0; 40];
        let dst = &mut buffer[..room.min(40)];
        let (result, read, written) = driver.decode_to_utf8_raw(rest, dst, last);
        rest = &rest[read..];
        text.extend_from_slice(&dst[..written])?;
        match result {
            DecoderResult::InputEmpty => return Ok(rest.is_empty()),
            DecoderResult::OutputFull => {}
            DecoderResult::Malformed(length, _) => {
                text.extend_from_slice(b"\xef\xbf\xbd")?;
                lengths.push(length)?;
            }
        }
    }
    Ok(false)
}

// Bytes, their text with U+FFFD for malformed units, and the lengths of these.
pub(crate) type Text = (&'static [u8], &'static str, &'static [u8]);

// Decodes bytes in two pieces, each to its end, by a driver that holds nothing.
fn decode_two<C: Code>(
    rt: &impl Abort,
    driver: &mut GeneralDriver<C>,
    pieces: (&[u8], &[u8]),
    room: usize,
    text: &mut Vec<u8>,
    lengths: &mut Vec<u8>,
) -> Result<(), Fail> {
    let first = decode_piece(driver, pieces.0, false, room, text, lengths)?;
    same(rt, &first, &true, &pieces);
    let second = decode_piece(driver, pieces.1, true, room, text, lengths)?;
    same(rt, &second, &true, &pieces);
    Ok(())
}

// Decodes a row in two pieces, in a stream of its own.
pub(crate) fn check_cut<C: Code>(
    rt: &impl Abort,
    alloc: Global,
    driver: &mut GeneralDriver<C>,
    pieces: (&[u8], &[u8]),
    wanted: &str,
    wanted_lengths: &[u8],
) -> Result<(), Fail> {
    let mut text = Vec::new(alloc);
    let mut lengths = Vec::new(alloc);
    decode_two(rt, driver, pieces, 5, &mut text, &mut lengths)?;
    same(rt, &text.as_slice(), &wanted.as_bytes(), &pieces);
    same(rt, &lengths.as_slice(), &wanted_lengths, &pieces);
    Ok(())
}

// Decodes each row in two pieces, at every cut, by one driver, whose code has no modes.
pub(crate) fn check_cuts<C: Code + Drop>(
    rt: &impl Abort,
    alloc: Global,
    code: C,
    rows: &[Text],
) -> Result<(), Fail> {
    let mut driver = GeneralDriver::new(code);
    for row in rows {
        let (bytes, text, lengths) = *row;
        for cut in 0..=bytes.len() {
            check_cut(rt, alloc, &mut driver, bytes.split_at(cut), text, lengths)?;
        }
    }
    Ok(())
}

// The text of bytes one unit at a time, by steps alone, with U+FFFD for malformed units; `mode`
// goes on behind them.
fn unit_by_unit<C: Code>(
    alloc: Global,
    code: &C,
    mode: &mut Mode,
    bytes: &[u8],
) -> Result<String, Fail> {
    let mut text = String::new(alloc);
    let mut rest = bytes;
    for _ in 0..bytes.len() {
        if rest.is_empty() {
            break;
        }
        let front = if rest.len() < 4 { rest } else { &rest[..4] };
        let Step::Unit { item, length, next } = code.step(*mode, front, rest.len() <= 4) else {
            break;
        };
        match item {
            Item::One(scalar) => text.push(scalar)?,
            Item::Two(first, second) => {
                text.push(first)?;
                text.push(second)?;
            }
            Item::Malformed => text.push('\u{fffd}')?,
            Item::Silent => {}
        }
        rest = &rest[usize::from(length).min(rest.len())..];
        *mode = next;
    }
    Ok(text)
}

// Compares a driver with the steps of its code, which say what is wanted: a text in two pieces.
fn check_pieces<C: Code>(
    rt: &impl Abort,
    alloc: Global,
    driver: &mut GeneralDriver<C>,
    pieces: (&[u8], &[u8]),
    room: usize,
    wanted: &[u8],
) -> Result<(), Fail> {
    let mut text = Vec::new(alloc);
    let mut lengths = Vec::new(alloc);
    decode_two(rt, driver, pieces, room, &mut text, &mut lengths)?;
    same(rt, &text.as_slice(), &wanted, &pieces);
    Ok(())
}

// The same at every cut and in several rooms.
pub(crate) fn check_by_units<C: Code + Drop>(
    rt: &impl Abort,
    alloc: Global,
    code: C,
    same: &C,
    bytes: &[u8],
) -> Result<(), Fail> {
    let mut driver = GeneralDriver::new(code);
    let mut mode = Mode::Plain;
    for room in 4..40 {
        for cut in 0..=bytes.len() {
            let wanted = unit_by_unit(alloc, same, &mut mode, bytes)?;
            let pieces = bytes.split_at(cut);
            check_pieces(rt, alloc, &mut driver, pieces, room, wanted.as_bytes())?;
        }
    }
    Ok(())
}
