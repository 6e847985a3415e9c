//! Few bytes at a time.
use super::*;
use crate::testing::same;
use enc_front::{Encoding, Tables};
use std::process::Abort;
use std::test::Fail;

// What holds the text of a stream that ends within a unit.
fn transcoded(rt: &impl Abort) -> TinyTranscoder {
    let tables = Tables::new();
    let mut decoder = Decoder::new(Encoding::Utf16Le, &tables);
    let mut tiny = TinyTranscoder::new();
    let held = tiny.transcode(&mut decoder, b"\0", false);
    same(rt, &held, &(CoderResult::InputEmpty, 1, 0), &"held");
    assert!(rt; held.2 == 0);
    assert!(rt; !decoder.is_finished());
    let end = tiny.transcode(&mut decoder, b"", true);
    same(rt, &end, &(CoderResult::InputEmpty, 0, 3), &"end");
    assert!(rt; decoder.is_finished());
    tiny
}

// Reads so many bytes at most, and compares what is read.
fn check_read(rt: &impl Abort, tiny: &mut TinyTranscoder, room: usize, want: &[u8]) {
    let mut buf = [0; 8];
    assert!(rt; room <= 8);
    let count = tiny.read(&mut buf[..room]);
    same(rt, &&buf[..count], &want, &room);
}

#[test]
fn transcodes_few_bytes(rt: HostRuntime) -> Result<(), Fail> {
    let mut tiny = transcoded(&rt);
    let mut copy = tiny.clone()?;
    check_read(&rt, &mut tiny, 2, b"\xef\xbf");
    check_read(&rt, &mut tiny, 2, b"\xbd");
    check_read(&rt, &mut tiny, 2, b"");
    check_read(&rt, &mut copy, 8, b"\xef\xbf\xbd");
    Ok(())
}
