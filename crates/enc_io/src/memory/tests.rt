//! What a source in memory gives, call by call.
use super::*;
use crate::testing::same;
use std::process::Abort;
use std::test::Fail;

// The room of a call, and what it gives.
type Row = (usize, Result<&'static [u8], Failed>);

const ROWS: [Row; 8] = [
    (8, Ok(b"abc")),
    (8, Err(Failed)),
    (2, Ok(b"de")),
    (0, Ok(b"")),
    (8, Err(Failed)),
    (3, Ok(b"fg")),
    (8, Ok(b"")),
    (8, Ok(b"")),
];

fn check(rt: &impl Abort, source: &mut MemorySource, room: usize, want: Result<&[u8], Failed>) {
    let mut buf = [b'.'; 8];
    assert!(rt; room <= 8);
    let got = match source.read(&mut buf[..room]) {
        Ok(count) => Ok(&buf[..count]),
        Err(Failed) => Err(Failed),
    };
    same(rt, &got, &want, &room);
    same(rt, &buf[7], &b'.', &room);
}

#[test]
fn memory_source(rt: HostRuntime) -> Result<(), Fail> {
    let alloc = rt.alloc();
    let failing = Vec::from_slice(alloc, &[2, 5])?;
    let mut source = MemorySource::new(Vec::from_slice(alloc, b"abcdefg")?, 3, failing);
    for row in &ROWS {
        let (room, want) = *row;
        check(&rt, &mut source, room, want);
    }
    Ok(())
}
