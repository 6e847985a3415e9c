//! A buffer filled by several reads.
use super::*;
use crate::memory::MemorySource;
use crate::testing::same;
use std::process::Abort;
use std::test::Fail;

// Fills a buffer of five bytes: what is answered, and the bytes.
fn check(
    rt: &impl Abort,
    source: &mut MemorySource,
    want: Result<usize, (usize, Failed)>,
    bytes: &[u8],
) {
    let mut buf = [b'.'; 5];
    let answer = read_full(source, &mut buf);
    same(rt, &answer, &want, &bytes);
    assert!(rt; bytes.len() <= 5);
    same(rt, &&buf[..bytes.len()], &bytes, &bytes);
}

#[test]
fn reads_until_full(rt: HostRuntime) -> Result<(), Fail> {
    let alloc = rt.alloc();
    let failing = Vec::from_slice(alloc, &[3])?;
    let mut source = MemorySource::new(Vec::from_slice(alloc, b"abcdefg")?, 2, failing);
    check(&rt, &mut source, Err((4, Failed)), b"abcd");
    check(&rt, &mut source, Ok(3), b"efg");
    Ok(())
}
