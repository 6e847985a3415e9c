//! The lines of some headers, by Python's `email` package; and that a fault of the sink is told.

use crate::run::make::write_made;
use crate::status::Status;
use crate::tests::{check_read, same, sink_of, source_of};
use std::alloc::Global;
use std::process::Abort;
use std::test::Fail;

// How many parts, the room of the sink, the status, and what is written.
const LINES: [(u32, usize, Status, &[u8]); 4] = [
    (
        1,
        64,
        Status::Done,
        b"made 20 bytes, text 4 bytes, sum 509\n",
    ),
    (
        3,
        64,
        Status::Done,
        b"made 46 bytes, text 11 bytes, sum 1201\n",
    ),
    (
        20_000,
        64,
        Status::Done,
        b"made 382235 bytes, text 148890 bytes, sum 11876919\n",
    ),
    // A sink that is full.
    (1, 9, Status::WriteFault, b"made 20 b"),
];

// The source is left as it was.
fn check_line(
    rt: &impl Abort,
    alloc: Global,
    row: &(u32, usize, Status, &[u8]),
) -> Result<(), Fail> {
    let (parts, room, status, line) = row;
    let source = source_of(alloc, b"a", 1, 0)?;
    let mut out = sink_of(alloc, *room, 5, 0)?;
    let mut finish = write_made(alloc, *parts, source, &mut out);
    same(rt, &finish.status, status, parts);
    same(rt, &out.taken(), line, parts);
    check_read(rt, &mut finish.source, Ok(1), parts);
    Ok(())
}

#[test]
fn lines(rt: HostRuntime) -> Result<(), Fail> {
    for row in &LINES {
        check_line(&rt, rt.alloc(), row)?;
    }
    Ok(())
}
