//! What no clause says: that the worked rows come out, and that memory was there.
ghost use Rattle.std.specs.Prelude.{◌≤◌};

use crate::devices::memory::{MemoryShelf, MemorySink};
use crate::devices::shelf::{Shelf, ShelfError};
use crate::run::run;
use crate::status::Status;
use enc_io::{Failed, MemorySource, Source};
use std::alloc::{AllocError, Global};
use std::fmt::Debug;
use std::process::Abort;
use std::test::Fail;

mod devices;
mod rows;

// A name, the words, the input, the process's status, and what is written; where the command
// fails, that is a prefix of it.
type Row = (&'static str, &'static str, &'static [u8], u8, &'static [u8]);

// The words, how often the shelf is called, and the status; the source isn't called.
type Refusal = (&'static str, u64, Status);

// A header, and the status of its first fault.
type Fault = (&'static [u8], Status);

// The words, the input, the calls of the source and of the sink that fail, and what is told.
type Note = (&'static str, &'static [u8], (u64, u64), &'static str);

// The call of the sink that fails, the status, and what is written.
type Failing = (u64, Status, &'static [u8]);

// The files of the shelf by their names.
const SHELF: [(&str, &[u8]); 13] = [
    ("empty", b""),
    ("kana", b"# hiragana\n283\t0x3042\tletter a\r\n"),
    ("kana-cr", b"\r\n  283\t0x3042\r"),
    ("ideograph", b"1\t0x4E04\n"),
    ("gbk-zhe", b"7323\t0x0416\n"),
    ("euc-kr-zhe", b"8273\t0x0416\n"),
    ("big5-zhe", b"11142\t0x0416\n"),
    ("jis0208-zhe", b"571\t0x0416"),
    ("twice", b"5\t0x4E00\n5\t0x4E01\n"),
    ("line-2", b"  3\t0x4E00\nx"),
    ("ascii", b"0\t0x0041\n"),
    ("runs", b"0\t0x0080\n189000\t0x10000\n"),
    ("runs-behind", b"1\t0x0080\n"),
];

// Files of one letter by their names and lengths, of which two have one name.
const LONG_SHELF: [(&str, usize); 4] = [
    ("a", 1),
    ("a", 2),
    ("full", 4_194_304),
    ("long", 4_194_305),
];

// Compares two values, of the row of this name. Proved once, so that a test that calls it costs
// little.
pub(crate) fn same<T: PartialEq + Debug, N: Debug>(rt: &impl Abort, got: &T, want: &T, name: &N) {
    assert_eq!(rt; *got, *want, "{name:?}");
}

// Compares what a source answers to a read of four bytes.
pub(crate) fn check_read<S: Source, N: Debug>(
    rt: &impl Abort,
    source: &mut S,
    want: Result<usize, Failed>,
    name: &N,
) {
    let mut buf = [0; 4];
    let read = source.read(&mut buf);
    same(rt, &read, &want, name);
}

// Compares how many bytes a shelf gives of the file of this name.
fn check_file<F: Shelf>(
    rt: &impl Abort,
    alloc: Global,
    shelf: &mut F,
    name: &str,
    want: Result<usize, ShelfError>,
) {
    let len = shelf.fetch(alloc, name).map(|bytes| bytes.len());
    same(rt, &len, &want, &name);
}

// The same for some files in a row.
pub(crate) fn check_files<F: Shelf>(
    rt: &impl Abort,
    alloc: Global,
    shelf: &mut F,
    rows: &[(&str, Result<usize, ShelfError>)],
) {
    for row in rows {
        let (name, want) = *row;
        check_file(rt, alloc, shelf, name, want);
    }
}

// A shelf of these files, of which one call fails; call 0 never comes.
fn shelf_of(alloc: Global, failing: u64) -> Result<MemoryShelf, AllocError> {
    let mut files = Vec::new(alloc);
    for file in &SHELF {
        let (name, bytes) = *file;
        let name = String::from_str(alloc, name)?;
        files.push((name, Vec::from_slice(alloc, bytes)?))?;
    }
    Ok(MemoryShelf::new(files, vec![in alloc; failing]?))
}

// The same of files of one letter; some have as many bytes as a file may have, or one more.
fn long_shelf(alloc: Global, failing: u64) -> Result<MemoryShelf, AllocError> {
    let mut files = Vec::new(alloc);
    for file in &LONG_SHELF {
        let (name, len) = *file;
        let name = String::from_str(alloc, name)?;
        files.push((name, vec![in alloc; b'#'; len]?))?;
    }
    Ok(MemoryShelf::new(files, vec![in alloc; failing]?))
}

// The words of a line, as texts of their own.
fn words_of(alloc: Global, line: &str) -> Result<Vec<String>, AllocError> {
    let mut all = Vec::new(alloc);
    for word in line.split_whitespace() {
        all.push(String::from_str(alloc, word)?)?;
    }
    Ok(all)
}

// A source of these bytes, which gives so many a call and fails at this one; call 0 never comes.
pub(crate) fn source_of(
    alloc: Global,
    bytes: &[u8],
    step: usize,
    failing: u64,
) -> Result<MemorySource, AllocError>
    requires { 1 ≤ step }
{
    let bytes = Vec::from_slice(alloc, bytes)?;
    Ok(MemorySource::new(bytes, step, vec![in alloc; failing]?))
}

// A sink with so much room, which takes so many bytes a call and fails at this one.
pub(crate) fn sink_of(
    alloc: Global,
    room: usize,
    step: usize,
    failing: u64,
) -> Result<MemorySink, AllocError>
    requires { 1 ≤ step }
{
    let room = vec![in alloc; 0u8; room]?;
    Ok(MemorySink::new(room, step, vec![in alloc; failing]?))
}

// How a command ended, and its devices as they stand then.
#[derive(Drop)]
struct Outcome {
    status: Status,
    source: MemorySource,
    shelf: MemoryShelf,
    out: MemorySink,
    notes: MemorySink,
}

// Runs a command over an input and a shelf, with devices of this step, of which one read and one
// write fail; there is room for any text of the input.
fn run_over(
    alloc: Global,
    line: &str,
    input: &[u8],
    step: usize,
    failing: (u64, u64),
    mut shelf: MemoryShelf,
) -> Result<Outcome, AllocError>
    requires { 1 ≤ step }
{
    let (read, write) = failing;
    let words = words_of(alloc, line)?;
    let source = source_of(alloc, input, step, read)?;
    let room = input.len().saturating_mul(4).saturating_add(64);
    let mut out = sink_of(alloc, room, step, write)?;
    let mut notes = sink_of(alloc, 64, 5, 0)?;
    let finish = run(alloc, &words, &mut shelf, source, &mut out, &mut notes);
    Ok(Outcome {
        status: finish.status,
        source: finish.source,
        shelf,
        out,
        notes,
    })
}

// The same over the shelf of all files.
fn run_once(
    alloc: Global,
    line: &str,
    input: &[u8],
    step: usize,
    failing: (u64, u64),
) -> Result<Outcome, AllocError>
    requires { 1 ≤ step }
{
    run_over(alloc, line, input, step, failing, shelf_of(alloc, 0)?)
}

// What of a text has to be written, where so many bytes are: where the command fails, the first
// bytes of it.
fn wanted(code: u8, text: &[u8], written: usize) -> &[u8] {
    if code == 0 || text.len() < written {
        return text;
    }
    &text[..written]
}

fn check_row(rt: &impl Abort, alloc: Global, row: &Row, step: usize) -> Result<(), Fail>
    requires { 1 ≤ step }
{
    let (name, line, input, code, text) = *row;
    let end = run_once(alloc, line, input, step, (0, 0))?;
    same(rt, &end.status.code(), &code, &name);
    let written = end.out.taken();
    same(rt, &written, &wanted(code, text, written.len()), &name);
    Ok(())
}

fn check_rows(rt: &impl Abort, alloc: Global, rows: &[Row]) -> Result<(), Fail> {
    for row in rows {
        check_row(rt, alloc, row, 1)?;
        check_row(rt, alloc, row, 7)?;
    }
    Ok(())
}

#[test]
fn worked_rows(rt: HostRuntime) -> Result<(), Fail> {
    let alloc = rt.alloc();
    for rows in &rows::TABLES {
        check_rows(&rt, alloc, rows)?;
    }
    Ok(())
}

// Compares how a command ended, and what it wrote.
fn check_end<N: Debug>(rt: &impl Abort, end: &Outcome, status: &Status, text: &[u8], name: &N) {
    same(rt, &end.status, status, name);
    same(rt, &end.out.taken(), &text, name);
}

fn check_fault(rt: &impl Abort, alloc: Global, row: &Fault) -> Result<(), Fail> {
    let (input, status) = row;
    let end = run_once(alloc, "unwrap", input, 1, (0, 0))?;
    check_end(rt, &end, status, b"", input);
    Ok(())
}

#[test]
fn faults(rt: HostRuntime) -> Result<(), Fail> {
    for row in &rows::FAULTS {
        check_fault(&rt, rt.alloc(), row)?;
    }
    Ok(())
}

// The source and the shelf are left where the command ended: their next calls fail.
fn check_refusal(rt: &impl Abort, alloc: Global, row: &Refusal) -> Result<(), Fail> {
    let (line, calls, status) = row;
    let shelf = shelf_of(alloc, calls.saturating_add(1))?;
    let mut end = run_over(alloc, line, b"abc", 2, (1, 0), shelf)?;
    check_end(rt, &end, status, b"", line);
    check_read(rt, &mut end.source, Err(Failed), line);
    check_read(rt, &mut end.source, Ok(2), line);
    check_file(rt, alloc, &mut end.shelf, "empty", Err(ShelfError::Failed));
    Ok(())
}

fn check_refusals(rt: &impl Abort, alloc: Global, rows: &[Refusal]) -> Result<(), Fail> {
    for row in rows {
        check_refusal(rt, alloc, row)?;
    }
    Ok(())
}

#[test]
fn refusals(rt: HostRuntime) -> Result<(), Fail> {
    check_refusals(&rt, rt.alloc(), &rows::WORDS)?;
    check_refusals(&rt, rt.alloc(), &rows::FILES)
}

// A header that is made leaves the source alone.
#[test]
fn made(rt: HostRuntime) -> Result<(), Fail> {
    let line = b"made 46 bytes, text 11 bytes, sum 1201\n";
    let mut end = run_once(rt.alloc(), "make 3", b"a", 5, (1, 0))?;
    check_end(&rt, &end, &Status::Done, line, &"make 3");
    check_read(&rt, &mut end.source, Err(Failed), &"make 3");
    Ok(())
}

fn check_note(rt: &impl Abort, alloc: Global, row: &Note) -> Result<(), Fail> {
    let (line, input, failing, note) = *row;
    let end = run_once(alloc, line, input, 1, failing)?;
    same(rt, &end.notes.taken(), &note.as_bytes(), &line);
    Ok(())
}

#[test]
fn notes(rt: HostRuntime) -> Result<(), Fail> {
    for row in &rows::NOTES {
        check_note(&rt, rt.alloc(), row)?;
    }
    Ok(())
}

// The status of a header whose source and sink fail at these calls, and what is written then.
fn check_failing(
    rt: &impl Abort,
    alloc: Global,
    failing: (u64, u64),
    status: &Status,
    text: &[u8],
) -> Result<(), Fail> {
    let end = run_once(alloc, "unwrap", b"=?utf-8?q?ab?= c", 1, failing)?;
    check_end(rt, &end, status, text, &failing);
    Ok(())
}

// The eighteenth read doesn't come.
fn check_failing_write(rt: &impl Abort, alloc: Global, row: &Failing) -> Result<(), Fail> {
    let (call, status, text) = row;
    check_failing(rt, alloc, (18, *call), status, text)
}

#[test]
fn each_call_fails_in_turn(rt: HostRuntime) -> Result<(), Fail> {
    for call in 1..18 {
        check_failing(&rt, rt.alloc(), (call, 0), &Status::ReadFault, b"")?;
    }
    for row in &rows::FAILING {
        check_failing_write(&rt, rt.alloc(), row)?;
    }
    Ok(())
}

fn check_fetch(rt: &impl Abort, alloc: Global, row: &(u64, Status)) -> Result<(), Fail> {
    let (call, status) = row;
    let line = "text big5=empty euc-kr=line-2 jis0208=empty";
    let end = run_over(alloc, line, b"a", 1, (0, 0), shelf_of(alloc, *call)?)?;
    check_end(rt, &end, status, b"", call);
    Ok(())
}

#[test]
fn each_fetch_fails_in_turn(rt: HostRuntime) -> Result<(), Fail> {
    for row in &rows::FETCHES {
        check_fetch(&rt, rt.alloc(), row)?;
    }
    Ok(())
}

fn check_length(rt: &impl Abort, alloc: Global, row: &(&str, Status, &[u8])) -> Result<(), Fail> {
    let (line, status, text) = row;
    let end = run_over(alloc, line, b"a", 1, (0, 0), long_shelf(alloc, 0)?)?;
    check_end(rt, &end, status, text, line);
    Ok(())
}

#[test]
fn long_files(rt: HostRuntime) -> Result<(), Fail> {
    for row in &rows::LENGTHS {
        check_length(&rt, rt.alloc(), row)?;
    }
    Ok(())
}

// The status of a header of so many bytes, and how many are written.
fn check_header(
    rt: &impl Abort,
    alloc: Global,
    len: usize,
    status: &Status,
    written: usize,
) -> Result<(), Fail> {
    let input = vec![in alloc; b'a'; len]?;
    let end = run_once(alloc, "unwrap", input.as_slice(), 65_536, (0, 0))?;
    same(rt, &end.status, status, &len);
    same(rt, &end.out.taken().len(), &written, &len);
    Ok(())
}

#[test]
fn most_bytes(rt: HostRuntime) -> Result<(), Fail> {
    check_header(&rt, rt.alloc(), 1_048_576, &Status::Done, 1_048_576)?;
    check_header(&rt, rt.alloc(), 1_048_577, &Status::TooMuch, 0)
}
