//! Runs the command that the words ask for, and tells how it ended.
ghost use Rattle.std.specs.Prelude.{◌≡◌, ◌⊎◌, None, IfSome};
ghost use Rattle.std.specs.Io.KnownBytes.{Appends};
ghost use Rattle.enc_io.specs.Faults.{Rose};
ghost use Rattle.unwrap.specs.Asked.{asked, texts_of};
ghost use Rattle.unwrap.specs.Commands.{Keeps, make_asked, named, quoted_asked, text_asked};
ghost use Rattle.unwrap.specs.Commands.{unwrap_asked};
ghost use Rattle.unwrap.specs.Delivers.{Delivers};
ghost use Rattle.unwrap.specs.Header.{EndsUnwrap};
ghost use Rattle.unwrap.specs.Made.{TellsMade};
ghost use Rattle.unwrap.specs.Quoted.{quoted_value};
ghost use Rattle.unwrap.specs.Status.{Counts, note_of};
ghost use Rattle.unwrap.specs.Streams.{EndsText};
ghost use Rattle.unwrap.specs.Table.{row_named};
ghost use Rattle.unwrap.specs.TablesOf.{TakesFiles};

pub(crate) mod make;
pub(crate) mod quoted;
pub(crate) mod text;
pub(crate) mod unwrap;

use crate::command_line::matched::Refusal;
use crate::command_line::{Command, command_of};
use crate::deliver::deliver;
use crate::devices::shelf::Shelf;
use crate::devices::sink::Sink;
use crate::moving::write_all;
use crate::run::make::write_made;
use crate::run::quoted::Quoted;
use crate::run::text::stream;
use crate::run::unwrap::show;
use crate::status::{Finish, Status};
use enc_io::Source;
use std::alloc::Global;

// Tells a status in one line.
pub(crate) fn tell<N: Sink>(status: &Status, notes: &mut N)
    ensures { ¬ Rose (N.faults notes.old) (N.faults notes.new)
        → Appends (N.taken notes.old) (N.taken notes.new) (note_of status.now) }
{
    let _ = write_all(notes, status.note().as_bytes());
}

// Tells how a command ended in one line, and hands its end on.
fn told<S: Source, N: Sink>(finish: Finish<S>, notes: &mut N) -> Finish<S>
    ensures same { result ≡ finish }
    ensures notes { ¬ Rose (N.faults notes.old) (N.faults notes.new)
        → Appends (N.taken notes.old) (N.taken notes.new) (note_of result.status) }
{
    tell(&finish.status, notes);
    finish
}

/// Runs the command that the words ask for; they are the words after the program's name. Whatever
/// ends it but success is told to `notes` in one line, and a failure of `notes` changes nothing.
/// The source is handed back, also where the command fails.
///
/// `unwrap` writes the header text of all that the source holds, `qp-encode` its quoted-printable
/// text, and `qp-decode` what it stands for as such a text: they read the source to its end first,
/// of which they ask for at most one byte more than the limit. `text` writes the text of the source
/// as it reads.
///
/// `make` makes a header of so many parts, and writes a line that tells of it and its text.
///
/// The index files that the words name are fetched from the shelf and added in their order, counted
/// from 0.
///
/// # Statuses
///
/// `Usage` where the first word names no command, the words after it are none that the command
/// takes, or a value isn't of its form. Of the first index file that makes no index: `Shelf` where
/// the shelf fails or the file has more than 4,194,304 bytes, then `BadIndex` for its first bad
/// line, for a kind that is already there, or for its first faulty row. `NoTable` of `unwrap` and
/// `text`, where the encoding that is asked for needs an index that isn't there. All
/// before any call on the source. Then `ReadFault` where the source failed or `TooMuch`
/// where it gave more bytes than the limit, `Header` where the header has no text, with the first
/// fault, `Quoted` where the quoted-printable text has a fault, under `--strict` alone, and
/// `WriteFault` where the sink failed, which then has a prefix of the text. Of `text` these come as
/// they are met, and the sink then has a prefix of the text. `Memory` may come at any growth.
pub fn run<S: Source, F: Shelf, K: Sink, N: Sink>(
    alloc: Global,
    words: &Vec<String>,
    shelf: &mut F,
    source: S,
    out: &mut K,
    notes: &mut N,
) -> Finish<S>
    // Of all commands.
    ensures usage { result.status ≡ Status.Usage → asked (texts_of words.now.items) ≡ None }
    ensures refused { asked (texts_of words.now.items) ≡ None
        → ((result.status ≡ Status.Usage) ⊎ (result.status ≡ Status.Memory))
        × (result.source ≡ source) }
    ensures named { row_named (texts_of words.now.items) ≡ None
        → result.status ≡ Status.Usage }
    ensures counts { Counts result.status (S.faults source) (S.faults result.source)
        (K.faults out.old) (K.faults out.new) }
    ensures kept { Keeps (asked (texts_of words.now.items)) result.status shelf.old shelf.new
        source result.source out.old out.new }
    ensures files { TakesFiles (named (asked (texts_of words.now.items))) (F.files shelf.old)
        (F.files shelf.new) (F.faults shelf.old) (F.faults shelf.new) (F.calls shelf.old)
        (F.calls shelf.new) result.status }
    ensures notes { ¬ Rose (N.faults notes.old) (N.faults notes.new)
        → Appends (N.taken notes.old) (N.taken notes.new) (note_of result.status) }

    // The header text of all that the source held.
    ensures unwrap { IfSome (unwrap_asked (asked (texts_of words.now.items))) (λ of.
        EndsUnwrap of.0 of.1 (F.files shelf.old) (S.left source) (S.left result.source)
        (K.taken out.old) (K.taken out.new) result.status) }

    // The text of all that the source held.
    ensures text { IfSome (text_asked (asked (texts_of words.now.items))) (λ stream.
        EndsText stream (F.files shelf.old) (S.left source) (S.left result.source)
        (K.taken out.old) (K.taken out.new) result.status) }

    // Quoted-printable text of all that the source held, or what it stands for.
    ensures quoted { IfSome (quoted_asked (asked (texts_of words.now.items))) (λ of. Delivers
        (quoted_value of.0 of.1) of.1.limit (S.left source) (S.left result.source)
        (K.taken out.old) (K.taken out.new) result.status) }

    // The line that tells of a header of so many parts.
    ensures make { IfSome (make_asked (asked (texts_of words.now.items))) (λ parts.
        (result.source ≡ source) × TellsMade parts (K.taken out.old) (K.taken out.new) result.status) }
{
    match command_of(alloc, words.as_slice()) {
        Ok(Command::Unwrap(options, strategy)) => {
            told(show(alloc, &options, strategy, shelf, source, out), notes)
        }
        Ok(Command::StreamText(options)) => {
            told(stream(alloc, &options, shelf, source, out), notes)
        }
        Ok(Command::QpEncode(options)) => {
            let encodes = true;
            let quoted = Quoted { options, encodes };
            told(deliver(alloc, &quoted, source, out), notes)
        }
        Ok(Command::QpDecode(options)) => {
            let encodes = false;
            let quoted = Quoted { options, encodes };
            told(deliver(alloc, &quoted, source, out), notes)
        }
        Ok(Command::Make(parts)) => told(write_made(alloc, parts.number, source, out), notes),
        Err(Refusal::Usage) => {
            let status = Status::Usage;
            told(Finish { status, source }, notes)
        }
        Err(Refusal::Memory) => {
            let status = Status::Memory;
            told(Finish { status, source }, notes)
        }
    }
}
