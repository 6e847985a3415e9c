//! The program: takes the words of its command line, runs their command over standard input,
//! standard output and the files of the folder, and ends with the command's status.
#![tactic(auto)]

ghost use Rattle.std.specs.Prelude.{◌≡◌, ◌≢◌, ◌⊎◌, IfErr};

mod collected;
mod command_line;
mod deliver;
pub mod devices;
pub mod header;
mod indexes;
mod laws;
mod moving;
pub mod run;
pub mod status;
pub mod text;

use crate::devices::folder::FolderShelf;
use crate::devices::stream::StreamSink;
use crate::run::{run, tell};
use crate::status::Status;
use enc_io::StreamSource;
use std::env;
use std::env::Env;
use std::io::ErrorKind;
use std::process::ExitCode;

// The status of a command line that can't be had: of a word that isn't UTF-8, or for want of
// memory.
fn words_status(kind: ErrorKind) -> Status
    ensures usage { kind ≡ ErrorKind.InvalidData → result ≡ Status.Usage }
    ensures memory { kind ≢ ErrorKind.InvalidData → result ≡ Status.Memory }
{
    match kind {
        ErrorKind::InvalidData => Status::Usage,
        _ => Status::Memory,
    }
}

// The words of the command line after the program's name.
///
/// # Errors
///
/// `Usage` for a word that is not UTF-8; `Memory`.
fn words_given(rt: &(impl Env + AllocGlobal)) -> Result<Vec<String>, Status>
    ensures { IfErr result (λ status. (status ≡ Status.Usage) ⊎ (status ≡ Status.Memory)) }
{
    match env::args(rt) {
        Ok(args) => args.skip(1).collect(rt.alloc()).map_err(|_| Status::Memory),
        Err(error) => Err(words_status(error.kind())),
    }
}

fn main(rt: HostRuntime) -> ExitCode {
    let mut notes = StreamSink::new(rt.stderr());
    let words = match words_given(&rt) {
        Ok(words) => words,
        Err(status) => {
            tell(&status, &mut notes);
            return ExitCode::from(status.code());
        }
    };
    let alloc = rt.alloc();
    let mut shelf = FolderShelf::new(&rt, ".");
    let source = StreamSource::new(rt.stdin());
    let mut out = StreamSink::new(rt.stdout());
    let finish = run(alloc, &words, &mut shelf, source, &mut out, &mut notes);
    ExitCode::from(finish.status.code())
}

#[cfg(test)]
mod tests;
