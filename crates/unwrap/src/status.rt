//! How a command ends, and the errors of its steps.
ghost use Rattle.std.specs.Prelude.{◌≡◌};
ghost use Rattle.unwrap.specs.Status.{code_of, note_of};

use enc_front::{Encoding, IndexKind, Why};
use enc_io::BuildError;
use qp::QuotedPrintableError;
use std::alloc::AllocError;

/// What is wrong with an index file.
#[derive(Clone, Copy, Debug, PartialEq, Eq)]
pub enum TableFault {
    /// The first bad line, counted from 1.
    BadLine(usize),
    /// A file before it has an index of this kind.
    AlreadyThere(IndexKind),
    /// The first faulty row, and the first of its faults.
    BadTable {
        /// The row, counted from 0.
        row: usize,
        /// What is wrong with it.
        why: Why,
    },
}

/// An index file that is wrong.
#[derive(Clone, Copy, Debug, PartialEq, Eq)]
pub struct IndexFault {
    /// Its place among the index files that the words name, counted from 0.
    pub file: usize,
    /// What is wrong with it.
    pub fault: TableFault,
}

/// An index file that the shelf didn't give.
#[derive(Clone, Copy, Debug, PartialEq, Eq)]
pub struct ShelfFault {
    /// Its place among the index files that the words name, counted from 0.
    pub file: usize,
    /// Whether it is there with more than 4,194,304 bytes; else the shelf failed.
    pub too_long: bool,
}

/// How a command ended.
#[derive(Debug, PartialEq, Drop)]
pub enum Status {
    /// All was written.
    Done,
    /// The header has no text, for this reason; it is never `Memory`.
    Header(words::Error),
    /// The words name no command.
    Usage,
    /// An index file is wrong.
    BadIndex(IndexFault),
    /// The encoding that is asked for has no index.
    NoTable(Encoding),
    /// The source failed.
    ReadFault,
    /// The source gave more bytes than the limit.
    TooMuch,
    /// The sink failed; it has a prefix of the text.
    WriteFault,
    /// Want of memory.
    Memory,
    /// An index file can't be had.
    Shelf(ShelfFault),
    /// The quoted-printable text has this fault.
    Quoted(QuotedPrintableError),
}

impl Status {
    /// The status of the process that ends so.
    pub fn code(&self) -> u8
        ensures { result ≡ code_of self.now }
    {
        match self {
            Status::Done => 0,
            Status::Header(_) => 1,
            Status::Usage => 2,
            Status::BadIndex(_) => 3,
            Status::NoTable(_) => 4,
            Status::ReadFault => 5,
            Status::TooMuch => 6,
            Status::WriteFault => 7,
            Status::Memory => 8,
            Status::Shelf(_) => 9,
            Status::Quoted(_) => 10,
        }
    }

    /// The line that is told of it on standard error, with its LF; empty for `Done`.
    pub fn note(&self) -> &'static str
        ensures { result.now ≡ note_of self.now }
    {
        match self {
            Status::Done => "",
            Status::Header(_) => "unwrap: the header cannot be shown\n",
            Status::Usage => "unwrap: the words are not understood\n",
            Status::BadIndex(_) => "unwrap: an index file is wrong\n",
            Status::NoTable(_) => "unwrap: the encoding has no index\n",
            Status::ReadFault => "unwrap: reading failed\n",
            Status::TooMuch => "unwrap: the input is too long\n",
            Status::WriteFault => "unwrap: writing failed\n",
            Status::Memory => "unwrap: no memory\n",
            Status::Shelf(_) => "unwrap: an index file cannot be read\n",
            Status::Quoted(_) => "unwrap: the quoted-printable text is wrong\n",
        }
    }
}

/// The end of a command: how it ended, and the source as it stands then.
#[derive(Drop)]
pub struct Finish<S> {
    pub status: Status,
    pub source: S,
}

/// Why a source's bytes are not all there.
#[derive(Clone, Copy, Debug, PartialEq, Eq)]
pub enum ReadError {
    /// The source failed.
    ReadFault,
    /// The source gave more bytes than the limit.
    TooMuch,
    /// Want of memory.
    Memory,
}

impl From<AllocError> for ReadError {
    ghost use Rattle.std.specs.Prelude.{◌≡◌};
    ghost use Rattle.unwrap.specs.declared.status.ReadError.TheVariants.{Memory};

    ghost from_gives = { λ _ e. e ≡ Memory };

    fn from(_error: AllocError) -> ReadError {
        ReadError::Memory
    }
}

impl From<ReadError> for Status {
    ghost use Rattle.std.specs.Prelude.{◌≡◌};
    ghost use Rattle.unwrap.specs.Status.{read_status};

    ghost from_gives = { λ e status. status ≡ read_status e };

    fn from(error: ReadError) -> Status {
        match error {
            ReadError::ReadFault => Status::ReadFault,
            ReadError::TooMuch => Status::TooMuch,
            ReadError::Memory => Status::Memory,
        }
    }
}

impl From<BuildError> for Status {
    ghost use Rattle.std.specs.Prelude.{◌≡◌};
    ghost use Rattle.unwrap.specs.Status.{build_status};

    ghost from_gives = { λ e status. status ≡ build_status e };

    /// A buffer is never too small here.
    fn from(error: BuildError) -> Status {
        match error {
            BuildError::NoTable(encoding) => Status::NoTable(encoding),
            BuildError::TooSmall(_) => Status::Memory,
            BuildError::Memory => Status::Memory,
        }
    }
}
