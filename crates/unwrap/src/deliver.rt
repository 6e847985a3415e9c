//! Commands that read their input whole, make a value of it, and write that.
ghost use Rattle.std.specs.Prelude.{◌≡◌, ℕ, List, None, IfErr, MatchResult};
ghost use Rattle.std.specs.declared.option.Option.{Option};
ghost use Rattle.enc_front.specs.declared.encoding.Encoding.{Encoding};
ghost use Rattle.unwrap.specs.Delivers.{Answer, Delivers, Makes};
ghost use Rattle.unwrap.specs.Status.{Counts, HasText, IsBeforeSource, IsBehindFiles, TellsTable};

use crate::devices::sink::Sink;
use crate::moving::write_all;
use crate::status::{Finish, Status};
use enc_io::{Failed, Source};
use std::alloc::Global;

/// What was made of a source's bytes, or the status that says why there is nothing; and the source
/// as it stands then.
#[derive(Drop)]
pub struct Made<S> {
    pub bytes: Result<Vec<u8>, Status>,
    pub source: S,
}

/// What a command makes of its input.
pub trait Value {
    /// The most bytes of an input.
    ghost limit: { Self → ℕ };

    /// The encoding that is asked for, where an index that it needs isn't there.
    ghost missing: { Self → Option Encoding };

    /// The value of an input, or why it has none.
    ghost value: { Self → List ℕ → Answer };

    /// Reads the source to its end, of which it asks for at most one byte more than the limit, and
    /// makes the value of its bytes.
    ///
    /// # Statuses
    ///
    /// `NoTable` exactly where an index is missing, before any call on the source. `ReadFault`
    /// where the source failed, `TooMuch` where it gave more bytes than the limit. Then the value's
    /// fault. `Memory` may come at any growth.
    fn make<S: Source>(&self, alloc: Global, source: S) -> Made<S>
        ensures made { Makes (value self.now) (limit self.now) (S.left source)
            (S.left result.source) (S.faults source) (S.faults result.source) result.bytes }
        ensures tables { MatchResult result.bytes (λ _. missing self.now ≡ None)
            (TellsTable (missing self.now)) }
        ensures unread { IfErr result.bytes (λ status.
            IsBeforeSource status → result.source ≡ source) };
}

// Writes the value of a source's bytes to a sink.
pub(crate) fn deliver<V: Value, S: Source, K: Sink>(
    alloc: Global,
    value: &V,
    source: S,
    out: &mut K,
) -> Finish<S>
    ensures delivers { Delivers (V.value value.now) (V.limit value.now) (S.left source)
        (S.left result.source) (K.taken out.old) (K.taken out.new) result.status }
    ensures counts { Counts result.status (S.faults source) (S.faults result.source)
        (K.faults out.old) (K.faults out.new) }
    ensures kept { ¬ HasText result.status → out.new ≡ out.old }
    ensures tables { TellsTable (V.missing value.now) result.status }
    ensures unread { IsBeforeSource result.status → result.source ≡ source }
    ensures behind_files { IsBehindFiles result.status }
{
    let Made { bytes, source } = value.make(alloc, source);
    let bytes = match bytes {
        Ok(bytes) => bytes,
        Err(status) => return Finish { status, source },
    };
    let status = match write_all(out, bytes.as_slice()) {
        Ok(()) => Status::Done,
        Err(Failed) => Status::WriteFault,
    };
    Finish { status, source }
}
