//! A reader of a stream that shows its first bytes before they are read, and may leave out a byte
//! order mark.
ghost use Rattle.std.specs.Prelude.{◌≡◌, ℕ, ◌+◌, ◌<◌, ◌≤◌, [], ◌++◌, true, false, Ok, None, min};
ghost use Rattle.std.specs.Prelude.{length, take, drop, IsOk, IsNone, IfOk, OnOk, OnErr};
ghost use Rattle.std.specs.Option.{ForSome};
ghost use Rattle.std.specs.Io.{ReadsAtMost};
ghost use Rattle.std.specs.Io.KnownBytes.{Consumes, Keeps, IsAtEnd, ReadConsumes};
ghost use Rattle.enc_drivers.specs.Units.{AreBytes};
ghost use Rattle.enc_io.specs.Faults.{Rose};
ghost use Rattle.enc_io.specs.Peeker.{PeekerMoves, Gathers, GivesNext, HasGivenAll, fresh};
ghost use Rattle.enc_io.specs.Peeker.{still_known, given_by, given_within, count_by, taken_by};

use crate::bom::PossibleBom;
use crate::filling::{give, read_full};
use crate::outside::{Failed, Source};

#[cfg(test)]
mod tests;

/// A reader of the bytes of a source, whose first three bytes can be looked at before they are
/// read.
#[derive(Drop)]
pub struct BomPeeker<S: Source> {
    source: S,
    strips: bool,
    bom: PossibleBom,
    peeked: bool,
    place: usize,
    ended: bool,
    ghost place_within: { place ≤ bom.len },
    ghost whole: { peeked ≡ true → ended ≡ false → bom.len ≡ 3 },
    ghost not_ended: { peeked ≡ false → ended ≡ false },
    ghost end: { ended ≡ true → ForSome (S.left source) (λ left. left ≡ []) },
}

impl<S: Source> BomPeeker<S> {
    ghost use Rattle.enc_io.specs.Marks.{bom_bytes};
    ghost use Rattle.enc_io.specs.Peeking.{standing_of, source_of};

    /// A reader of all bytes of the source, with a byte order mark.
    pub fn with_bom(source: S) -> BomPeeker<S>
        ensures start { standing_of result ≡ fresh false }
        ensures source { source_of result ≡ source }
    {
        BomPeeker::at_start(source, false)
    }

    /// A reader of the bytes of the source without one byte order mark at the front.
    pub fn without_bom(source: S) -> BomPeeker<S>
        ensures start { standing_of result ≡ fresh true }
        ensures source { source_of result ≡ source }
    {
        BomPeeker::at_start(source, true)
    }

    // A reader at the start of a stream.
    pub(crate) fn at_start(source: S, strips: bool) -> BomPeeker<S>
        ensures start { standing_of result ≡ fresh strips }
        ensures source { source_of result ≡ source }
    {
        BomPeeker {
            source,
            strips,
            bom: PossibleBom::new(),
            peeked: false,
            place: 0,
            ended: false,
        }
    }

    /// The first three bytes of the source, or all where it has fewer. They are still to be read.
    ///
    /// # Errors
    ///
    /// A fault of the source. What was gathered is kept, and the next call goes on from it.
    pub fn peek_bom(&mut self) -> Result<PossibleBom, Failed>
        ensures moves { PeekerMoves (S.left (source_of self.old)) (S.left (source_of self.new))
            (standing_of self.old) (standing_of self.new) [] }
        ensures taken { Consumes (S.left (source_of self.old)) (S.left (source_of self.new))
            (drop (length (standing_of self.old).gathered) (standing_of self.new).gathered) }
        ensures kept { Keeps (still_known (standing_of self.old) (S.left (source_of self.old)))
            (still_known (standing_of self.new) (S.left (source_of self.new))) }
        ensures peeked { OnOk result ((standing_of self.new).peeked ≡ true) }
        ensures bytes { IfOk result (λ bom. bom_bytes bom ≡ (standing_of self.new).gathered) }
        ensures whole { IfOk result (λ bom. (standing_of self.new).ended ≡ false → bom.len ≡ 3) }
        ensures three { OnOk result ((standing_of self.new).ended ≡ false
            → length (standing_of self.new).gathered ≡ 3) }
        ensures end { (standing_of self.new).ended ≡ true → IsAtEnd (S.left (source_of self.new)) }
        ensures still_peeked { (standing_of self.old).peeked ≡ true
            → (standing_of self.new).peeked ≡ true }
        ensures still_ended { (standing_of self.old).ended ≡ true
            → (standing_of self.new).ended ≡ true }
        ensures not_ended { OnErr result ((standing_of self.new).ended ≡ false) }
        ensures calls { S.calls (source_of self.new) + length (standing_of self.old).gathered
            ≤ S.calls (source_of self.old) + length (standing_of self.new).gathered + 1 }
        ensures calls_whole { OnOk result ((standing_of self.new).ended ≡ false
            → S.calls (source_of self.new) + length (standing_of self.old).gathered
            ≤ S.calls (source_of self.old) + length (standing_of self.new).gathered) }
        ensures again { (standing_of self.old).peeked ≡ true → IsOk result
            × (source_of self.new ≡ source_of self.old)
            × (standing_of self.new ≡ standing_of self.old) }
        ensures silent { IsNone (S.left (source_of self.old))
            → IsNone (S.left (source_of self.new)) }
        ensures counted { OnOk result (S.faults (source_of self.new)
            ≡ S.faults (source_of self.old)) }
        ensures failed { OnErr result (Rose (S.faults (source_of self.old))
            (S.faults (source_of self.new))) }
        ensures never_falls { S.faults (source_of self.old) ≤ S.faults (source_of self.new) }
    {
        if self.peeked {
            return Ok(self.bom);
        }
        match self.gather(3) {
            Ok(()) => Ok(self.bom),
            Err(failed) => Err(failed),
        }
    }

    /// Moves the next bytes to the front of `buf`, and answers how many.
    ///
    /// `Ok(0)` for a nonempty `buf` comes only where all is given. An empty `buf` makes no call on
    /// the source, and once the source has ended it isn't called again.
    ///
    /// # Errors
    ///
    /// A fault of the source. It gives nothing, and what was gathered for the mark is kept.
    pub fn read(&mut self, buf: &mut [u8]) -> Result<usize, Failed>
        ensures within { ReadsAtMost result buf.new }
        ensures moves { PeekerMoves (S.left (source_of self.old)) (S.left (source_of self.new))
            (standing_of self.old) (standing_of self.new) (given_by result buf.new) }
        ensures moved { ReadConsumes (still_known (standing_of self.old)
            (S.left (source_of self.old))) (still_known (standing_of self.new)
            (S.left (source_of self.new))) result buf.new }
        ensures all { IfOk result (λ n. n ≡ 0 → 0 < length buf.new
            → HasGivenAll (standing_of self.new)) }
        ensures end { (standing_of self.new).ended ≡ true → IsAtEnd (S.left (source_of self.new)) }
        ensures still_peeked { (standing_of self.old).peeked ≡ true
            → (standing_of self.new).peeked ≡ true }
        ensures still_ended { (standing_of self.old).ended ≡ true
            → (standing_of self.new).ended ≡ true }
        ensures not_ended { OnErr result ((standing_of self.new).ended ≡ false) }
        ensures calls { S.calls (source_of self.new) + length (standing_of self.old).gathered
            ≤ S.calls (source_of self.old) + length (standing_of self.new).gathered
            + length (given_by result buf.new) + 1 }
        ensures no_room { length buf.old ≡ 0 → (result ≡ Ok 0)
            × (source_of self.new ≡ source_of self.old)
            × (standing_of self.new ≡ standing_of self.old) }
        ensures after_end { (standing_of self.old).ended ≡ true
            → source_of self.new ≡ source_of self.old }
        ensures silent { IsNone (S.left (source_of self.old))
            → IsNone (S.left (source_of self.new)) }
        ensures counted { OnOk result (S.faults (source_of self.new)
            ≡ S.faults (source_of self.old)) }
        ensures failed { OnErr result (Rose (S.faults (source_of self.old))
            (S.faults (source_of self.new))) }
        ensures never_falls { S.faults (source_of self.old) ≤ S.faults (source_of self.new) }
    {
        if buf.is_empty() {
            return Ok(0);
        }
        if let Err(failed) = self.peek_bom() {
            return Err(failed);
        }
        match self.read_within(buf, buf.len()) {
            Ok((count, _)) => Ok(count),
            Err(failed) => Err(failed),
        }
    }

    // Whether the source has ended, and all is given.
    pub(crate) fn has_given_all(&self) -> bool
        ensures yes { result ≡ true → HasGivenAll (standing_of self.now) }
        ensures no { result ≡ false → HasGivenAll (standing_of self.now) → ⊥ }
    {
        self.peeked && self.ended && self.place == self.bom.len
    }

    // The bytes that were gathered for the mark.
    pub(crate) fn gathered(&self) -> PossibleBom
        ensures { bom_bytes result ≡ (standing_of self.now).gathered }
    {
        self.bom
    }

    // How many they are.
    pub(crate) fn gathered_len(&self) -> usize
        ensures { result ≡ length (standing_of self.now).gathered }
    {
        self.bom.len
    }

    // Whether the bytes for the mark are gathered.
    pub(crate) fn is_peeked(&self) -> bool
        ensures { result ≡ (standing_of self.now).peeked }
    {
        self.peeked
    }

    // The source.
    pub(crate) fn into_source(self) -> S
        ensures { result ≡ source_of self }
    {
        self.source
    }

    // Gathers the bytes for the mark, but no more than `most`.
    pub(crate) fn gather(&mut self, most: usize) -> Result<(), Failed>
        requires unpeeked { (standing_of self.old).peeked ≡ false }
        requires most { length (standing_of self.old).gathered ≤ most }
        ensures moves { PeekerMoves (S.left (source_of self.old)) (S.left (source_of self.new))
            (standing_of self.old) (standing_of self.new) [] }
        ensures taken { Consumes (S.left (source_of self.old)) (S.left (source_of self.new))
            (drop (length (standing_of self.old).gathered) (standing_of self.new).gathered) }
        ensures gathers { Gathers (S.left (source_of self.old)) (S.left (source_of self.new))
            (standing_of self.old) (standing_of self.new) }
        ensures most { length (standing_of self.new).gathered ≤ most }
        ensures peeked { OnOk result ((standing_of self.new).peeked ≡ false
            → (length (standing_of self.new).gathered ≡ most) × (most < 3)) }
        ensures whole { OnOk result ((standing_of self.new).peeked ≡ true
            → (standing_of self.new).ended ≡ false → length (standing_of self.new).gathered ≡ 3) }
        ensures few { OnErr result (length (standing_of self.new).gathered < min 3 most) }
        ensures not_ended { OnErr result ((standing_of self.new).ended ≡ false) }
        ensures unpeeked { OnErr result ((standing_of self.new).peeked ≡ false) }
        ensures calls { S.calls (source_of self.new) + length (standing_of self.old).gathered
            ≤ S.calls (source_of self.old) + length (standing_of self.new).gathered + 1 }
        ensures calls_full { OnOk result ((standing_of self.new).ended ≡ false
            → S.calls (source_of self.new) + length (standing_of self.old).gathered
            ≤ S.calls (source_of self.old) + length (standing_of self.new).gathered) }
        ensures silent { IsNone (S.left (source_of self.old))
            → IsNone (S.left (source_of self.new)) }
        ensures counted { OnOk result (S.faults (source_of self.new)
            ≡ S.faults (source_of self.old)) }
        ensures failed { OnErr result (Rose (S.faults (source_of self.old))
            (S.faults (source_of self.new))) }
        ensures never_falls { S.faults (source_of self.old) ≤ S.faults (source_of self.new) }
    {
        let mut part = [0; 3];
        let room = most.min(3) - self.bom.len;
        match read_full(&mut self.source, &mut part[..room]) {
            Ok(count) => {
                self.bom = self.bom.with(&part[..count]);
                if count == room && self.bom.len < 3 {
                    return Ok(());
                }
                self.ended = count < room;
                self.place = self.bom.front_len(self.strips);
                self.peeked = true;
                Ok(())
            }
            Err((count, failed)) => {
                self.bom = self.bom.with(&part[..count]);
                Err(failed)
            }
        }
    }

    // Gives gathered bytes, as many as wait and fit.
    fn give_waiting(&mut self, buf: &mut [u8]) -> usize
        requires { (standing_of self.old).peeked ≡ true }
        ensures count { result ≡ min (length buf.old) (length (standing_of self.old).waiting) }
        ensures within { result ≤ length buf.new }
        ensures given { (standing_of self.old).waiting
            ≡ take result buf.new ++ (standing_of self.new).waiting }
        ensures standing { standing_of self.new ≡ record (standing_of self.old)
            { waiting = (standing_of self.new).waiting } }
        ensures source { source_of self.new ≡ source_of self.old }
    {
        let count = give(&self.bom.bytes[self.place..self.bom.len], buf);
        self.place += count;
        count
    }

    // Moves the next bytes to the front of `buf`: gathered ones, or at most `most` of the source.
    // Answers how many, and how many of them the source gave.
    pub(crate) fn read_within(
        &mut self,
        buf: &mut [u8],
        most: usize,
    ) -> Result<(usize, usize), Failed>
        requires peeked { (standing_of self.old).peeked ≡ true }
        requires room { 0 < length buf.old }
        requires most { 0 < most }
        ensures within { IfOk result (λ n. n.0 ≤ length buf.new) }
        ensures len { length buf.new ≡ length buf.old }
        ensures are_bytes { AreBytes buf.new }
        ensures next { GivesNext (S.left (source_of self.old)) (S.left (source_of self.new))
            (standing_of self.old) (standing_of self.new) (given_within result buf.new)
            (taken_by result) }
        ensures most { IfOk result (λ n. (n.1 ≤ most) × (n.1 ≤ n.0)) }
        ensures all { IfOk result (λ n. n.0 ≡ 0 → HasGivenAll (standing_of self.new)) }
        ensures none_waits { OnErr result ((standing_of self.new).waiting ≡ []) }
        ensures three { (standing_of self.old).ended ≡ false
            → length (standing_of self.old).gathered ≡ 3 }
        ensures still_peeked { (standing_of self.new).peeked ≡ true }
        ensures still_ended { (standing_of self.old).ended ≡ true
            → (standing_of self.new).ended ≡ true }
        ensures not_ended { OnErr result ((standing_of self.new).ended ≡ false) }
        ensures after_end { (standing_of self.old).ended ≡ true
            → source_of self.new ≡ source_of self.old }
        ensures calls { S.calls (source_of self.new)
            ≤ S.calls (source_of self.old) + taken_by result + 1 }
        ensures calls_on { OnOk result ((standing_of self.new).ended ≡ false
            → S.calls (source_of self.new) ≤ S.calls (source_of self.old) + taken_by result) }
        ensures silent { IsNone (S.left (source_of self.old))
            → IsNone (S.left (source_of self.new)) }
        ensures counted { OnOk result (S.faults (source_of self.new)
            ≡ S.faults (source_of self.old)) }
        ensures failed { OnErr result (Rose (S.faults (source_of self.old))
            (S.faults (source_of self.new))) }
        ensures never_falls { S.faults (source_of self.old) ≤ S.faults (source_of self.new) }
    {
        if self.waits() {
            return Ok((self.give_waiting(buf), 0));
        }
        if self.ended {
            return Ok((0, 0));
        }
        let room = most.min(buf.len());
        match self.read_on(&mut buf[..room]) {
            Ok(count) => Ok((count, count)),
            Err(failed) => Err(failed),
        }
    }

    // Whether gathered bytes wait.
    fn waits(&self) -> bool
        ensures yes { result ≡ true → 0 < length (standing_of self.now).waiting }
        ensures no { result ≡ false → (standing_of self.now).waiting ≡ [] }
    {
        self.place < self.bom.len
    }

    // Reads from the source behind the gathered bytes.
    fn read_on(&mut self, buf: &mut [u8]) -> Result<usize, Failed>
        requires peeked { (standing_of self.old).peeked ≡ true }
        requires none_waits { (standing_of self.old).waiting ≡ [] }
        requires not_ended { (standing_of self.old).ended ≡ false }
        requires room { 0 < length buf.old }
        ensures within { ReadsAtMost result buf.new }
        ensures next { GivesNext (S.left (source_of self.old)) (S.left (source_of self.new))
            (standing_of self.old) (standing_of self.new) (given_by result buf.new)
            (count_by result) }
        ensures all { IfOk result (λ n. n ≡ 0 → HasGivenAll (standing_of self.new)) }
        ensures some { IfOk result (λ n. (standing_of self.new).ended ≡ false → 0 < n) }
        ensures none_waits { (standing_of self.new).waiting ≡ [] }
        ensures still_peeked { (standing_of self.new).peeked ≡ true }
        ensures not_ended { OnErr result ((standing_of self.new).ended ≡ false) }
        ensures calls { S.calls (source_of self.new) ≤ S.calls (source_of self.old) + 1 }
        ensures silent { IsNone (S.left (source_of self.old))
            → IsNone (S.left (source_of self.new)) }
        ensures counted { OnOk result (S.faults (source_of self.new)
            ≡ S.faults (source_of self.old)) }
        ensures failed { OnErr result (Rose (S.faults (source_of self.old))
            (S.faults (source_of self.new))) }
        ensures never_falls { S.faults (source_of self.old) ≤ S.faults (source_of self.new) }
    {
        match self.source.read(buf) {
            Ok(count) => {
                self.ended = count == 0;
                Ok(count)
            }
            Err(failed) => Err(failed),
        }
    }
}
