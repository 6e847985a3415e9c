//! Laws of encodings and decoders. Each function's contract is a law.
ghost use Rattle.std.specs.Prelude.{◌≡◌, ◌≤◌, Some, length, map};
ghost use Rattle.enc_front.specs.declared.decoder.Decoder.{Decoder};
ghost use Rattle.enc_front.specs.declared.encoding.Encoding.{Encoding};
ghost use Rattle.enc_front.specs.DecoderView.{place_of};
ghost use Rattle.enc_front.specs.Encoding.{label, labels, name_text};
ghost use Rattle.enc_handles.specs.TypeLaws.{IsEquality, ClonesSame, HashesEqual};

use crate::charset::Charset;
use crate::encoding::{Encoding, SingleName};
use crate::index_file::IndexError;
use crate::tables::{IndexKind, TableError, Why};
use std::hash::Hash;

/// An encoding's name is a label of that encoding.
#[tactic(auto, using(crate::proofs::LabelLemmas::name_is_label))]
pub fn names_are_labels()
    ensures { (encoding : Encoding) → label (name_text encoding) ≡ Some encoding }
{}

/// Each row of the table of labels is found: no label is in it twice, for two encodings.
#[tactic(auto, using(crate::proofs::LabelLemmas::each_label_found))]
pub fn labels_are_found()
    ensures { map (λ row. label row.0) labels ≡ map (λ row. Some row.1) labels }
{}

/// A decoder holds at most three bytes, also between two calls.
#[tactic(auto, using(crate::specs::Lemmas::Held::few_held))]
pub fn few_held()
    ensures { (decoder : Decoder) → length (place_of decoder).held ≤ 3 }
{}

/// Values of a type of this crate are equal exactly where they are the same.
pub fn equals()
    ensures encodings { IsEquality ⟦<Encoding as PartialEq>⟧.eq }
    ensures names { IsEquality ⟦<SingleName as PartialEq>⟧.eq }
    ensures charsets { IsEquality ⟦<Charset as PartialEq>⟧.eq }
    ensures kinds { IsEquality ⟦<IndexKind as PartialEq>⟧.eq }
    ensures faults { IsEquality ⟦<Why as PartialEq>⟧.eq }
    ensures table_errors { IsEquality ⟦<TableError as PartialEq>⟧.eq }
    ensures index_errors { IsEquality ⟦<IndexError as PartialEq>⟧.eq }
{}

/// A clone of a value of a type of this crate is that value.
pub fn clones()
    ensures encodings { ClonesSame ⟦<Encoding as Clone>⟧.is_clone }
    ensures names { ClonesSame ⟦<SingleName as Clone>⟧.is_clone }
    ensures charsets { ClonesSame ⟦<Charset as Clone>⟧.is_clone }
    ensures kinds { ClonesSame ⟦<IndexKind as Clone>⟧.is_clone }
    ensures faults { ClonesSame ⟦<Why as Clone>⟧.is_clone }
{}

/// Equal values give a hasher the same bytes, in the same writes.
pub fn hashes()
    ensures encodings { HashesEqual ⟦<Encoding as PartialEq>⟧.eq ⟦<Encoding as Hash>⟧.hash_input }
    ensures names { HashesEqual ⟦<SingleName as PartialEq>⟧.eq ⟦<SingleName as Hash>⟧.hash_input }
    ensures charsets { HashesEqual ⟦<Charset as PartialEq>⟧.eq ⟦<Charset as Hash>⟧.hash_input }
    ensures kinds { HashesEqual ⟦<IndexKind as PartialEq>⟧.eq ⟦<IndexKind as Hash>⟧.hash_input }
{}
