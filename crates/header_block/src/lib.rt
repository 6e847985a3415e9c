//! The fields of a message's header block, unfolded, with the encoded words of their values decoded
//! (RFC 5322, section 2.2; RFC 2047).
#![tactic(auto)]

pub mod block;
mod field_parts;
mod field_reader;
pub mod laws;
mod lines;

pub use block::{BlockError, Field, HeaderBlock};
