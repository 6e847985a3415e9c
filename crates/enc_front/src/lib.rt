//! Turns bytes of any encoding of the Encoding Standard into text, and text into bytes of most.
#![tactic(auto)]

mod charset;
mod decoder;
mod encoder;
mod encoding;
mod index;
mod index_file;
pub mod laws;
mod mark;
mod output;
mod rows;
mod stretch;
mod tables;
#[cfg(test)]
mod testing;
mod variant;
mod whole;

pub use charset::Charset;
pub use decoder::Decoder;
pub use encoder::Encoder;
pub use encoding::{Encoding, SingleName};
pub use index_file::{IndexError, read_index};
pub use tables::{IndexKind, TableError, Tables, Why};
