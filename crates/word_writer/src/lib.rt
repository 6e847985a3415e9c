//! Any text as the value of a mail header: as it is, or in encoded words (RFC 2047).
#![tactic(auto)]

mod groups;
pub mod laws;
pub mod limits;
mod plain;
mod writer;

pub use laws::read_back;
pub use writer::write_words;
