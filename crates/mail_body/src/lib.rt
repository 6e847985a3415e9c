//! Mail bodies in pieces of any length, by their transfer encoding (RFC 2045, section 6).
#![tactic(auto)]

pub mod laws;
mod letters;
mod quoted;
#[cfg(test)]
mod testing;
pub mod transfer;
mod writing;

pub use transfer::{Transfer, TransferDecoder};
