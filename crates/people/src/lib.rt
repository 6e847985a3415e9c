//! Header values as people are shown them: RFC 2047, RFC 5322, RFC 2231 and RFC 6532.
#![tactic(auto)]

mod b_text;
mod folds;
mod frame;
pub mod laws;
mod letter;
mod names;
mod pieces;
mod q_text;
#[cfg(test)]
mod testing;
#[cfg(test)]
mod tests;
mod word;

pub use folds::unfold;
pub use names::people_label;
pub use pieces::{Part, parts};
pub use word::WordSlice;
