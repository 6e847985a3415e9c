//! The codes of the Encoding Standard, and the calls that decode and encode a stream by them, in
//! pieces of any length and with no memory of their own. The definitions are in `specs/`: `units`
//! of a code, their `text`, and the resume equation.
#![tactic(auto)]

pub mod code;
pub mod codes;
pub mod drivers;
pub mod encode;
pub mod encoders;
mod front;
pub mod laws;
pub mod lookup;
mod steps;
#[cfg(test)]
mod testing;
pub mod unit;

pub use unit::{Item, JisSet, Mode};
