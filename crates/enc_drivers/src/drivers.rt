//! The drivers: they decode a stream in pieces.

pub mod euc_jp;
pub mod gb18030;
pub mod general;
pub mod two_byte;
