//! One file for each code: how its bytes are read, how scalars are written in it, and its laws, the
//! functions without a body at its end.

pub mod big5;
pub mod euc_jp;
pub mod euc_kr;
pub mod gb18030;
pub mod iso_2022_jp;
mod pairs;
mod sequence;
pub mod shift_jis;
pub mod single_byte;
pub mod user_defined;
pub mod utf16;
pub mod utf8;
pub mod windows_1252;
