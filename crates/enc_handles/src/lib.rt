//! Sources and destinations of bytes and of text, and the handles that read and write there.
#![tactic(auto)]

mod ascii_to_bytes;
mod basic_latin;
mod blocks;
pub mod byte_buffer;
pub mod byte_destination;
pub mod byte_slice;
pub mod byte_source;
pub mod char_source;
pub mod destination;
pub mod endian;
pub mod entry;
pub mod laws;
pub mod results;
pub mod room;
pub mod space;
#[cfg(test)]
mod testing;
pub mod text_slice;
pub mod unaligned;
pub mod unicode;
pub mod unit_slice;
pub mod utf16;
pub mod utf8;
mod utf8_parts;
