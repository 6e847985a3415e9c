//! Sources of bytes: the trait that readers here stand on, a source in memory, and one over a
//! reader of std; and readers of a stream that look for its byte order mark, or give its text in
//! few bytes.
#![tactic(auto)]

pub mod bom;
pub mod builder;
pub mod filling;
pub mod laws;
pub mod memory;
pub mod outside;
pub mod peeker;
pub mod reader;
pub mod stream;
pub mod tiny;

pub use bom::PossibleBom;
pub use builder::{BuildError, DecodeReaderBytesBuilder};
pub use filling::read_full;
pub use memory::MemorySource;
pub use outside::{Failed, Source};
pub use peeker::BomPeeker;
pub use reader::{DecodeReaderBytes, ReadError};
pub use stream::StreamSource;
pub use tiny::TinyTranscoder;

#[cfg(test)]
mod testing;
#[cfg(test)]
mod tests;
