//! Where bytes go, and where files come from.

pub mod folder;
pub mod memory;
pub mod shelf;
pub mod sink;
pub mod stream;
