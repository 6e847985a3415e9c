//! What a check answers, a handle or the place, and how a copy of ASCII ended.

/// Whether there is space, or an element.
#[derive(Drop)]
pub enum Space<T> {
    /// There is, and the handle is the leave to use it.
    Available(T),
    /// There is none; the place of the source, or how many elements were written.
    Full(usize),
}

/// How a copy of ASCII ended.
#[derive(Drop)]
pub enum CopyAsciiResult<T, U> {
    /// The source or the room ended; the result, and the places of source and destination.
    Stop(T),
    /// A byte past ASCII was read; the byte, and a handle for its text.
    GoOn(U),
}
