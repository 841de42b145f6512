//! What becomes of a library that is opened.

/// A library that was opened.
#[derive(Drop)]
pub enum Opening<S> {
    /// It can be read by parts.
    Parts(S),
    /// It can only be read whole, or not at all.
    Whole,
    /// There is none that can be read.
    Missing,
}
