//! The opening of a file: its header is read, and the two tables that it declares are found.

mod slice;
mod source;

pub use slice::{Opened, open, open_by_segments};
pub use source::{SourceHeaders, open_source, open_source_by_segments};
