//! The lines of a listing, one module for each subject. What writes a line takes what readers return, and does not
//! depend on the reader.
//!
//! A function `write_..` writes whole lines to `out`. Its only error is that of the writer; how much of the text the
//! writer got is then not stated. A function `add_..` and the methods of `LineBuffer` add to a line in a buffer, whose
//! `end` writes it and returns the error. Only `versions::HeapRoom` allocates.
#![tactic(auto)]

pub mod counted;
pub mod data;
pub mod dynamic;
pub mod header;
pub mod line_buffer;
mod name;
pub mod no_answer;
pub mod notes;
pub mod relocations;
pub mod sections;
pub mod segments;
pub mod strings;
pub mod symbols;
pub mod versions;
