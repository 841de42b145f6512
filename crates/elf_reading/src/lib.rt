//! What the two readers of ELF files are built from: the opening of a file in a slice, the sources that a file is read
//! from, and a cache of what was read.
#![tactic(auto)]

pub mod cache;
pub mod leading;
pub mod opening;
pub mod reads;
pub mod source;
pub mod tables;
pub mod versions;
