//! Reads archives of files, as `ar` makes them of object files (System V ABI, chapter "Object Files", "Archive File"):
//! those of System V and GNU, those of BSD and macOS, and thin ones. `archive` has the members of an archive. `fields` reads
//! the numbers and names that headers hold, and `entry` what a header with its content is.
#![tactic(auto)]

pub mod archive;
mod entry;
mod fields;
pub mod laws;
