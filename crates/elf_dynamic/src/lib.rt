//! What a dynamic linker reads of a file beyond the tables that `elf` reads: through segments alone, without section
//! headers (`dynamic_view`), and packed relative relocations (`relr`). `linked` says by which of both a file is read,
//! and `conf` has the lines of the configuration that names the folders of libraries.
#![tactic(auto)]

pub mod dynamic_view;
pub mod linked;
pub mod relr;
