//! What the dynamic linker sees of a file: its dynamic entries, and the tables whose addresses they give (gABI, chapter
//! "Dynamic Section"). Only segments are read, so the file needs no section headers. The functions read any `Reader`: a
//! file in memory, what a stream has cached, or loaded ranges. Nothing is copied and nothing is allocated.
//!
//! An address is one of memory. The first segment of type `PT_LOAD` that has the whole range in the file says where its
//! bytes are.

mod entries;
mod error;
mod hashes;
pub mod laws;
mod relocations;
mod segments;
mod string_table;
mod symbol_table;
mod version_table;

pub use entries::{TagValues, dynamic_table, has_tag, required, value, value_in, values};
pub use error::DynamicError;
pub use hashes::{gnu_hash, sysv_hash};
pub use relocations::{PltRelocations, address_size, plt_relocations, relas, relr_bytes, rels};
pub use segments::{bytes_from, bytes_of, part_of};
pub use string_table::{name_of, string_part, strings};
pub use symbol_table::{symbol_count, symbol_part, symbols, symbols_with_strings};
pub use version_table::{
    version_definitions, version_indexes, version_needs, versions, versions_of,
};
