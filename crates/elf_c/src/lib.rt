//! The reader `ElfBytes` for C, and for every language that calls C, over a file in memory or over what is loaded of it.
//! Nothing is allocated, and nothing is kept between two calls.
#![tactic(auto)]

pub mod addresses;
pub mod build_id;
pub mod check;
pub mod common;
pub mod data;
pub mod dynamic_names;
pub mod fault_texts;
pub mod faults;
pub mod file;
pub mod find;
pub mod hash_tables;
pub mod laws;
pub mod named;
pub mod names;
pub mod notes;
pub mod opening;
mod reading;
pub mod records;
pub mod section_names;
pub mod status;
pub mod strings;
pub mod symbols;
pub mod table;
pub mod texts;
pub mod version_places;
pub mod version_table;
pub mod versions;
