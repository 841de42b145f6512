//! What is said of the symbols, the relocations, the section groups and the addresses of a file. Of each the first module
//! has where they come from, and the one of its rows what is said of one.
#![tactic(auto)]

pub mod address_rows;
pub mod addresses;
pub mod group_rows;
pub mod groups;
pub mod relocation_rows;
pub mod relocations;
pub mod symbol_options;
pub mod symbol_rows;
pub mod symbol_versions;
pub mod symbols;
