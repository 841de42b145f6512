//! Names that a machine, a system or a linker gives to numbers, beyond those of `elf_abi::to_str`.
#![tactic(auto)]

pub mod attributes;
pub mod flags;
pub mod machines;
pub mod notes;
pub mod relocations;
pub mod sections;
pub mod segments;
pub mod table;
pub mod tags;
