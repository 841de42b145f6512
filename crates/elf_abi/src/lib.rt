//! The names and numbers of the ELF format: its constants, and the texts that name a value.
#![tactic(auto)]

pub mod abi;
pub mod to_str;
