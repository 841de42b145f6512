//! The check of a whole file. A file that was checked is read without errors.
#![tactic(auto)]

mod all;
mod chains;
mod checking;
mod dynamic;
pub mod faults;
mod hashes;
pub mod notes;
mod relocations;
mod sections;
pub mod segments;
mod strings;
mod symbols;
mod types;
mod versions;
mod walk;
mod whole;

pub use all::{all_faults, all_faults_in};
pub use checking::{FaultWalk, fault_walk};
pub use whole::{
    WholeDefinition, WholeDynamic, WholeFile, WholeNames, WholeRelocations, WholeSection,
    WholeSections, WholeStrings, WholeSymbols, WholeSymbolsIter, WholeVersion, WholeVersions,
    check_file, check_file_in,
};
