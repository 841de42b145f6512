//! What is said of what a file has for the dynamic linker: its dynamic entries, the versions that it defines and needs, and
//! the chains of its hash sections; and of how it is hardened. Of each the first module has where they come from, and the one
//! of its rows what is said of one.
#![tactic(auto)]

pub mod chain_rows;
pub mod chains;
pub mod entries;
pub mod entry_rows;
pub mod hardening;
pub mod hardening_rows;
pub mod version_lists;
pub mod version_rows;
