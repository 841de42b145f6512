//! Callers of the library, each in a module of its own, with the contract that its user needs: `build_id`, `functions`,
//! `load_plan`, `hash_lint`, `symbol_versions`, `addresses` and `debug_link`. The program `elf_cases` prints
//! their results. `laws` has theorems for their callers.
#![tactic(auto)]

pub mod addresses;
pub mod build_id;
pub mod debug_link;
pub mod functions;
pub mod hash_lint;
pub mod laws;
pub mod load_plan;
pub mod symbol_versions;
