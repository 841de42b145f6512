//! Laws: theorems for the proofs of callers, by subject. Each is the contract of a function that does nothing, or
//! that only calls `len`, from which the proof learns that the bytes are fewer than 2^64. A caller uses a law by
//! calling the function.
pub use elf_records::laws::{defaults, lists, numbers, symbols, tables};

pub mod clones;
pub mod equality;
pub mod find;
pub mod notes;
pub mod versions;
pub mod written;
