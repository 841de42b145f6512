//! Laws: theorems for the proofs of callers, by subject. Each is the contract of a function that does nothing. A caller
//! uses a law by calling the function.
pub mod clones;
pub mod defaults;
pub mod equality;
pub mod lists;
pub mod numbers;
pub mod symbols;
pub mod tables;
