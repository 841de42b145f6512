//! What a user's crate may do with the library: a byte order and record types of its own, functions over any of them,
//! and callers that prove what they read.
pub mod branch;
pub mod callers;
pub mod even_byte;
pub mod example;
pub mod loops;
pub mod order;
pub mod readers;
pub mod triple;
