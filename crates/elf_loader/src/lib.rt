//! Whether a program starts, and why not: what the kernel (`kernel`) asks of a program and of its interpreter, and what the
//! dynamic linker of the GNU C library (`glibc`) asks of the file of a library, in order. Nothing is run.
#![tactic(auto)]

pub mod glibc;
pub mod kernel;
