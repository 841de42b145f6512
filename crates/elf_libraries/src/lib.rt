//! How the dynamic linker finds the libraries of a program.
//!
//! `search` has the places where a library is searched for, and `tree` what a program loads, in order. `cache` reads the
//! linker's cache of libraries, and `configured` the folders of `/etc/ld.so.conf` (its lines are those of `conf`, and its
//! patterns those of `patterns`), which count in place of a cache. `usual` and `processor` have the folders that are
//! searched last, and their subfolders for a processor. The names of the libraries that a file needs come from
//! `elf_linking`.
//!
//! Files come from `files`: those of the operating system (`system`), or those of a list in memory (`memory`); of both
//! those below a folder (`below`). `named` opens the libraries among them by their names alone.
#![tactic(auto)]

mod asked_folders;
pub mod below;
pub mod cache;
pub mod conf;
pub mod configured;
pub mod files;
pub mod folder;
pub mod memory;
pub mod named;
pub mod opening;
mod paths;
pub mod patterns;
pub mod processor;
pub mod search;
pub mod system;
pub mod tree;
pub mod usual;
