//! The program `nugwier` without its surroundings: `run` does what the words of its command line ask for (`words`, `help`).
//! It gets files by a trait (`elf_libraries::files::Files`). What is told of one file for a command is in `job`, and for `list`
//! in `list`: a file that is read by parts is told only after a walk with a silent teller has found nothing missing.
#![tactic(auto)]

mod address;
mod archive;
mod asked;
pub mod formats;
pub mod help;
pub mod job;
pub mod labels;
mod letters;
pub mod list;
mod loading;
mod places;
mod requirements;
pub mod run;
mod target;
mod walk;
pub mod words;
