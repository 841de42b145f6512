//! A report of many files (`report`, `run`): what is told of each (`tell`) is written as it comes, each record
//! (`nugwier_layouts`) and each problem (`problem`) with its place. The file that is told of is a `listed` one, of which a
//! part is loaded or which is in memory (`in_memory`); `reading` and `linked` read it, or say what is missing.
#![tactic(auto)]

pub mod headings;
pub mod in_memory;
pub mod linked;
pub mod listed;
mod log;
pub mod named_sections;
pub mod names;
pub mod problem;
pub mod quoted;
pub mod reading;
pub mod report;
pub mod rows;
pub mod run;
pub mod tell;
pub mod typed_sections;
