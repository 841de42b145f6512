//! What is said of the header of a file, and of its sections and segments: their headers, contents and links to debug
//! information; of what a loader maps, of the build id, and of whether the file is sound. Of each the first module has where
//! they come from, and the one of its rows what is said of one.
#![tactic(auto)]

pub mod build_id;
pub mod check;
pub mod content_rows;
pub mod contents;
pub mod debug_link_rows;
pub mod debug_links;
pub mod header;
pub mod mapping_rows;
pub mod plan;
pub mod section_rows;
pub mod sections;
pub mod segment_rows;
pub mod segment_sections;
pub mod segments;
pub mod verdicts;
