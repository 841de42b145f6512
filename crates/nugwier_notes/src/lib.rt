//! What `nugwier` says of notes and of build attributes: of those of a file in `note_sections` and `attribute_sections`, of
//! one note in `notes`, and of the attributes of a section in `attributes`.
#![tactic(auto)]

pub mod attribute_sections;
pub mod attributes;
mod core_notes;
mod descriptors;
pub mod features;
mod note_parts;
pub mod note_sections;
pub mod notes;
pub mod properties;
