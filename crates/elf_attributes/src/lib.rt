//! Reads build attributes, which tell how the code of a file was built: the processor that it is for, and the conventions
//! of its calls. `leb128` has the numbers and texts that they are made of, `attributes` the parts of a section.
#![tactic(auto)]

pub mod attributes;
pub mod leb128;
