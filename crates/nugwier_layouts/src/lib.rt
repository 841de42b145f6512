//! How records are written: each has a layout and members. A record is an object of JSON (`json`), or a row for people
//! (`text`), by its layout (`layouts`). Names of a file are shown so that no terminal takes them for orders (`escape`).
#![tactic(auto)]

pub mod escape;
pub mod json;
pub mod layouts;
pub mod text;
