//! What `nugwier` says of a program with its libraries: its objects (`tree`), what their symbols bind to (`bindings`), and
//! whether it starts (`starts`).
#![tactic(auto)]

pub mod binding_rows;
pub mod bindings;
pub mod faults;
pub mod object_rows;
pub mod starts;
pub mod tree;
