//! Tests of what no contract says: sources, writers and allocations that fail, texts, and the values of constants.
//! What a user's crate may do with the library is no test: `user_types` is proved.
#![tactic(auto)]

#[cfg(test)]
mod constants;
#[cfg(test)]
mod current_header;
#[cfg(test)]
mod faults;
#[cfg(test)]
mod links;
#[cfg(test)]
mod listing;
#[cfg(test)]
mod memory;
#[cfg(test)]
mod opening;
#[cfg(test)]
mod records;
#[cfg(test)]
mod shown;
#[cfg(test)]
mod sizes;
#[cfg(test)]
mod small_files;
#[cfg(test)]
mod sources;
#[cfg(test)]
mod streams;
#[cfg(test)]
mod streams_large;
#[cfg(test)]
mod tables;
pub mod user_types;
#[cfg(test)]
mod value_names;
