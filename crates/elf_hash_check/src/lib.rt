//! The checker of hash sections (`hashcheck`).
#![tactic(auto)]

pub mod hashcheck;
