// Ascending elements in slices, at any width: searching, scanning, shifting, merging, storing.
#![tactic(auto)]

pub mod merge;
pub mod merging;
pub mod scan;
pub mod search;
pub mod shift;
pub mod store;
#[cfg(test)]
mod tests;
