//! Tests that no row of a script or a table can hold. Those of jobs, files and words: bytes that are no text, texts of a
//! megabyte, readers that never end, paths and command lines. Those of the crates below: certificates made by hand, texts
//! with places, and the crates that no row calls.
#![tactic(auto)]

#[cfg(test)]
mod tests;
#[cfg(test)]
mod trials;
