//! A book under real contention: many threads that take, report, give back and offer as they like.
#![tactic(auto)]

#[cfg(test)]
mod contention;
#[cfg(test)]
mod replay;
#[cfg(test)]
mod tests;
#[cfg(test)]
mod turns;
