//! Plays of small lines, with slaves that behave and slaves that don't. The bytes are worked out by hand.
#![tactic(auto)]

#[cfg(test)]
mod both;
mod harm;
#[cfg(test)]
mod hostile;
#[cfg(test)]
mod lines;
#[cfg(test)]
mod meeting;
#[cfg(test)]
mod slaves;
#[cfg(test)]
mod tests;
