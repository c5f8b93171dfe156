//! Tests of hook plugins, each in a group of its own that is asked, and of worlds of one of two kinds. What
//! is expected was worked out by hand from what a line says.
#![tactic(auto)]

#[cfg(test)]
mod asking;
#[cfg(test)]
mod denying;
#[cfg(test)]
mod groups;
#[cfg(test)]
mod kinds;
#[cfg(test)]
mod memory;
#[cfg(test)]
mod ruling;
