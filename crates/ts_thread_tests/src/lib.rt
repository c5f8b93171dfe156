//! Small worlds that are run: one group at a time, and rows of groups that ask each other, driven to their end on
//! one thread and after many.
#![tactic(auto)]

#[cfg(test)]
mod crowd;
#[cfg(test)]
mod groups;
#[cfg(test)]
mod row;
#[cfg(test)]
mod tests;
#[cfg(test)]
mod toys;
#[cfg(test)]
mod turns;
