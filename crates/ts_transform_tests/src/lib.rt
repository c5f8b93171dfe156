//! Chains of transforms worked by hand, over one body in a group, and between two links; and a transform of
//! one's own with its body cut at every place.
#![tactic(auto)]

#[cfg(test)]
mod by_hand;
#[cfg(test)]
mod carried;
#[cfg(test)]
mod driven;
#[cfg(test)]
mod early;
#[cfg(test)]
mod links;
#[cfg(test)]
mod quoting;
#[cfg(test)]
mod tail;
#[cfg(test)]
mod worlds;
