//! Tests of request bodies: what is shown of a request with one, what is handed over of it, and what of it an
//! origin gets, of a carrier alone and of a transaction with layers.
#![tactic(auto)]

#[cfg(test)]
mod carrying;
#[cfg(test)]
mod fronts;
#[cfg(test)]
mod kept;
#[cfg(test)]
mod layered;
#[cfg(test)]
mod rows;
