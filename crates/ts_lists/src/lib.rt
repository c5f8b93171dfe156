//! Lemmas on lists, options and results that several crates cite: fronts, places, elements, lists side by
//! side.
#![tactic(auto)]
