//! A body on its way through transform lines: what is read of it, what its chain makes of that and what is sent,
//! whatever links it comes from and goes to.
#![tactic(auto)]
