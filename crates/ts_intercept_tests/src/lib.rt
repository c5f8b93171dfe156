//! Tests of server intercepts: which line serves a host, what it serves, and what is handed on.
#![tactic(auto)]

#[cfg(test)]
mod ends;
#[cfg(test)]
mod intercepts;
