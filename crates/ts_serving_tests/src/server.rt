//! Nets that are served without the program around: what each client gets, how its transaction ends, and why
//! serving ends.

mod broken_uploads;
mod crowds;
mod ends;
mod leaving;
mod memory;
mod plugins;
mod row;
mod uploads;
