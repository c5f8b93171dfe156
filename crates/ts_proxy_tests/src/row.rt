//! Recorded transactions under a configuration, and what is stated of them.

use crate::command::{MEMORY, replayed};
use crate::comparison::{Comparison, Wanted, compare, done};
use crate::recording::{Exchange, recording_of};
use crate::report::{Stated, report_of};
use std::process::Abort;
use std::sync::Wait;
use std::thread::Threads;

/// Whether these words leave what they are to leave, over a configuration and a recording.
pub fn compared<R: Abort + AllocGlobal + Threads + Wait + Sync>(
    rt: &R,
    words: &[&str],
    config: &[u8],
    recording: &[u8],
    wanted: &Wanted<'_>,
) -> Comparison {
    compare(&replayed(rt, words, config, recording), wanted)
}

/// Whether transactions come out as stated where these words replay them under a configuration, so many lines
/// of which are of hook plugins.
pub fn check_with<R: Abort + AllocGlobal + Threads + Wait + Sync>(
    rt: &R,
    words: &[&str],
    config: &[u8],
    plugins: usize,
    exchanges: &[Exchange<'_>],
    stated: &[Stated<'_>],
) -> Comparison {
    let recording = recording_of(rt.alloc(), exchanges).expect(rt, MEMORY);
    let report = report_of(rt.alloc(), stated).expect(rt, MEMORY);
    let journals = stated.len().saturating_add(plugins);
    let wanted = done(report.as_slice(), journals);
    compared(rt, words, config, recording.as_slice(), &wanted)
}
