//! Recordings: whether they print back as they were read, or the offset at which they are refused.
ghost use Rattle.ts_record.specs.Grammar.{KeepsLimits};

use crate::escapes::told;
use crate::failure::Failure;
use std::alloc::Global;
use ts_link::NoMemory;
use ts_record::{Recording, RecordingRefusal, print_recording, read_recording};

// Whether printing gives these bytes back.
fn is_printed_back(alloc: Global, recording: &Recording, bytes: &[u8]) -> Result<bool, NoMemory>
    requires { KeepsLimits recording.now }
{
    let printed = print_recording(alloc, recording)?;
    Ok(printed.bytes() == bytes)
}

/// The line of a recording.
pub fn recording_line(alloc: Global, text: &[u8]) -> Result<Vec<u8>, Failure> {
    match read_recording(alloc, text) {
        Ok(recording) => {
            let rule = if is_printed_back(alloc, &recording, text)? {
                " bytes, and printed back"
            } else {
                " bytes, and printed otherwise"
            };
            told(alloc, "= read,", text.len() as u64, rule)
        }
        Err(RecordingRefusal::Fault { offset }) => told(alloc, "! offset", offset, ""),
        Err(RecordingRefusal::NoMemory) => Err(Failure),
    }
}

// Whether a front of a recording is refused where it ends.
fn stops_at_its_end(alloc: Global, front: &[u8]) -> Result<bool, Failure> {
    match read_recording(alloc, front) {
        Ok(_) => Ok(false),
        Err(RecordingRefusal::Fault { offset }) => Ok(offset == front.len() as u64),
        Err(RecordingRefusal::NoMemory) => Err(Failure),
    }
}

/// The line of all fronts of a recording but the whole.
pub fn fronts_line(alloc: Global, text: &[u8]) -> Result<Vec<u8>, Failure> {
    for length in 0..text.len() {
        let (front, _) = text.split_at(length);
        if !stops_at_its_end(alloc, front)? {
            return told(alloc, "! front", length as u64, ": not refused at its end");
        }
    }
    told(
        alloc,
        "= fronts",
        text.len() as u64,
        ": each refused at its end",
    )
}
