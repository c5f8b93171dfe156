//! The files of a command are read in the order of the work: the configuration, the files of its lines, and
//! then the body or the recording.
ghost use Rattle.std.specs.Prelude.{◌≡◌, List, ℕ, false, true, IfOk, IfErr, OnOk};
ghost use Rattle.ts_config.specs.Setup.{ConfigLines, lines_of};
ghost use Rattle.ts_proxy.specs.Outcome.{Outcome, performed, set_up, worked};
ghost use Rattle.ts_proxy.specs.Words.{Command};
ghost use Rattle.ts_proxy.specs.Answers.{Leads, IsOfConfig, IsOfReading, IsUnfailed, OnCannotRead, IsReadBy};
ghost use Rattle.ts_replay.specs.Recorded.{HasPlainLines};

use crate::answer::{Answer, NamedFile, refused};
use crate::filling::fill_setup;
use std::alloc::Global;
use ts_config::{ConfigRefusal, Setup, read_config};
use ts_link::{Octets, Shelf};

const MOST_CONFIG: u64 = 1_048_576;

const MOST_INPUT: u64 = 67_108_864;

/// What the files of a command hold: the lines of its configuration, with the texts of the files that they
/// name, and the bytes of its body or recording.
#[derive(Drop)]
pub struct Files {
    pub setup: Setup,
    pub input: Octets,
}

/// The lines of a configuration that act, with sessions or without, in the order in which they act. The shelf
/// has the configuration under this name, and the texts of the files that its lines name.
pub fn set_up<S: Shelf>(
    alloc: Global,
    shelf: &mut S,
    config: &str,
    sessions: bool,
) -> Result<Setup, Answer>
    ensures told { S.tells ≡ true → (input : List ℕ) (next : ConfigLines → Outcome) →
        Leads config.now input result (set_up sessions (S.seen shelf.old).file config.now next)
        (λ s. next (lines_of s)) }
    ensures named { S.tells ≡ true →
        IfErr result (λ e. OnCannotRead e (IsReadBy (S.seen shelf.old) config.now)) }
    ensures of_config { IfErr result (λ e. OnCannotRead e IsOfConfig) }
    ensures lines { IfOk result HasPlainLines }
    ensures files { S.tells ≡ true → (S.seen shelf.new).file ≡ (S.seen shelf.old).file }
    ensures same { OnOk result (IsUnfailed (S.seen shelf.old) (S.seen shelf.new)) }
    ensures cause { IfErr result (λ e. IsOfReading e (S.seen shelf.old) (S.seen shelf.new)) }
{
    let bytes = match shelf.read(alloc, config, MOST_CONFIG) {
        Ok(bytes) => bytes,
        Err(fault) => return Err(refused(fault, NamedFile::Config)),
    };
    let setup = match read_config(alloc, bytes.bytes()) {
        Ok(setup) => setup,
        Err(ConfigRefusal::Fault(fault)) => return Err(Answer::BadLine(fault)),
        Err(ConfigRefusal::NoMemory) => return Err(Answer::OutOfMemory),
    };
    match fill_setup(alloc, shelf, setup) {
        Ok(setup) => match setup.ordered(alloc, sessions) {
            Ok(setup) => Ok(setup),
            Err(_) => Err(Answer::OutOfMemory),
        },
        Err(answer) => Err(answer),
    }
}

/// Reads the files of a command without sessions, which the shelf has under these names.
pub fn read_files<S: Shelf>(
    alloc: Global,
    shelf: &mut S,
    config: &str,
    input: &str,
) -> Result<Files, Answer>
    ensures told { S.tells ≡ true → (command : Command) → Leads config.now input.now result
        (performed command (S.seen shelf.old).file config.now input.now)
        (λ files. worked command (lines_of files.setup) files.input) }
    ensures named { S.tells ≡ true →
        IfErr result (λ e. OnCannotRead e (IsReadBy (S.seen shelf.old) config.now)) }
    ensures lines { IfOk result (λ files. HasPlainLines files.setup) }
    ensures same { OnOk result (IsUnfailed (S.seen shelf.old) (S.seen shelf.new)) }
    ensures cause { IfErr result (λ e. IsOfReading e (S.seen shelf.old) (S.seen shelf.new)) }
{
    let setup = match set_up(alloc, shelf, config, false) {
        Ok(setup) => setup,
        Err(answer) => return Err(answer),
    };
    match shelf.read(alloc, input, MOST_INPUT) {
        Ok(input) => Ok(Files { setup, input }),
        Err(fault) => Err(refused(fault, NamedFile::Input)),
    }
}
