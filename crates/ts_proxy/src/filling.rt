//! The lines of a configuration get the texts of their files, in the order of its text.
ghost use Rattle.std.specs.Prelude.{◌≡◌, List, ℕ, Some, true, IfOk, IfErr, IsSomeAnd, OnOk};
ghost use Rattle.std.specs.Str.{IsUtf8};
ghost use Rattle.ts_config.specs.Setup.{ConfigLines, HasNamedFiles, file_at, lines_of};
ghost use Rattle.ts_proxy.specs.declared.answer.Answer.TheVariants as a;
ghost use Rattle.ts_proxy.specs.declared.answer.NamedFile.TheVariants as named;
ghost use Rattle.ts_proxy.specs.Outcome.{Outcome, most_append, opened, place_filled, lines_filled};
ghost use Rattle.ts_proxy.specs.Answers.{Leads, IsOfConfig, IsOfReading, IsUnfailed, KeepsLines};
ghost use Rattle.ts_proxy.specs.Answers.{IsNamedAt, OnCannotRead, ReachesFile};

use crate::answer::{Answer, NamedFile, refused};
use std::alloc::Global;
use std::str;
use ts_config::{FilePlace, Setup};
use ts_link::{Octets, Shelf};

const MOST_TEXT: u64 = 16_384;

// The text of a file that a line names.
fn read_text<S: Shelf>(alloc: Global, shelf: &mut S, file: Octets) -> Result<Octets, Answer>
    requires { IsUtf8 file }
    ensures told { S.tells ≡ true → (config input : List ℕ) (next : List ℕ → Outcome) →
        Leads config input result (opened ((S.seen shelf.old).file file) most_append file next) next }
    ensures named { IfErr result (λ e. OnCannotRead e (λ f. f ≡ named.Appended file)) }
    ensures files { S.tells ≡ true → (S.seen shelf.new).file ≡ (S.seen shelf.old).file }
    ensures same { OnOk result (IsUnfailed (S.seen shelf.old) (S.seen shelf.new)) }
    ensures cause { IfErr result (λ e. IsOfReading e (S.seen shelf.old) (S.seen shelf.new)) }
{
    let Ok(name) = str::from_utf8(file.bytes()) else {
        unreachable!();
    };
    match shelf.read(alloc, name, MOST_TEXT) {
        Ok(text) => Ok(text),
        Err(fault) => Err(refused(fault, NamedFile::Appended(file))),
    }
}

// The name of the file of the line at this place.
fn name_at(alloc: Global, setup: &Setup, place: FilePlace) -> Result<Octets, Answer>
    requires { IsSomeAnd (file_at (lines_of setup.now) place) IsUtf8 }
    ensures name { IfOk result (λ name. file_at (lines_of setup.now) place ≡ Some name) }
    ensures text { IfOk result IsUtf8 }
    ensures memory { IfErr result (λ e. e ≡ a.OutOfMemory) }
{
    let Some(file) = setup.file(place) else {
        unreachable!();
    };
    match Octets::copy_of(alloc, file.bytes()) {
        Ok(name) => Ok(name),
        Err(_) => Err(Answer::OutOfMemory),
    }
}

// Gives the line at this place the text of its file.
fn fill_one<S: Shelf>(
    alloc: Global,
    shelf: &mut S,
    setup: &mut Setup,
    place: FilePlace,
) -> Result<(), Answer>
    requires { IsSomeAnd (file_at (lines_of setup.old) place) IsUtf8 }
    ensures told { S.tells ≡ true → (config input : List ℕ) (next : ConfigLines → Outcome) →
        Leads config input result (place_filled (S.seen shelf.old).file place (lines_of setup.old) next)
        (λ done. next (lines_of setup.new)) }
    ensures named { IfErr result (λ e. OnCannotRead e (IsNamedAt (lines_of setup.old) place)) }
    ensures lines { OnOk result (KeepsLines setup.old setup.new) }
    ensures files { S.tells ≡ true → (S.seen shelf.new).file ≡ (S.seen shelf.old).file }
    ensures same { OnOk result (IsUnfailed (S.seen shelf.old) (S.seen shelf.new)) }
    ensures cause { IfErr result (λ e. IsOfReading e (S.seen shelf.old) (S.seen shelf.new)) }
{
    let name = match name_at(alloc, setup, place) {
        Ok(name) => name,
        Err(answer) => return Err(answer),
    };
    match read_text(alloc, shelf, name) {
        Ok(text) => {
            setup.fill_at(place, text);
            Ok(())
        }
        Err(answer) => Err(answer),
    }
}

/// The lines of a configuration with the texts of the files that they name, which are read in the order of
/// its text.
pub fn fill_setup<S: Shelf>(alloc: Global, shelf: &mut S, mut setup: Setup) -> Result<Setup, Answer>
    requires { HasNamedFiles setup }
    ensures told { S.tells ≡ true → (config input : List ℕ) (next : ConfigLines → Outcome) →
        Leads config input result
        (lines_filled (S.seen shelf.old).file setup.files.items (lines_of setup) next)
        (λ s. next (lines_of s)) }
    ensures named { S.tells ≡ true → IfErr result (λ e. OnCannotRead e
        (ReachesFile (S.seen shelf.old).file setup.files.items (lines_of setup))) }
    ensures of_line { IfErr result (λ e. OnCannotRead e IsOfConfig) }
    ensures lines { IfOk result (KeepsLines setup) }
    ensures files { S.tells ≡ true → (S.seen shelf.new).file ≡ (S.seen shelf.old).file }
    ensures same { OnOk result (IsUnfailed (S.seen shelf.old) (S.seen shelf.new)) }
    ensures cause { IfErr result (λ e. IsOfReading e (S.seen shelf.old) (S.seen shelf.new)) }
{
    let mut k = 0;
    while k < setup.files.len() {
        let place = setup.files[k];
        match fill_one(alloc, shelf, &mut setup, place) {
            Ok(()) => k += 1,
            Err(answer) => return Err(answer),
        }
    }
    Ok(setup)
}
