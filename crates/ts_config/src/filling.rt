//! The texts of files are put into the lines of a configuration, and its hook plugins into the order in which
//! they act.
ghost use Rattle.std.specs.Prelude.{◌≡◌, ◌++◌, ◌∷◌, [], OnOk, slice_get, IfOk, IsSome, IsSomeAnd};
ghost use Rattle.std.specs.Option.{option_map};
ghost use Rattle.ts_config.specs.Reading.{ComeFromText};
ghost use Rattle.ts_config.specs.Setup.{HasSameFiles, IsAppend, ServesFile, is_session, acting_plugins, in_order, file_at, file_of, file_served, lines_of, untexted_lines, with_file};
ghost use Rattle.ts_config.specs.declared.setup.FilePlace.TheVariants as p;

use crate::fields::PluginLine;
use crate::setup::{FilePlace, InterceptKind, InterceptLine, Setup, TransformLine};
use std::alloc::Global;
use std::collections::VecDeque;
use ts_link::{NoMemory, Octets};

// The name of the file of a transform line, if it has one.
fn file_of(line: &TransformLine) -> Option<&Octets>
    ensures { option_map (λ o. o.now) result ≡ file_of line.now }
{
    match line {
        TransformLine::Append { file, .. } => Some(file),
        _ => None,
    }
}

// The name of the file that an intercept serves, if it serves one.
fn file_served(kind: &InterceptKind) -> Option<&Octets>
    ensures { option_map (λ o. o.now) result ≡ file_served kind.now }
{
    match kind {
        InterceptKind::File { file, .. } => Some(file),
        _ => None,
    }
}

/// Whether the line is one of a session's plugins, which acts behind those of all transactions.
pub fn is_session(line: &PluginLine) -> bool
    ensures { result ≡ is_session line.now }
{
    match line {
        PluginLine::SessionHeader { .. } => true,
        _ => false,
    }
}

fn keep(lines: &mut Vec<PluginLine>, line: PluginLine) -> Result<(), NoMemory>
    ensures { OnOk result (lines.new.items ≡ lines.old.items ++ line ∷ []) }
{
    lines.push(line)?;
    Ok(())
}

// The lines of hook plugins in the order in which they act.
fn acting(
    alloc: Global,
    sessions: bool,
    mut lines: VecDeque<PluginLine>,
) -> Result<Vec<PluginLine>, NoMemory>
    ensures { IfOk result (λ found. found.items ≡ acting_plugins sessions lines.items) }
{
    let mut global = Vec::new(alloc);
    let mut session = Vec::new(alloc);
    while let Some(line) = lines.pop_front() {
        if is_session(&line) {
            keep(&mut session, line)?;
        } else {
            keep(&mut global, line)?;
        }
    }
    if sessions {
        global.append(&mut session)?;
    }
    Ok(global)
}

impl Setup {
    /// The name of the file of the line at this place, if it has one.
    pub fn file(&self, place: FilePlace) -> Option<&Octets>
        ensures { option_map (λ o. o.now) result ≡ file_at (lines_of self.now) place }
    {
        match place {
            FilePlace::Transform(k) => file_of(self.transforms.get(k)?),
            FilePlace::Request(k) => file_of(self.requests.get(k)?),
            FilePlace::Intercept(k) => {
                let line = self.intercepts.get(k)?;
                file_served(&line.kind)
            }
        }
    }

    /// Gives the append line at this place, counted from 0, the text of its file.
    pub fn fill(&mut self, line: usize, text: Octets)
        requires { IsSomeAnd (slice_get self.old.transforms.items line) IsAppend }
        ensures filled { lines_of self.new ≡ with_file (p.Transform line) text (lines_of self.old) }
        // But for the texts of the files the lines are the same.
        ensures lines { untexted_lines (lines_of self.new) ≡ untexted_lines (lines_of self.old) }
        ensures printable { ComeFromText (lines_of self.old) → ComeFromText (lines_of self.new) }
        ensures names { HasSameFiles (lines_of self.old) (lines_of self.new) }
        ensures places { self.new.files ≡ self.old.files }
    {
        match &mut self.transforms[line] {
            TransformLine::Append { text: held, .. } => *held = text,
            _ => unreachable!(),
        }
    }

    /// Gives the append line of request bodies at this place, counted from 0, the text of its file.
    pub fn fill_request(&mut self, line: usize, text: Octets)
        requires { IsSomeAnd (slice_get self.old.requests.items line) IsAppend }
        ensures filled { lines_of self.new ≡ with_file (p.Request line) text (lines_of self.old) }
        // But for the texts of the files the lines are the same.
        ensures lines { untexted_lines (lines_of self.new) ≡ untexted_lines (lines_of self.old) }
        ensures printable { ComeFromText (lines_of self.old) → ComeFromText (lines_of self.new) }
        ensures names { HasSameFiles (lines_of self.old) (lines_of self.new) }
        ensures places { self.new.files ≡ self.old.files }
    {
        match &mut self.requests[line] {
            TransformLine::Append { text: held, .. } => *held = text,
            _ => unreachable!(),
        }
    }

    /// Gives the intercept that serves a file, at this place, counted from 0, the text of its file.
    pub fn fill_intercept(&mut self, line: usize, text: Octets)
        requires { IsSomeAnd (slice_get self.old.intercepts.items line) ServesFile }
        ensures filled { lines_of self.new ≡ with_file (p.Intercept line) text (lines_of self.old) }
        // But for the texts of the files the lines are the same.
        ensures lines { untexted_lines (lines_of self.new) ≡ untexted_lines (lines_of self.old) }
        ensures printable { ComeFromText (lines_of self.old) → ComeFromText (lines_of self.new) }
        ensures names { HasSameFiles (lines_of self.old) (lines_of self.new) }
        ensures places { self.new.files ≡ self.old.files }
    {
        match &mut self.intercepts[line].kind {
            InterceptKind::File { text: held, .. } => *held = text,
            _ => unreachable!(),
        }
    }

    /// Gives the line at this place, which has a file, the text of its file.
    pub fn fill_at(&mut self, place: FilePlace, text: Octets)
        requires { IsSome (file_at (lines_of self.old) place) }
        ensures filled { lines_of self.new ≡ with_file place text (lines_of self.old) }
        // But for the texts of the files the lines are the same.
        ensures lines { untexted_lines (lines_of self.new) ≡ untexted_lines (lines_of self.old) }
        ensures printable { ComeFromText (lines_of self.old) → ComeFromText (lines_of self.new) }
        ensures names { HasSameFiles (lines_of self.old) (lines_of self.new) }
        ensures places { self.new.files ≡ self.old.files }
    {
        match place {
            FilePlace::Transform(line) => self.fill(line, text),
            FilePlace::Request(line) => self.fill_request(line, text),
            FilePlace::Intercept(line) => self.fill_intercept(line, text),
        }
    }

    /// The lines, with those of hook plugins in the order in which they act: the global ones in their order,
    /// and then, with sessions, those of the session in theirs. Without sessions these are left out.
    pub fn ordered(self, alloc: Global, sessions: bool) -> Result<Setup, NoMemory>
        ensures lines { IfOk result (λ s. lines_of s ≡ in_order sessions (lines_of self)) }
        ensures places { IfOk result (λ s. s.files ≡ self.files) }
    {
        let Setup {
            transforms,
            requests,
            intercepts,
            plugins,
            tap,
            files,
        } = self;
        let plugins = acting(alloc, sessions, VecDeque::from_vec(plugins))?;
        Ok(Setup {
            transforms,
            requests,
            intercepts,
            plugins,
            tap,
            files,
        })
    }
}
