//! A configuration is printed, so that it reads back as the same lines.
ghost use Rattle.std.specs.Prelude.{◌≡◌, ◌∷◌, ◌++◌, flat_map, option_to_list, OnOk, IfOk};
ghost use Rattle.std.specs.Fmt.{decimal};
ghost use Rattle.ts_config.specs.Bytes.{space};
ghost use Rattle.ts_config.specs.Numerals.{byte_word};
ghost use Rattle.ts_config.specs.Printing.{needs_quotes, spelled, spelled_words, line_arguments, line_name, plugin_name, printed_line, printed_plugin, printed_request, kind_words, printed_intercept, printed_tap, printed};
ghost use Rattle.ts_config.specs.Reading.{IsConfiguration, ComeFromText};
ghost use Rattle.ts_config.specs.Rules.{plugin_words, rule_words};
ghost use Rattle.ts_config.specs.Setup.{lines_of, untexted_lines};

use crate::fields::{PluginLine, Rule};
use crate::numerals::hex_digit;
use crate::rules::side_word;
use crate::setup::{InterceptKind, InterceptLine, Setup, TransformLine};
use crate::table::PluginName;
use crate::words::is_end;
use std::alloc::Global;
use ts_link::{NoMemory, Octets};

// Whether a word stands between quotes: an empty one, and one with a blank or a `#`.
fn needs_quotes(word: &[u8]) -> bool
    ensures { result ≡ needs_quotes word.now }
{
    for byte in word {
        if is_end(*byte) {
            return true;
        }
    }
    word.is_empty()
}

// Prints a word behind one space.
fn print_word(out: &mut Vec<u8>, word: &[u8]) -> Result<(), NoMemory>
    ensures { OnOk result (out.new.items ≡ out.old.items ++ (space ∷ spelled word.now)) }
{
    out.push(b' ')?;
    if needs_quotes(word) {
        out.push(b'"')?;
        out.extend_from_slice(word)?;
        out.push(b'"')?;
    } else {
        out.extend_from_slice(word)?;
    }
    Ok(())
}

// Prints a byte behind one space: a letter or a digit as itself, and else by its number.
fn print_byte(out: &mut Vec<u8>, byte: u8) -> Result<(), NoMemory>
    ensures { OnOk result (out.new.items ≡ out.old.items ++ (space ∷ spelled (byte_word byte))) }
{
    if byte.is_ascii_alphanumeric() {
        print_word(out, &[byte])
    } else {
        print_word(
            out,
            &[b'0', b'x', hex_digit(byte / 16), hex_digit(byte % 16)],
        )
    }
}

fn line_name(line: &TransformLine) -> PluginName
    ensures { result ≡ line_name line.now }
{
    match line {
        TransformLine::Null => PluginName::Null,
        TransformLine::Append { .. } => PluginName::Append,
        TransformLine::Bnull => PluginName::Bnull,
        TransformLine::Prepend { .. } => PluginName::Prepend,
        TransformLine::Map { .. } => PluginName::Map,
        TransformLine::Drop { .. } => PluginName::Drop,
        TransformLine::Delay { .. } => PluginName::Delay,
        TransformLine::Limit { .. } => PluginName::Limit,
    }
}

// Prints the words behind the name of a line.
fn print_arguments(alloc: Global, out: &mut Vec<u8>, line: &TransformLine) -> Result<(), NoMemory>
    ensures { OnOk result (out.new.items ≡ out.old.items ++ spelled_words (line_arguments line.now)) }
{
    match line {
        TransformLine::Null => Ok(()),
        TransformLine::Append { file, .. } => print_word(out, file.bytes()),
        TransformLine::Bnull => Ok(()),
        TransformLine::Prepend { text } => print_word(out, text.bytes()),
        TransformLine::Map { from, to } => {
            print_byte(out, *from)?;
            print_byte(out, *to)
        }
        TransformLine::Drop { byte } => print_byte(out, *byte),
        TransformLine::Delay { ms } => {
            let number = ms.to_string(alloc)?;
            print_word(out, number.as_bytes())
        }
        TransformLine::Limit { most } => {
            let number = most.to_string(alloc)?;
            print_word(out, number.as_bytes())
        }
    }
}

fn print_line(alloc: Global, out: &mut Vec<u8>, line: &TransformLine) -> Result<(), NoMemory>
    ensures { OnOk result (out.new.items ≡ out.old.items ++ printed_line line.now) }
{
    out.extend_from_slice(line_name(line).spelling())?;
    print_arguments(alloc, out, line)?;
    out.push(b'\n')?;
    Ok(())
}

fn print_lines(alloc: Global, out: &mut Vec<u8>, lines: &[TransformLine]) -> Result<(), NoMemory>
    ensures { OnOk result (out.new.items ≡ out.old.items ++ flat_map printed_line lines.now) }
{
    for line in lines {
        print_line(alloc, out, line)?;
    }
    Ok(())
}

fn print_sites(out: &mut Vec<u8>, sites: &[Octets]) -> Result<(), NoMemory>
    ensures { OnOk result (out.new.items ≡ out.old.items ++ spelled_words sites.now) }
{
    for site in sites {
        print_word(out, site.bytes())?;
    }
    Ok(())
}

// Prints a rule: its action, the name, and the value where it has one.
fn print_rule(out: &mut Vec<u8>, rule: &Rule) -> Result<(), NoMemory>
    ensures { OnOk result (out.new.items ≡ out.old.items ++ spelled_words (rule_words rule.now)) }
{
    match rule {
        Rule::Set { name, value } => {
            print_word(out, b"set")?;
            print_word(out, name.as_bytes())?;
            print_word(out, value.as_bytes())
        }
        Rule::Add { name, value } => {
            print_word(out, b"add")?;
            print_word(out, name.as_bytes())?;
            print_word(out, value.as_bytes())
        }
        Rule::Remove { name } => {
            print_word(out, b"remove")?;
            print_word(out, name.as_bytes())
        }
    }
}

fn plugin_name(line: &PluginLine) -> PluginName
    ensures { result ≡ plugin_name line.now }
{
    match line {
        PluginLine::Deny { .. } => PluginName::Deny,
        PluginLine::Header { .. } => PluginName::Header,
        PluginLine::SessionHeader { .. } => PluginName::SessionHeader,
    }
}

// Prints the words behind the name of a hook plugin's line.
fn print_plugin_words(out: &mut Vec<u8>, line: &PluginLine) -> Result<(), NoMemory>
    ensures { OnOk result (out.new.items ≡ out.old.items ++ spelled_words (plugin_words line.now)) }
{
    match line {
        PluginLine::Deny { sites } => print_sites(out, sites.sites()),
        PluginLine::Header { side, rule } | PluginLine::SessionHeader { side, rule } => {
            print_word(out, side_word(*side))?;
            print_rule(out, rule)
        }
    }
}

fn print_plugin(out: &mut Vec<u8>, line: &PluginLine) -> Result<(), NoMemory>
    ensures { OnOk result (out.new.items ≡ out.old.items ++ printed_plugin line.now) }
{
    out.extend_from_slice(plugin_name(line).spelling())?;
    print_plugin_words(out, line)?;
    out.push(b'\n')?;
    Ok(())
}

fn print_plugins(out: &mut Vec<u8>, lines: &[PluginLine]) -> Result<(), NoMemory>
    ensures { OnOk result (out.new.items ≡ out.old.items ++ flat_map printed_plugin lines.now) }
{
    for line in lines {
        print_plugin(out, line)?;
    }
    Ok(())
}

// Prints a number behind one space.
fn print_number(alloc: Global, out: &mut Vec<u8>, number: u32) -> Result<(), NoMemory>
    ensures { OnOk result (out.new.items ≡ out.old.items ++ (space ∷ spelled (decimal number))) }
{
    let number = number.to_string(alloc)?;
    print_word(out, number.as_bytes())
}

fn print_request(alloc: Global, out: &mut Vec<u8>, line: &TransformLine) -> Result<(), NoMemory>
    ensures { OnOk result (out.new.items ≡ out.old.items ++ printed_request line.now) }
{
    out.extend_from_slice(PluginName::Request.spelling())?;
    print_word(out, line_name(line).spelling())?;
    print_arguments(alloc, out, line)?;
    out.push(b'\n')?;
    Ok(())
}

fn print_requests(alloc: Global, out: &mut Vec<u8>, lines: &[TransformLine]) -> Result<(), NoMemory>
    ensures { OnOk result (out.new.items ≡ out.old.items ++ flat_map printed_request lines.now) }
{
    for line in lines {
        print_request(alloc, out, line)?;
    }
    Ok(())
}

// Prints the words for what an intercept serves.
fn print_kind(alloc: Global, out: &mut Vec<u8>, kind: &InterceptKind) -> Result<(), NoMemory>
    ensures { OnOk result (out.new.items ≡ out.old.items ++ spelled_words (kind_words kind.now)) }
{
    match kind {
        InterceptKind::Echo => print_word(out, b"echo"),
        InterceptKind::Fill { n } => {
            print_word(out, b"fill")?;
            print_number(alloc, out, *n)
        }
        InterceptKind::File { file, .. } => {
            print_word(out, b"file")?;
            print_word(out, file.bytes())
        }
    }
}

fn print_intercept(alloc: Global, out: &mut Vec<u8>, line: &InterceptLine) -> Result<(), NoMemory>
    ensures { OnOk result (out.new.items ≡ out.old.items ++ printed_intercept line.now) }
{
    out.extend_from_slice(PluginName::Intercept.spelling())?;
    print_word(out, line.site.bytes())?;
    print_kind(alloc, out, &line.kind)?;
    out.push(b'\n')?;
    Ok(())
}

fn print_intercepts(
    alloc: Global,
    out: &mut Vec<u8>,
    lines: &[InterceptLine],
) -> Result<(), NoMemory>
    ensures { OnOk result (out.new.items ≡ out.old.items ++ flat_map printed_intercept lines.now) }
{
    for line in lines {
        print_intercept(alloc, out, line)?;
    }
    Ok(())
}

fn print_tap(alloc: Global, out: &mut Vec<u8>, tap: Option<u32>) -> Result<(), NoMemory>
    ensures { OnOk result (out.new.items ≡ out.old.items ++ flat_map printed_tap (option_to_list tap)) }
{
    let Some(most) = tap else {
        return Ok(());
    };
    out.extend_from_slice(PluginName::Tap.spelling())?;
    print_number(alloc, out, most)?;
    out.push(b'\n')?;
    Ok(())
}

/// A configuration of these lines, kind by kind: the transform lines, the request lines, the intercepts, the
/// hook plugins and the tap. The texts of files are left aside.
pub fn print_config(alloc: Global, setup: &Setup) -> Result<Octets, NoMemory>
    requires { ComeFromText (lines_of setup.now) }
    ensures text { IfOk result (λ o. o ≡ printed (lines_of setup.now)) }
    // It is read back as the same lines.
    ensures again { IfOk result (λ o. IsConfiguration o (untexted_lines (lines_of setup.now))) }
{
    let mut out = Vec::new(alloc);
    print_lines(alloc, &mut out, setup.transforms.as_slice())?;
    print_requests(alloc, &mut out, setup.requests.as_slice())?;
    print_intercepts(alloc, &mut out, setup.intercepts.as_slice())?;
    print_plugins(&mut out, setup.plugins.as_slice())?;
    print_tap(alloc, &mut out, setup.tap)?;
    Ok(Octets::of_vec(out))
}
