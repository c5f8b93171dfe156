//! What the words after `serve` ask for: where clients connect, the origin, the configuration, the number of
//! threads, after how many connections to end, and whether a connection carries several requests.
ghost use Rattle.std.specs.Prelude.{◌≡◌, ◌<◌, ℕ, false, map, option_map, string_bytes, IfOk, IfSome, Some};
ghost use Rattle.clap.specs.Words.{app_of, first_value, found_of, rule_of, rows_of};
ghost use Rattle.ts_words.specs.Found.{HoldsNumber, HoldsText, IsFound, IsUpTo, u32_numbers};
ghost use Rattle.ts_words.specs.Serve.{IsInRange, flag_in, flag_option, number_in, number_option, serve_app};
ghost use Rattle.ts_words.specs.Serve.{serve_asked, text_option, words_in, words_of};

use clap::builder::ValueParser;
use clap::error::ErrorKind;
use clap::{Arg, ArgAction, ArgMatches, Command};
use std::alloc::{AllocError, Global};
use ts_link::NoMemory;
use ts_thread::MOST_THREADS;

// The most connections that may be asked for.
const MOST_CONNECTIONS: u32 = 4_294_967_295;

/// How `serve` is asked for, with its configuration by name.
#[derive(Clone, Copy)]
pub struct ServeTask<'a> {
    /// Where clients connect.
    pub listen: &'a str,
    /// The address of the origin.
    pub origin: &'a str,
    /// The name of the configuration.
    pub config: &'a str,
    /// On how many event threads.
    pub threads: u32,
    /// After how many connections it ends.
    pub connections: u32,
    /// Whether a connection carries several requests, one after the other.
    pub sessions: bool,
}

// An option with a text, which has to be there.
fn text_option<'a>(alloc: Global, name: &'a str) -> Arg<'a>
    ensures rule { rule_of result ≡ text_option name.entry.now }
    ensures local { result.global ≡ false }
{
    Arg::new(alloc, name)
        .long(name)
        .action(ArgAction::Set)
        .required(true)
}

// An option with a number from 1 to `most`, which is that of `other` where it is left out.
fn number_option<'a>(alloc: Global, name: &'a str, other: &'a str, most: u32) -> Arg<'a>
    ensures rule { rule_of result ≡ number_option name.entry.now other.entry.now most }
    ensures local { result.global ≡ false }
{
    Arg::new(alloc, name)
        .long(name)
        .action(ArgAction::Set)
        .default_value(other)
        .value_parser(ValueParser::signed(1, i64::from(most)))
}

// An option without a value, which may be there.
fn flag_option<'a>(alloc: Global, name: &'a str) -> Arg<'a>
    ensures rule { rule_of result ≡ flag_option name.entry.now }
    ensures local { result.global ≡ false }
{
    Arg::new(alloc, name).long(name).action(ArgAction::SetTrue)
}

// The command that reads the words.
fn serve_command<'a>(alloc: Global) -> Result<Command<'a>, AllocError>
    ensures { IfOk result (λ c. app_of c ≡ serve_app) }
{
    let listen = text_option(alloc, "listen");
    let origin = text_option(alloc, "origin");
    let config = text_option(alloc, "config");
    let threads = number_option(alloc, "threads", "1", MOST_THREADS);
    let connections = number_option(alloc, "connections", "4294967295", MOST_CONNECTIONS);
    let sessions = flag_option(alloc, "sessions");
    let plain = Command::new(alloc, "serve")
        .no_binary_name(true)
        .disable_help_flag(true)
        .disable_version_flag(true);
    let with_listen = plain.arg(listen)?;
    let with_origin = with_listen.arg(origin)?;
    let with_config = with_origin.arg(config)?;
    let with_threads = with_config.arg(threads)?;
    let with_connections = with_threads.arg(connections)?;
    let with_sessions = with_connections.arg(sessions)?;
    Ok(with_sessions)
}

// The text of an option, which a parse of the command found.
fn text_in<'a>(matches: &ArgMatches<'a>, name: &str) -> &'a str
    requires { HoldsText (found_of matches.now) name.now }
    ensures { Some result.now ≡ first_value (found_of matches.now) name.now }
{
    let Some(text) = matches.get_str(name) else {
        unreachable!();
    };
    text
}

// The number of an option, which a parse of the command found.
fn number_in(matches: &ArgMatches<'_>, name: &str) -> u32
    requires { (most : ℕ) × (most < u32_numbers) × HoldsNumber (found_of matches.now) name.now most }
    ensures value { result ≡ number_in (rows_of (found_of matches.now)) name.now }
    ensures range { (most : ℕ) → most < u32_numbers → HoldsNumber (found_of matches.now) name.now most
        → IsUpTo most result }
{
    let Some(number) = matches.get_one::<u32>(name) else {
        unreachable!();
    };
    number
}

// Whether a parse of the command found an option without a value: it is true or false then.
fn flag_in(matches: &ArgMatches<'_>, name: &str) -> bool
    ensures { result ≡ flag_in (rows_of (found_of matches.now)) name.now }
{
    match matches.get_str(name) {
        Some(text) => text == "true",
        None => false,
    }
}

// What is asked for by words of which a parse of the command found this.
fn task_of<'a>(matches: &ArgMatches<'a>) -> ServeTask<'a>
    requires { IsFound (found_of matches.now) }
    ensures words { words_of result ≡ words_in (rows_of (found_of matches.now)) }
    ensures range { IsInRange (words_of result) }
{
    ServeTask {
        listen: text_in(matches, "listen"),
        origin: text_in(matches, "origin"),
        config: text_in(matches, "config"),
        threads: number_in(matches, "threads"),
        connections: number_in(matches, "connections"),
        sessions: flag_in(matches, "sessions"),
    }
}

/// What the words after `serve` ask for, or nothing where `clap` refuses them.
pub fn serve_task<'a>(alloc: Global, words: &'a [String]) -> Result<Option<ServeTask<'a>>, NoMemory>
    ensures asked { IfOk result (λ task.
        option_map words_of task ≡ serve_asked (map string_bytes words.entry.now)) }
    ensures range { IfOk result (λ task. IfSome task (λ t. IsInRange (words_of t))) }
{
    let command = serve_command(alloc)?;
    match command.try_get_matches_from(words) {
        Ok(matches) => Ok(Some(task_of(&matches))),
        Err(error) => match error.kind() {
            ErrorKind::OutOfMemory => Err(NoMemory),
            _ => Ok(None),
        },
    }
}
