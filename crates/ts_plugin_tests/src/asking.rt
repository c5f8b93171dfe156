//! Lines, questions, and plugins that are asked: one, or those of a hook one after the other.

use http_header::{HeaderName, HeaderValue};
use std::alloc::Global;
use std::process::Abort;
use ts_config::{PluginLine, Rule, Side, Sites};
use ts_group::{Group, ONLY_SEAT};
use ts_hooks::{Hook, HookAnswer};
use ts_link::{NoMemory, Octets};
use ts_plugin::{HookQuestion, HookReply, Plugin, PluginFault, table_of};
use ts_wire::{Field, Fields, plugin_host};

/// What a test that wants memory says.
pub const MEMORY: &str = "ample memory";

// What a test says where a field is not to be read.
const FIELD: &str = "a name and a value of a field";

/// How many lines a row has at most.
pub const MOST_LINES: usize = 64;

/// What a header rule line does with a field.
#[derive(Clone, Copy)]
pub enum Word {
    Set,
    Add,
    Remove,
}

/// A header rule line: its side, its word, and the name and the value as they are written.
pub type Written = (Side, Word, &'static [u8], &'static [u8]);

/// A line `denylist.so` with these sites.
pub fn deny_line(alloc: Global, sites: &[&[u8]]) -> Result<PluginLine, NoMemory> {
    let mut listed = Vec::new(alloc);
    for site in sites {
        listed.push(Octets::copy_of(alloc, site)?)?;
    }
    Ok(PluginLine::Deny {
        sites: Sites::of_vec(listed),
    })
}

// The side and the rule of a line as it is written.
fn rule_of(rt: &(impl AllocGlobal + Abort), written: Written) -> (Side, Rule) {
    let (side, word, name, value) = written;
    let Field { name, value } = field(rt, name, value);
    let rule = match word {
        Word::Set => Rule::Set { name, value },
        Word::Add => Rule::Add { name, value },
        Word::Remove => Rule::Remove { name },
    };
    (side, rule)
}

// A field of this name and value.
fn field(rt: &(impl AllocGlobal + Abort), name: &[u8], value: &[u8]) -> Field {
    Field {
        name: HeaderName::from_bytes(rt.alloc(), name).expect(rt, FIELD),
        value: HeaderValue::from_bytes(rt.alloc(), value).expect(rt, FIELD),
    }
}

/// A line `header.so`.
pub fn header_line(rt: &(impl AllocGlobal + Abort), written: Written) -> PluginLine {
    let (side, rule) = rule_of(rt, written);
    PluginLine::Header { side, rule }
}

/// A line `session.so`.
pub fn session_line(rt: &(impl AllocGlobal + Abort), written: Written) -> PluginLine {
    let (side, rule) = rule_of(rt, written);
    PluginLine::SessionHeader { side, rule }
}

/// A question at a hook, for the host of a request as it was written, with no fields.
pub fn question_for(alloc: Global, hook: Hook, host: &[u8]) -> Result<HookQuestion, NoMemory> {
    Ok(HookQuestion {
        hook,
        host: plugin_host(alloc, host)?,
        fields: Fields::new(alloc),
    })
}

/// A question at a hook about these fields.
pub fn question_about(
    rt: &(impl AllocGlobal + Abort),
    hook: Hook,
    pairs: &[(&[u8], &[u8])],
) -> HookQuestion {
    let host = Octets::copy_of(rt.alloc(), b"a").expect(rt, MEMORY);
    let mut fields = Fields::new(rt.alloc());
    for (name, value) in pairs {
        fields.push(field(rt, name, value)).expect(rt, MEMORY);
    }
    HookQuestion { hook, host, fields }
}

/// The group of a plugin that was asked in its first turn, and its reply, but where memory lacked for it.
#[derive(Drop)]
pub struct Replied {
    pub group: Group<Plugin>,
    pub reply: Result<HookReply, NoMemory>,
}

/// The plugin of a line, which is made and asked at a moment in a group of its own.
pub fn ask_at(
    alloc: Global,
    line: &PluginLine,
    question: HookQuestion,
    moment: u64,
) -> Result<Replied, NoMemory> {
    let plugin = Plugin::make(alloc, line)?;
    let mut group = Group::make(alloc, plugin, 0)?;
    let Ok(()) = group.begin_turn(1, ONLY_SEAT, 0) else {
        let reply = Err(NoMemory);
        return Ok(Replied { group, reply });
    };
    match group.ask(question, moment) {
        Ok(reply) => {
            group.give_turn();
            let reply = Ok(reply);
            Ok(Replied { group, reply })
        }
        Err((refusal, _question)) => {
            let reply = Err(refusal);
            Ok(Replied { group, reply })
        }
    }
}

/// What the plugin of a line replies.
pub fn ask(
    alloc: Global,
    line: &PluginLine,
    question: HookQuestion,
) -> Result<HookReply, NoMemory> {
    let Replied { group: _, reply } = ask_at(alloc, line, question, 0)?;
    reply
}

/// What a reply says.
#[derive(Clone, Copy, Debug, PartialEq, Eq)]
pub enum Outcome {
    Refused,
    GoesOn { fields: usize },
    Lacks,
}

/// What this reply says.
pub fn outcome_of(reply: &HookReply) -> Outcome {
    match reply.answer {
        Ok(HookAnswer::Error) => Outcome::Refused,
        Ok(HookAnswer::Continue) => Outcome::GoesOn {
            fields: reply.fields.items().len(),
        },
        Err(PluginFault::NoMemory) => Outcome::Lacks,
    }
}

/// What the plugin of a line says.
pub fn asked_outcome(
    alloc: Global,
    line: &PluginLine,
    question: HookQuestion,
) -> Result<Outcome, NoMemory> {
    let reply = ask(alloc, line, question)?;
    Ok(outcome_of(&reply))
}

// The fields after the plugin of a header rule was asked.
fn ask_rule(
    rt: &(impl AllocGlobal + Abort),
    line: &PluginLine,
    hook: Hook,
    host: &[u8],
    fields: Fields,
) -> Fields {
    let host = Octets::copy_of(rt.alloc(), host).expect(rt, MEMORY);
    let reply = ask(rt.alloc(), line, HookQuestion { hook, host, fields }).expect(rt, MEMORY);
    match reply.answer {
        Ok(HookAnswer::Continue) => reply.fields,
        _ => panic!(rt; "a header rule lets go on"),
    }
}

// The places of the lines whose plugins a hook has, in their order.
fn places_at(rt: &(impl AllocGlobal + Abort), lines: &[PluginLine], hook: Hook) -> Vec<usize> {
    if lines.len() > MOST_LINES {
        panic!(rt; "a row has few lines")
    }
    let table = table_of(rt.alloc(), lines, 0).expect(rt, MEMORY);
    let mut places = Vec::new(rt.alloc());
    for place in 0..lines.len() {
        let Some(group) = table.next(hook, place) else {
            break;
        };
        places.push(group as usize).expect(rt, MEMORY);
    }
    places
}

/// The fields after the plugins of a hook were asked, in the order of their lines.
pub fn ask_in_turn(
    rt: &(impl AllocGlobal + Abort),
    lines: &[PluginLine],
    question: HookQuestion,
) -> Fields {
    let HookQuestion {
        hook,
        host,
        mut fields,
    } = question;
    let places = places_at(rt, lines, hook);
    for place in places.as_slice() {
        let Some(line) = lines.get(*place) else {
            panic!(rt; "a line stands there")
        };
        fields = ask_rule(rt, line, hook, host.bytes(), fields);
    }
    fields
}

/// The fields as a head has them, each with a line feed behind it.
pub fn text_of(rt: &(impl AllocGlobal + Abort), fields: &Fields) -> Octets {
    let mut text = Vec::new(rt.alloc());
    for field in fields.items() {
        for part in [field.name.as_bytes(), b": ", field.value.as_bytes(), b"\n"] {
            text.extend_from_slice(part).expect(rt, MEMORY);
        }
    }
    Octets::of_vec(text)
}
