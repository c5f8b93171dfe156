//! Plugins of which an allocation may be refused: each replies what its line says, or that memory lacked.

use crate::asking::{Outcome, asked_outcome, deny_line, question_for};
use http_header::{HeaderName, HeaderValue};
use std::alloc::Global;
use ts_config::{PluginLine, Rule, Side};
use ts_hooks::Hook;
use ts_link::NoMemory;
use ts_wire::Field;

// Which line is asked: a deny list of two sites, or a rule that sets a field behind another one.
#[derive(Clone, Copy)]
enum Line {
    Deny,
    Header,
}

// A field of this name.
fn field(name: HeaderName) -> Field {
    Field {
        name,
        value: HeaderValue::from_static("1"),
    }
}

// The reply of a deny list to a question for one of its sites.
fn ask_list(alloc: Global) -> Result<Outcome, NoMemory> {
    let line = deny_line(alloc, &[b"b", b"a"])?;
    let question = question_for(alloc, Hook::OsDns, b"A:1")?;
    asked_outcome(alloc, &line, question)
}

// The reply of a rule to a question about one other field.
fn ask_rule(alloc: Global) -> Result<Outcome, NoMemory> {
    let Field { name, value } = field(HeaderName::from_static("x-a"));
    let line = PluginLine::Header {
        side: Side::Request,
        rule: Rule::Set { name, value },
    };
    let mut question = question_for(alloc, Hook::SendRequestHdr, b"a")?;
    question.fields.push(field(HeaderName::from_static("x-b")))?;
    asked_outcome(alloc, &line, question)
}

fn ask_once(alloc: Global, line: Line) -> Result<Outcome, NoMemory> {
    match line {
        Line::Deny => ask_list(alloc),
        Line::Header => ask_rule(alloc),
    }
}

// What a plugin replies, and what it replies when it is made and asked again where memory lacked.
fn ask_again(alloc: Global, line: Line) -> Result<Outcome, NoMemory> {
    match ask_once(alloc, line) {
        Ok(Outcome::Lacks) => ask_once(alloc, line),
        Err(NoMemory) => ask_once(alloc, line),
        Ok(outcome) => Ok(outcome),
    }
}

// With ample memory each plugin replies. Run with each allocation refused in turn (`rt try --test
// --fail-alloc N`, N from 1 on), one of them says that memory lacked, or a call for it does, and replies when
// it is asked again.
#[test]
fn a_plugin_replies_or_says_that_memory_lacked(rt: HostRuntime) {
    let replies = [
        ask_again(rt.alloc(), Line::Deny),
        ask_again(rt.alloc(), Line::Header),
    ];
    assert_eq!(rt;
        replies,
        [Ok(Outcome::Refused), Ok(Outcome::GoesOn { fields: 2 })]
    );
}
