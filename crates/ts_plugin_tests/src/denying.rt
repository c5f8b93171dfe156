//! Deny lists: which hosts they refuse, and at which hook.

use crate::asking::{MEMORY, Outcome, asked_outcome, deny_line, question_for};
use std::alloc::Global;
use ts_config::PluginLine;
use ts_hooks::Hook;
use ts_link::NoMemory;

const SITES: [&[u8]; 4] = [b"Example.COM", b"[::F]", b"b", b"10.0.0.1"];

// A host as a request has it, and whether it is refused at the lookup.
const HOSTS: [(&[u8], bool); 16] = [
    (b"example.com", true),
    (b"EXAMPLE.com", true),
    (b"example.com:8080", true),
    (b"www.example.com", false),
    (b"example.com.", false),
    (b"example.co", false),
    (b"[::f]", true),
    (b"[::F]:80", true),
    (b"[::e]:80", false),
    (b"::f", false),
    (b"B", true),
    (b"b:", true),
    (b"bb", false),
    (b"10.0.0.1:1", true),
    (b"10.0.0.10", false),
    (b"", false),
];

// The hooks beside the lookup.
const OTHERS: [Hook; 7] = [
    Hook::TxnStart,
    Hook::ReadRequestHdr,
    Hook::SendRequestHdr,
    Hook::ReadResponseHdr,
    Hook::ResponseTransform,
    Hook::SendResponseHdr,
    Hook::TxnClose,
];

// What a deny list of these sites says of a host at a hook.
fn said_of(alloc: Global, line: &PluginLine, hook: Hook, host: &[u8]) -> Result<Outcome, NoMemory> {
    let question = question_for(alloc, hook, host)?;
    asked_outcome(alloc, line, question)
}

#[test]
fn a_deny_list_refuses_its_sites_at_the_lookup_alone(rt: HostRuntime) {
    let line = deny_line(rt.alloc(), &SITES).expect(&rt, MEMORY);
    let goes_on = Outcome::GoesOn { fields: 0 };
    for (host, refused) in HOSTS {
        let wanted = if refused { Outcome::Refused } else { goes_on };
        let found = said_of(rt.alloc(), &line, Hook::OsDns, host);
        assert_eq!(rt; found, Ok(wanted), "host {host:?}");
    }
    for (place, hook) in OTHERS.iter().enumerate() {
        let found = said_of(rt.alloc(), &line, *hook, b"b");
        assert_eq!(rt; found, Ok(goes_on), "hook {place}");
    }
}
