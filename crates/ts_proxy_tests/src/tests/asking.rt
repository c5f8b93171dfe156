//! How hook plugins are asked: once at their hooks, and again where they were missed; and the journals of
//! their groups.

use crate::command::{MEMORY, ON_1, ON_2, ON_8, replayed};
use crate::comparison::{Comparison, compare, done};
use crate::moments::{handled_in, waits_of};
use crate::recording::{at_once, recording_of};
use crate::report::{Stated, StatedEnd, report_of};
use crate::stated::{ABC, GET, HOSTLESS, SIZED};
use std::alloc::Global;
use std::process::Abort;
use std::sync::Wait;
use std::thread::Threads;
use ts_journal::Journal;
use ts_link::NoMemory;

// The most transactions of a recording.
const MOST_TXNS: usize = 4_000;

// How many events each of three plugins has handled, behind four transactions; none where the command failed,
// or other journals are left.
fn questions_of<R: Abort + AllocGlobal + Threads + Wait + Sync>(
    rt: &R,
    words: &[&str],
    config: &[u8],
    recording: &[u8],
) -> [u64; 3] {
    let left = replayed(rt, words, config, recording);
    match left.journals.as_slice() {
        [_, _, _, _, one, two, three] => [
            one.counts().handled,
            two.counts().handled,
            three.counts().handled,
        ],
        _ => [0, 0, 0],
    }
}

// The journals of the plugins stand behind those of the transactions, in the order of the lines. Each plugin
// handled an event for each question: the rule of responses was asked of the denied request and of the one
// that cannot be read too, the deny list of those that can be read, and the rule of requests of the one that
// was passed on. For a client that gives nothing nobody is asked.
#[test]
fn journals_of_plugins(rt: HostRuntime) {
    let config = b"header.so response remove x\ndenylist.so b\nheader.so request remove x";
    let exchanges = [
        at_once(GET, ABC),
        at_once(b"GET / HTTP/1.1\r\nHost: b\r\n\r\n", ABC),
        at_once(HOSTLESS, ABC),
        at_once(b"", ABC),
    ];
    let recording = recording_of(rt.alloc(), &exchanges).expect(&rt, MEMORY);
    for words in [ON_1, ON_2, ON_8] {
        let questions = questions_of(&rt, words, config, recording.as_slice());
        assert_eq!(rt; questions, [3, 2, 1], "at {words:?}");
    }
}

// What came of transactions that all ask one plugin.
#[derive(Clone, Copy)]
struct Tally {
    txns: usize,
    /// How many events the transactions handled.
    handled: u64,
    /// How many of these still have an entry. A journal with 4,096 entries is folded, so one that waited a
    /// thousand times has lost its first ones.
    stored: u64,
    /// How often one of them waited, as far as that has an entry.
    waits: u64,
    /// How many questions the plugin answered.
    questions: u64,
}

// What came of the transactions with these journals, behind which that of their plugin stands.
fn tally_of(journals: &[Journal]) -> Option<Tally> {
    let [txns @ .., plugin] = journals else {
        return None;
    };
    let mut tally = Tally {
        txns: txns.len(),
        handled: 0,
        stored: 0,
        waits: 0,
        questions: plugin.counts().handled,
    };
    for txn in txns {
        tally.handled = tally.handled.wrapping_add(txn.counts().handled);
        tally.stored = tally.stored.wrapping_add(handled_in(txn.entries()));
        tally.waits = tally.waits.wrapping_add(waits_of(txn.entries()));
    }
    Some(tally)
}

// A deny list of 64 sites that begin with this text, and end with a letter more.
fn near_sites(alloc: Global, front: &[u8]) -> Result<Vec<u8>, NoMemory> {
    let mut config = Vec::from_slice(alloc, b"denylist.so")?;
    for _ in 0..64 {
        config.push(b' ')?;
        config.extend_from_slice(front)?;
        config.push(b'b')?;
    }
    Ok(config)
}

// A request for a page of a host that begins with the same text, and ends with another letter.
fn near_request(alloc: Global, front: &[u8]) -> Result<Vec<u8>, NoMemory> {
    let mut request = Vec::from_slice(alloc, b"GET / HTTP/1.1\r\nHost: ")?;
    request.extend_from_slice(front)?;
    request.extend_from_slice(b"a\r\n\r\n")?;
    Ok(request)
}

// Such a crowd: the configuration, the recording of as many transactions as there may be, and the report.
#[derive(Drop)]
struct Crowd {
    config: Vec<u8>,
    recording: Vec<u8>,
    report: Vec<u8>,
}

// What the origin gets of such a request.
fn near_sent(alloc: Global, front: &[u8]) -> Result<Vec<u8>, NoMemory> {
    let mut request = Vec::from_slice(alloc, b"GET / HTTP/1.1\r\nhost: ")?;
    request.extend_from_slice(front)?;
    request.extend_from_slice(b"a\r\nvia: 1.1 tsx\r\nconnection: close\r\n\r\n")?;
    Ok(request)
}

// The recording of as many such requests as there may be.
fn near_recording(alloc: Global, front: &[u8]) -> Result<Vec<u8>, NoMemory> {
    let request = near_request(alloc, front)?;
    let exchanges = vec![in alloc; at_once(request.as_slice(), ABC); MOST_TXNS]?;
    recording_of(alloc, exchanges.as_slice())
}

// The report on it.
fn near_report(alloc: Global, front: &[u8]) -> Result<Vec<u8>, NoMemory> {
    let request = near_sent(alloc, front)?;
    let stated = Stated {
        request: request.as_slice(),
        head: SIZED,
        came: StatedEnd::Whole(b"abc"),
    };
    let all = vec![in alloc; stated; MOST_TXNS]?;
    report_of(alloc, all.as_slice())
}

fn make_crowd(alloc: Global) -> Result<Crowd, NoMemory> {
    let front = b"aaaaaaaaaaaaaaaaaaa";
    Ok(Crowd {
        config: near_sites(alloc, front)?,
        recording: near_recording(alloc, front)?,
        report: near_report(alloc, front)?,
    })
}

// What came of a crowd on some threads, if it left its report.
fn came_of<R: Abort + AllocGlobal + Threads + Wait + Sync>(
    rt: &R,
    words: &[&str],
    crowd: &Crowd,
) -> Option<Tally> {
    let config = crowd.config.as_slice();
    let left = replayed(rt, words, config, crowd.recording.as_slice());
    let wanted = done(crowd.report.as_slice(), MOST_TXNS + 1);
    if compare(&left, &wanted) != Comparison::AsStated {
        return None;
    }
    tally_of(left.journals.as_slice())
}

// Whether each transaction has asked once, and has waited as often as it has handled events more than
// without a miss; where entries were folded, no more often is told.
fn is_counted(busy: &Tally, calm: &Tally) -> bool {
    let more = busy.handled.wrapping_sub(calm.handled);
    let is_whole = busy.txns == MOST_TXNS && busy.questions == MOST_TXNS as u64;
    let is_stored = busy.stored == busy.handled;
    is_whole
        && busy.handled >= calm.handled
        && busy.waits <= more
        && (busy.waits == more || !is_stored)
}

// Why a crowd has no tally.
const UNLIKE: &str = "it left another report";

// How often as many transactions as there may be are run, until one of them misses its plugin.
const MOST_RUNS: usize = 20;

// Each of as many transactions as there may be asks one deny list, whose sites are nearly the host.
// On 8 threads some find its group held: the transaction waits then, and asks again by an event more. The
// plugin answers each transaction once, and the report is the same. That a miss is seen takes two processors
// at least: on one of them a thread hardly ever stops within a turn.
#[test]
fn a_plugin_that_is_missed(rt: HostRuntime) {
    let crowd = make_crowd(rt.alloc()).expect(&rt, MEMORY);
    let calm = came_of(&rt, ON_1, &crowd).expect(&rt, UNLIKE);
    let two = came_of(&rt, ON_2, &crowd).expect(&rt, UNLIKE);
    assert_eq!(rt; (calm.waits, two.txns), (0, MOST_TXNS));
    let mut missed = false;
    for _ in 0..MOST_RUNS {
        let busy = came_of(&rt, ON_8, &crowd).expect(&rt, UNLIKE);
        assert!(rt; is_counted(&busy, &calm));
        if busy.handled > calm.handled {
            missed = true;
            break;
        }
    }
    assert!(rt; missed, "no plugin was missed");
}
