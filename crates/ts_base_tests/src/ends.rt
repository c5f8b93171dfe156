//! What is pulled, pushed and counted at one end of a connection, and one link copied to another.
ghost use Rattle.std.specs.Prelude.{◌≡◌, []};
ghost use Rattle.ts_link.specs.MemLink.{look_of};

mod copying;
mod deaf;
mod still;

use self::copying::{Copying, End, copy, pair};
use self::deaf::DeafLink;
use self::still::StillWorld;
use crate::memory::{MEMORY, PLAIN, Plan, link};
use std::process::Abort;
use ts_group::Group;
use ts_iobuf::{IoBuffer, ReaderId, Waiting};
use ts_journal::ContKey;
use ts_link::{Link, MemLink};
use ts_vconn::{Pulled, Pushed, VConn, pull, pull_waiting, push, push_waiting};

// A link that gives these bytes, one at first and then the rest, of which the second read waits and the
// fourth fails; and takes two bytes a write, of which the first waits and the third fails.
fn uneven(rt: &(impl AllocGlobal + Abort), bytes: &[u8]) -> MemLink {
    link(
        rt,
        Plan {
            bytes,
            cuts: &[1],
            most: 2,
            fail_reads: &[4],
            fail_writes: &[3],
            again_reads: &[2],
            again_writes: &[1],
        },
    )
}

#[test]
fn a_link_is_pulled_and_pushed(rt: HostRuntime) {
    let mut ends = uneven(&rt, b"abcd");
    let mut buffer = IoBuffer::new(rt.alloc()).expect(&rt, MEMORY);
    let reader = buffer.reader().expect(&rt, MEMORY);
    let rows = [
        Pulled::Some(1),
        Pulled::Again,
        Pulled::Some(2),
        Pulled::Failed,
        Pulled::Some(1),
        Pulled::End,
    ];
    for answer in rows {
        let pulled = pull(&mut ends, &mut buffer, 2).expect(&rt, MEMORY);
        assert!(rt; pulled == answer);
    }
    assert!(rt; buffer.is_reader(reader));
    let waiting = buffer.avail(reader);
    let first = push(&mut buffer, reader, &mut ends);
    assert!(rt; buffer.is_reader(reader));
    let second = push(&mut buffer, reader, &mut ends);
    assert!(rt; (waiting, first, second) == (4, Pushed::Again, Pushed::Some(2)));
    let counts = (ends.faults(), ends.waits());
    assert!(rt; ends.written() == b"ab".as_slice() && counts == (1, 2));
}

#[test]
fn bytes_wait_between_two_links(rt: HostRuntime) {
    let mut ends = uneven(&rt, b"abc");
    let mut waiting = Waiting::new(rt.alloc()).expect(&rt, MEMORY);
    for answer in [Pulled::Some(1), Pulled::Again, Pulled::Some(2)] {
        let pulled = pull_waiting(&mut ends, &mut waiting, 32_768).expect(&rt, MEMORY);
        assert!(rt; pulled == answer);
    }
    let rows = [
        Pushed::Again,
        Pushed::Some(2),
        Pushed::Failed,
        Pushed::Some(1),
        Pushed::Nothing,
    ];
    for answer in rows {
        assert!(rt; push_waiting(&mut waiting, &mut ends) == answer);
    }
    assert!(rt; ends.written() == b"abc".as_slice());
}

const KEY: ContKey = ContKey {
    index: 0,
    generation: 1,
};

const READER: ReaderId = ReaderId {
    index: 0,
    generation: 1,
};

#[test]
fn a_connection_counts_what_it_moves(rt: HostRuntime) {
    let mut connection = VConn::make(KEY, 10, READER);
    connection.vio().advance(4);
    let before = connection.vio().ntodo();
    connection.shutdown();
    let after = connection.vio().ntodo();
    let vio = *connection.vio();
    let shut = connection.closed();
    connection.close();
    let mut other = VConn::make(KEY, 0, READER);
    other.abort();
    assert!(rt; (before, after, vio.nbytes, vio.ndone) == (6, 0, 4, 4));
    let closed = [shut, connection.closed(), other.closed()];
    assert!(rt; closed == [false, true, true]);
}

// The event is due at the moment of the turn.
#[test]
fn a_vio_is_reenabled(rt: HostRuntime) {
    let mut group = Group::make(rt.alloc(), StillWorld, 0).expect(&rt, MEMORY);
    group.begin_turn(1, 0, 7).expect(&rt, MEMORY);
    let key = group.cx().make(1).expect(&rt, MEMORY);
    let mut connection = VConn::make(key, 3, READER);
    let vio = *connection.vio();
    let action = vio.reenable(group.cx()).expect(&rt, MEMORY);
    let due = group.next_due();
    group.give_turn();
    assert!(rt; (action.series, due) == (1, Some((7, 1))));
}

// A link that gives these bytes in pieces of 1 and 2, and the rest, and takes three a write.
fn sure(rt: &(impl AllocGlobal + Abort), bytes: &[u8]) -> MemLink
    ensures { ((look_of result).given ≡ []) × ((look_of result).taken ≡ []) }
{
    link(
        rt,
        Plan {
            bytes,
            cuts: &[1, 2],
            most: 3,
            ..PLAIN
        },
    )
}

#[test]
fn a_link_is_copied_to_its_end(rt: HostRuntime) {
    let waiting = Waiting::new(rt.alloc()).expect(&rt, MEMORY);
    let mut heard = pair(sure(&rt, b"abcdef"), DeafLink::new(), waiting);
    let end = copy(&mut heard, 9);
    assert!(rt; (end, heard.output.taken) == (End::Whole, 6));
    let waiting = Waiting::new(rt.alloc()).expect(&rt, MEMORY);
    let mut cut_off = pair(sure(&rt, b"abcdef"), DeafLink::new(), waiting);
    assert!(rt; copy(&mut cut_off, 2) == End::Turns);
}

#[test]
fn a_link_is_copied_to_one_in_memory(rt: HostRuntime) {
    let waiting = Waiting::new(rt.alloc()).expect(&rt, MEMORY);
    let mut told = pair(sure(&rt, b"abcdefghij"), sure(&rt, b""), waiting);
    let end = copy(&mut told, 9);
    assert!(rt; end == End::Whole && told.output.written() == b"abcdefghij".as_slice());
}
