//! A link that keeps what it takes, where that is asked for, over one in memory.
ghost use Rattle.std.specs.Prelude.{◌≡◌, []};
ghost use Rattle.ts_link.specs.MemLink.{look_of};

use crate::carrying::giving;
use crate::rows::MEMORY;
use ts_layers::Kept;
use ts_link::{Got, Link, Put};
use ts_upstream::{Uploaded, Upstream};

// The calls are those of the link inside, which takes two bytes a write.
#[test]
fn what_a_link_takes_is_kept_where_that_is_asked_for(rt: HostRuntime) {
    for (keeps, bytes) in [(true, b"abc".as_slice()), (false, b"".as_slice())] {
        let mut link = Kept::make(rt.alloc(), giving(&rt, b"response", 4, 2), keeps);
        assert!(rt; link.write(b"abc") == Put::Took(2) && link.write(b"c") == Put::Took(1));
        assert!(rt; link.upload(&mut giving(&rt, b"", 1, 1)) == Uploaded::Done);
        assert!(rt; link.read(&mut [0u8; 8]) == Got::Bytes(4) && link.faults() == 0);
        assert!(rt; link.inner().written() == b"abc".as_slice());
        let (inner, kept) = link.into_parts();
        assert!(rt; inner.written() == b"abc".as_slice() && kept.as_slice() == bytes);
    }
}
