//! Nets that are served with hook plugins beside the places.

use crate::server::row::{Row, all_come, check};
use ts_mem_nets::links::at_once;
use ts_mem_nets::stated::FORBIDDEN;
use ts_mem_nets::visit::{Visit, page};

// A request for a host that is not denied, and what the origin gets of it.
const OTHER: &[u8] = b"GET / HTTP/1.1\r\nHost: b\r\n\r\n";

const OTHER_SENT: &[u8] =
    b"GET / HTTP/1.1\r\nhost: b\r\nx-a: 1\r\nvia: 1.1 tsx\r\nconnection: close\r\n\r\n";

// Each transaction asks the deny list, and that of a host that is not denied the rule behind it.
#[test]
fn transactions_ask_the_plugins_beside_them(rt: HostRuntime) {
    let denied = Visit {
        sent: b"",
        taken: FORBIDDEN,
        ..page()
    };
    let ruled = Visit {
        client: at_once(OTHER),
        sent: OTHER_SENT,
        ..page()
    };
    let visits = [denied, ruled, denied, ruled, ruled];
    let row = Row {
        lines: b"denylist.so a\nheader.so request set x-a 1\n",
        ..all_come(&visits)
    };
    check(&rt, &row);
}
