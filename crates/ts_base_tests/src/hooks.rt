//! Each call of a hook table: the plugins of all transactions are asked first, then the session's, then those
//! of the transaction.
use crate::memory::MEMORY;
use ts_hooks::{Hook, HookTable};

#[test]
fn plugins_come_by_how_long_they_are_asked(rt: HostRuntime) {
    let mut table = HookTable::new(rt.alloc()).expect(&rt, MEMORY);
    table.add_txn(Hook::OsDns, 7).expect(&rt, MEMORY);
    table.add_session(Hook::OsDns, 6).expect(&rt, MEMORY);
    table.add_global(Hook::OsDns, 3).expect(&rt, MEMORY);
    table.add_global(Hook::OsDns, 5).expect(&rt, MEMORY);
    let rows = [
        (Hook::OsDns, 0, Some(3)),
        (Hook::OsDns, 1, Some(5)),
        (Hook::OsDns, 2, Some(6)),
        (Hook::OsDns, 3, Some(7)),
        (Hook::OsDns, 4, None),
        (Hook::TxnStart, 0, None),
    ];
    for (hook, place, plugin) in rows {
        assert!(rt; table.next(hook, place) == plugin);
    }
}
