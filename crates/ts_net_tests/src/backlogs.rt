//! When clients are asked for.
use ts_net::Backlog;

// What is known at 50 of clients that the system tells of, or does not, where a wait was told of none, and
// then none was there.
fn empty(is_watched: bool) -> Backlog {
    Backlog::new(is_watched).once_waited(false).once_empty(50)
}

// Where none was there, another is asked for at once only where no wait is told of it.
#[test]
fn clients_are_asked_for_where_one_may_be_there(rt: HostRuntime) {
    let rows = [
        (Backlog::new(true), 50, true),
        (Backlog::new(true).once_empty(50), 50, true),
        (
            Backlog::new(true).once_empty(50).once_waited(false),
            50,
            true,
        ),
        (Backlog::new(false), 50, true),
        (empty(true), 50, false),
        (empty(true), 59, false),
        (empty(true), 60, true),
        // By a clock that went back.
        (empty(true), 49, true),
        (empty(true).once_waited(false), 59, false),
        (empty(true).once_waited(true), 50, true),
        (empty(true).once_waited(true).once_empty(55), 60, false),
        (empty(true).once_empty(55), 64, false),
        (empty(false), 50, true),
        (empty(false).once_waited(true), 50, true),
    ];
    for (place, (backlog, moment, asks)) in rows.iter().enumerate() {
        assert_eq!(rt; backlog.asks(*moment), *asks, "row {place}");
    }
}
