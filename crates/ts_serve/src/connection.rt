//! What the acceptor keeps of a place.

ghost use Rattle.std.specs.Prelude.{◌≡◌, ◌<◌, false, get_or, length, set};
ghost use Rattle.ts_serve.specs.declared.connection.Connection.TheVariants as connection;
ghost use Rattle.ts_serve.specs.Balance.{IsSameRow};
ghost use Rattle.ts_serve.specs.Starting.{OthersStay, is_waiting};

use crate::whose::Whose;

/// What the acceptor keeps of a place: that it is free, or the client that was accepted into it.
#[derive(Clone, Copy, Debug, PartialEq, Eq, Drop)]
pub enum Connection {
    Free,
    Accepted {
        whose: Whose,
        /// Its handler was started.
        started: bool,
        /// With how many turns the group of its handler was made.
        made: u64,
    },
}

/// Gives the place k to a client, whose handler is in a group that was made with so many turns, and was not
/// started.
pub fn add_connection(row: &mut Vec<Connection>, k: u32, whose: Whose, made: u64)
    requires { k < length row.old.items }
    ensures { row.new.items ≡ set row.old.items k (connection.Accepted whose false made) }
{
    row[k as usize] = Connection::Accepted {
        whose,
        started: false,
        made,
    };
}

/// The handler in the place k, if there is one, was started.
pub fn mark_started(row: &mut Vec<Connection>, k: u32)
    requires { k < length row.old.items }
    ensures clients { IsSameRow row.old.items row.new.items }
    ensures others { OthersStay k row.old.items row.new.items }
    ensures marked { is_waiting (get_or row.new.items k connection.Free) ≡ 0 }
{
    if let Connection::Accepted { whose, made, .. } = row[k as usize] {
        row[k as usize] = Connection::Accepted {
            whose,
            started: true,
            made,
        };
    }
}
