//! How a client is received, and its origin dialed.

ghost use Rattle.std.specs.Prelude.{⊤, ◌≡◌, ◌+◌, ◌<◌, length, get_or};
ghost use Rattle.ts_serve.specs.declared.connection.Connection.TheVariants as Connection;
ghost use Rattle.ts_serve.specs.Arrivals.{Receives};
ghost use Rattle.ts_serve.specs.Balance.{HasAll, HasNoMore, row_after};
ghost use Rattle.ts_serve.specs.Notes.{KeepsBooks};
ghost use Rattle.ts_serve.specs.Whose.{first_of};

use crate::connection::{Connection, add_connection};
use crate::source::ClientSource;
use crate::tenant::Handler;
use crate::whose::Whose;
use ts_txn::{Accepted, Dialed};

/// Who came.
#[derive(Drop)]
pub enum Arrival<C, O> {
    /// A client, with its origin, if that was reached.
    Came { client: C, origin: Option<O> },
    /// No client is there yet.
    Nobody,
    /// None comes any more.
    Closed,
    Failed,
}

// Whose handler it is that a client of this number gets first, with an origin or without one.
fn first_of(number: u64, has_origin: bool) -> Whose
    ensures { result ≡ first_of number has_origin }
{
    Whose {
        number,
        place: 1,
        has_origin,
    }
}

/// Accepts the client of this number, if one is there, dials its origin, and gives it the place k, which is
/// free. The group of its handler is made with so many turns.
pub fn receive<N: ClientSource, W: Handler<N::Client, N::Origin>>(
    net: &mut N,
    row: &mut Vec<Connection>,
    k: u32,
    number: u64,
    made: u64,
) -> Arrival<N::Client, N::Origin>
    requires place { k < length row.old.items }
    requires free { get_or row.old.items k Connection.Free ≡ Connection.Free }
    requires number { number ≡ (N.seen net.old).given + 1 }
    ensures receives { Receives N.Client.Link N.Origin.Link N.Origin.Upstream.own
        number result (N.seen net.old) (N.seen net.new) }
    ensures row { row.new.items ≡ row_after k number made result row.old.items }
    ensures books { KeepsBooks N.tells W.is_done W.is_note (λ terms. ⊤) row.old.items (N.seen net.old)
        row.new.items (N.seen net.new) }
    ensures all { HasAll row.old.items (N.seen net.old) → HasAll row.new.items (N.seen net.new) }
    ensures no_more { HasNoMore row.old.items (N.seen net.old) → HasNoMore row.new.items (N.seen net.new) }
{
    let client = match net.accept() {
        Accepted::Client(client) => client,
        Accepted::Again => return Arrival::Nobody,
        Accepted::Closed => return Arrival::Closed,
        Accepted::Failed => return Arrival::Failed,
    };
    match net.dial() {
        Dialed::Origin(origin) => {
            add_connection(row, k, first_of(number, true), made);
            Arrival::Came {
                client,
                origin: Some(origin),
            }
        }
        Dialed::Failed => {
            add_connection(row, k, first_of(number, false), made);
            Arrival::Came {
                client,
                origin: None,
            }
        }
    }
}
