//! The pairs of links that a net in memory has to give, in their order.
ghost use Rattle.std.specs.Prelude.{◌≡◌, None};
ghost use Rattle.std.specs.List.{All};
ghost use Rattle.ts_link.specs.MemLink.{look_of};
ghost use Rattle.ts_txn.specs.Making.{IsNewLink, IsNewLinkIf};
ghost use Rattle.ts_txn.specs.PairStock.{GivesNext, IsNewPair, TakesFront, after_next, after_origin};
ghost use Rattle.ts_txn.specs.PairStock.{full_stock, next_client, next_origin, one_client, with_first};

use std::alloc::Global;
use std::collections::VecDeque;
use std::marker::Model;
use ts_link::MemLink;

/// The pairs of a client and, if it is reached, its origin that are still to be given. The origin of the
/// client that was given last is kept until it is taken.
#[derive(Drop)]
pub struct PairStock {
    // The client that comes before those of the pairs, if it was not given.
    first: Option<MemLink>,
    ahead: VecDeque<(MemLink, Option<MemLink>)>,
    origin: Option<MemLink>,
    // What the dials give that find no such origin.
    later: VecDeque<Option<MemLink>>,
    given: u64,
}

impl Model for PairStock {
    ghost use Rattle.ts_txn.specs.PairStock.{Stock};

    ghost Value = { Stock };

    ghost use Rattle.ts_txn.specs.PairStock.{IsSoundStock, with_first};

    ghost view = { λ s. record {
      ahead = with_first s.first s.ahead.items;
      origin = s.origin;
      later = s.later.items;
      given = s.given;
    } };

    ghost invariant = { λ s. IsSoundStock (with_first s.first s.ahead.items) s.origin s.later.items s.given };
}

impl PairStock {
    /// All of these pairs, in their order.
    pub fn make(alloc: Global, pairs: Vec<(MemLink, Option<MemLink>)>) -> PairStock
        requires { All IsNewPair pairs.items }
        ensures { result ≡ full_stock pairs.items }
    {
        let _count: usize = pairs.len();
        PairStock {
            first: None,
            ahead: VecDeque::from_vec(pairs),
            origin: None,
            later: VecDeque::new(alloc),
            given: 0,
        }
    }

    /// One client, whose dials give these origins in their order.
    pub fn of_client(alloc: Global, client: MemLink, origins: Vec<Option<MemLink>>) -> PairStock
        requires client { IsNewLink (look_of client) }
        requires origins { All (IsNewLinkIf look_of) origins.items }
        ensures { result ≡ one_client client origins.items }
    {
        PairStock {
            first: Some(client),
            ahead: VecDeque::new(alloc),
            origin: None,
            later: VecDeque::from_vec(origins),
            given: 0,
        }
    }

    /// The client of the next pair, named by its number among all that were given, if there is one.
    pub fn next(&mut self) -> Option<MemLink>
        ensures client { result ≡ next_client self.old }
        ensures after { self.new ≡ after_next self.old }
        ensures gives { GivesNext result self.old.given self.new.given }
    {
        let Some((client, origin)) = next_pair(&mut self.first, &mut self.ahead) else {
            return None;
        };
        let mut client = client;
        self.given += 1;
        client.set_name(self.given);
        self.origin = origin;
        Some(client)
    }

    /// The origin of the client that was given last, if it has one that was not taken, and else the next of
    /// the later ones.
    pub fn take_origin(&mut self) -> Option<MemLink>
        ensures origin { result ≡ next_origin self.old }
        ensures after { self.new ≡ after_origin self.old }
        ensures unused { IsNewLinkIf look_of result }
    {
        if let Some(origin) = self.origin.take() {
            return Some(origin);
        }
        match self.later.pop_front() {
            Some(origin) => origin,
            None => None,
        }
    }
}

// The first client, if it was not given, and else the next pair.
fn next_pair(
    first: &mut Option<MemLink>,
    ahead: &mut VecDeque<(MemLink, Option<MemLink>)>,
) -> Option<(MemLink, Option<MemLink>)>
    ensures { TakesFront result (with_first first.old ahead.old.items) (with_first first.new ahead.new.items) }
{
    match first.take() {
        Some(client) => Some((client, None)),
        None => ahead.pop_front(),
    }
}
