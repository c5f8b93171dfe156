//! When clients are asked for: where the system told of one, and from time to time.
ghost use Rattle.std.specs.Prelude.{◌≡◌};
ghost use Rattle.ts_net.specs.Backlogs.{asks, once_empty, once_waited, watched_or_not};

use ts_link::RETRY_AFTER;

/// What is known of the clients that wait to be accepted.
#[derive(Clone, Copy, Debug, PartialEq, Eq, Drop)]
pub enum Backlog {
    /// The system does not tell of them.
    Untold,
    /// It does, and nobody waited yet to be told.
    Unheard,
    /// One may be there.
    Open,
    /// None was taken at this moment, and no wait was told of one since.
    Empty { at: u64 },
}

impl Backlog {
    /// Nobody was asked for yet, where the system tells of clients or does not.
    pub fn new(is_watched: bool) -> Backlog
        ensures { result ≡ watched_or_not is_watched }
    {
        if is_watched {
            Backlog::Unheard
        } else {
            Backlog::Untold
        }
    }

    /// Whether a client is asked for at this moment: not where none was taken in the last 10 milliseconds and
    /// no wait was told of one since.
    pub fn asks(self, moment: u64) -> bool
        ensures { result ≡ asks moment self }
    {
        match self {
            Backlog::Untold | Backlog::Unheard | Backlog::Open => true,
            Backlog::Empty { at } => moment < at || at.saturating_add(RETRY_AFTER) <= moment,
        }
    }

    /// The same once a wait was told of a client, or of none. Behind the first wait one may be there of whom
    /// nobody was told.
    pub fn once_waited(self, is_told: bool) -> Backlog
        ensures { result ≡ once_waited is_told self }
    {
        match self {
            Backlog::Untold => Backlog::Untold,
            Backlog::Unheard | Backlog::Open => Backlog::Open,
            Backlog::Empty { at } => {
                if is_told {
                    Backlog::Open
                } else {
                    Backlog::Empty { at }
                }
            }
        }
    }

    /// The same once none was taken at this moment. Where nobody waits to be told, each call asks.
    pub fn once_empty(self, moment: u64) -> Backlog
        ensures { result ≡ once_empty moment self }
    {
        match self {
            Backlog::Untold => Backlog::Untold,
            Backlog::Unheard => Backlog::Unheard,
            Backlog::Open | Backlog::Empty { .. } => Backlog::Empty { at: moment },
        }
    }
}
