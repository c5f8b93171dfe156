//! The server of a net: places in mutex slots, in which handlers of clients stand one after the other, the
//! acceptor that gives them to clients, and the event threads that run them.
#![tactic(auto)]

mod accept;
mod acceptor;
mod arrival;
mod clear;
mod connection;
mod exchanges;
mod laws;
mod leaving;
mod leftover;
mod place;
mod placed;
mod ready;
mod retire;
mod rounds;
mod run;
mod server;
mod service;
mod session;
mod sessions;
mod source;
mod start;
mod step;
mod steps;
mod tenant;
mod whose;
mod worker;
mod workers;

pub use acceptor::{PLACES, Served};
pub use exchanges::{TxnTerms, serve_transactions};
pub use laws::are_limits;
pub use leaving::Leaving;
pub use placed::PlacedExchange;
pub use run::serve;
pub use service::Host;
pub use session::{SessionExchange, SessionHandler, SessionWait};
pub use sessions::{Ended, GoesOn, NotedBehind, SessionTerms, serve_sessions};
pub use tenant::{Handler, Tenant};
pub use whose::{LAST_PLACE, Whose};
