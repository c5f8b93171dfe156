//! Links over the system's sockets: connections that do not wait, who listens and who dials, which of them
//! are ready, clients that linger until they have their answer, a clock, and addresses by number.
#![tactic(auto)]

mod address;
mod backlog;
mod clock;
mod dialer;
mod half_closed;
mod heard;
mod laws;
mod lingering;
mod listener;
mod poller;
mod stream;
mod stream_link;

pub use address::{AddressFault, address_of};
pub use backlog::Backlog;
pub use clock::{MonotonicClock, whole_milliseconds};
pub use dialer::{Connector, Dialing, ORIGIN_NAME, SystemConnector, dial};
pub use half_closed::{HalfClosed, LINGER};
pub use heard::{got_of, is_final, put_of};
pub use laws::{are_error_numbers, are_limits, are_names};
pub use lingering::{LAST_LINGER, Lingering, MOST_LINGERING, PASSED_AT_ONCE};
pub use listener::{Acceptor, Arrival, Listener, SystemAcceptor, SystemListener};
pub use poller::{LISTENER, MOST_TOLD, Poller, Watched};
pub use stream::Stream;
pub use stream_link::{HURRIES_BEHIND, SocketLink, StreamLink};
