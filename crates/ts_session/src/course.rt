//! What a span keeps of its client's connection.
use crate::request::Request;
use crate::response::Response;
use std::snapshot::Snapshot;

/// How many requests a session may carry.
pub const MOST_PLACES: u32 = 1_000;

/// What came of a poll for the next request.
#[derive(Clone, Copy, Debug, PartialEq, Eq)]
pub enum Polled {
    /// Some of it is there.
    Some,
    /// The client has ended.
    End,
    Again,
    Failed,
}

/// A client's connection while it carries one request and its response.
#[derive(Drop)]
pub struct Course<C> {
    pub(crate) client: C,
    // The client as it was when the request began, and how many bytes it had given by then that were held.
    pub(crate) begun: Snapshot<C>,
    pub(crate) surplus: usize,
    // The client as it was when `connection: close` was dropped, or any time before.
    pub(crate) cut: Snapshot<C>,
    pub(crate) request: Request,
    pub(crate) response: Response,
    // The request's place in the session, counted from 1.
    pub(crate) place: u32,
    pub(crate) reads: u64,
    pub(crate) writes: u64,
}
