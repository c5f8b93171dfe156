//! How far a front is.
use ts_wire::Framing;

/// How far a front is.
#[derive(Clone, Copy)]
pub enum Stage {
    /// The head of the request is read.
    Heading,
    /// There is no upload: what the link gives is passed on as it is.
    Passing,
    /// There is one, which ends so: the head is shown, and the body is handed over apart.
    Uploading(Framing),
}
