//! Laws: the limits of a session, that the requests of a connection are one list, which of them is the first,
//! where a body in chunks ends, and that a response has one line that is dropped.
ghost use Rattle.ts_session.specs.ChunksEnd.{FindsChunksEnd};
ghost use Rattle.ts_session.specs.FirstRequest.{FindsFirst};
ghost use Rattle.ts_session.specs.Kept.{HasOneKept};
ghost use Rattle.ts_session.specs.Limits.{AreLimits};
ghost use Rattle.ts_session.specs.Requests.{HasOneList};

/// The limits of a session. This is a law: the function does nothing.
pub fn limits()
    ensures { AreLimits }
{}

/// The bytes of a client are cut into requests in one way. This is a law: the function does nothing.
pub fn one_list()
    ensures { HasOneList }
{}

/// Where a body in chunks ends is a function of its bytes. This is a law: the function does nothing.
pub fn chunks_end()
    ensures { FindsChunksEnd }
{}

/// The first request of a connection is a function of its bytes. This is a law: the function does nothing.
pub fn first_request()
    ensures { FindsFirst }
{}

/// What is kept of a response is one list. This is a law: the function does nothing.
pub fn one_kept()
    ensures { HasOneKept }
{}
