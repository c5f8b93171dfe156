//! Laws: the limits of a tap, and what the body data of a response is.
ghost use Rattle.ts_tap.specs.Limits.{AreLimits};
ghost use Rattle.ts_tap.specs.SentBody.{HasOneSentBody, PrintedHeadsSay, SentBodyIsFront, SentBodyIsWhole};

/// The limits of a tap. This is a law: the function does nothing.
pub fn limits()
    ensures { AreLimits }
{}

/// What a client took has one body, and of a front of a head and the frames of a body it is a front of that
/// body; and the heads that are printed say how their body is sent. This is a law: the function does nothing.
pub fn sent_bodies()
    ensures one { HasOneSentBody }
    ensures front { SentBodyIsFront }
    ensures whole { SentBodyIsWhole }
    ensures heads { PrintedHeadsSay }
{}
