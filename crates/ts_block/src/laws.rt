//! The law of what a transaction sends: one request and one response, header rules included.
ghost use Rattle.ts_config.specs.declared.setup.Setup.{Setup};
ghost use Rattle.ts_block.specs.Sent.{HasPlainRules, RequestStaysOne, AnswerStaysOne, ResponseStaysOne};
ghost use Rattle.ts_block.specs.Sent.{BlocksSendOneEach};

/// The law that a setup whose header rules leave alone what the proxy sees to itself sends one head at a
/// time: what was asked, an answer of the proxy's own, a response that is passed on, and so whatever stands
/// in the block of all bytes. The function does nothing.
pub fn sends_one_each()
    ensures requests { (setup : Setup) → HasPlainRules setup → RequestStaysOne setup }
    ensures answers { (setup : Setup) → HasPlainRules setup → AnswerStaysOne setup }
    ensures responses { (setup : Setup) → HasPlainRules setup → ResponseStaysOne setup }
    ensures blocks { (setup : Setup) → HasPlainRules setup → BlocksSendOneEach setup }
{}
