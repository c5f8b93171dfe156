//! Laws: every text has exactly one reading, and the limits are these; and what lines give of a body before they finish early.
ghost use Rattle.std.specs.Prelude.{◌≡◌, ℕ, List, ◌↔◌};
ghost use Rattle.ts_config.specs.Bodies.{TellsSoFar, IsFinalEarly};
ghost use Rattle.ts_config.specs.Bytes.{AreLimits};
ghost use Rattle.ts_config.specs.Value.{Reading, IsReading, config_of};

/// Bytes have one reading by the grammar: they are a configuration of some lines and of no others, or have a
/// first fault and no other, and not both; and that reading is `config_of`. This is a law: the function does
/// nothing.
pub fn one_reading()
    ensures { (bytes : List ℕ) (reading : Reading) → IsReading bytes reading ↔ (config_of bytes ≡ reading) }
{}

/// The limits of a configuration. This is a law: the function does nothing.
pub fn limits()
    ensures { AreLimits }
{}

/// What the lines have given of a body that came so far is told line by line: it is `soon_lines` where none of
/// them finishes early, and else one has finished. This is a law: the function does nothing.
pub fn tells_so_far()
    ensures { TellsSoFar }
{}

/// Lines that finish early by a part of a body do so by each longer one, and make the same of it. This is a
/// law: the function does nothing.
pub fn early_stays()
    ensures { IsFinalEarly }
{}
