//! Where in a head some bytes end, told byte by byte.
ghost use Rattle.std.specs.Prelude.{◌≡◌};
ghost use Rattle.ts_phases.specs.Place.{at_line, has_ended, in_line, place_next};

/// Where in a head the bytes end that came so far.
#[derive(Clone, Copy)]
pub enum Place {
    /// Before the first line, behind empty lines alone.
    Before,
    /// There, and behind the CR of an empty line.
    BeforeReturn,
    /// In the first word of the first line.
    First,
    /// In the second word of the first line.
    Second,
    /// In the first line, behind its second space.
    Third,
    /// In the name of a field.
    Name,
    /// In the value of a field.
    Value,
    /// Behind a line.
    Behind,
    /// Behind a line and a CR.
    BehindReturn,
    /// Behind the head.
    Ended,
}

// The place behind one byte more in a line.
fn in_line(part: Place, next: Place, stop: u8, byte: u8) -> Place
    ensures { result ≡ in_line part next stop byte }
{
    if byte == b'\n' {
        Place::Behind
    } else if byte == stop {
        next
    } else {
        part
    }
}

// The place behind one byte more at the beginning of a line.
fn at_line(ended: Place, half: Place, other: Place, byte: u8) -> Place
    ensures { result ≡ at_line ended half other byte }
{
    if byte == b'\n' {
        ended
    } else if byte == b'\r' {
        half
    } else {
        other
    }
}

impl Place {
    /// The place behind one byte more.
    pub fn after(self, byte: u8) -> Place
        ensures { result ≡ place_next self byte }
    {
        match self {
            Place::Before => at_line(Place::Before, Place::BeforeReturn, Place::First, byte),
            Place::BeforeReturn => at_line(Place::Before, Place::First, Place::First, byte),
            Place::First => in_line(Place::First, Place::Second, b' ', byte),
            Place::Second => in_line(Place::Second, Place::Third, b' ', byte),
            Place::Third => in_line(Place::Third, Place::Third, b' ', byte),
            Place::Name => in_line(Place::Name, Place::Value, b':', byte),
            Place::Value => in_line(Place::Value, Place::Value, b':', byte),
            Place::Behind => at_line(Place::Ended, Place::BehindReturn, Place::Name, byte),
            Place::BehindReturn => at_line(Place::Ended, Place::Name, Place::Name, byte),
            Place::Ended => Place::Ended,
        }
    }

    /// Whether a head ended.
    pub fn has_ended(self) -> bool
        ensures { result ≡ has_ended self }
    {
        matches!(self, Place::Ended)
    }
}
