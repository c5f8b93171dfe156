//! Whose handler stands in a place.

/// The last place that a transaction can have among those of its client.
pub const LAST_PLACE: u32 = u32::MAX;

/// Whose handler it is: that of a client, at a place in its session, with an origin or without one.
#[derive(Clone, Copy, Debug, PartialEq, Eq, Drop)]
pub struct Whose {
    /// The number of its client among all that came, counted from 1.
    pub number: u64,
    /// The place of its transaction among those of its client, counted from 1.
    pub place: u32,
    /// An origin was reached for it.
    pub has_origin: bool,
}
