//! The rule of the slots' table, and the kinds of step that keep it.

ghost use Rattle.ts_slot.specs.Boxed.{in_box, fits_in_box};
ghost use Rattle.ts_slot.specs.Rule.{Kept};
ghost use Rattle.ts_slot.specs.Steps.{Entered, Returned, WornOut, Fetched, Learned};
ghost use Rattle.ts_slot.specs.Views.{opener, nobody, firsts, left_half, right_half, joined};

use crate::view::SeatView;
use atomic_table::{Join, Play, Split, TableRule};
use std::marker::PhantomData;
use std::snapshot::Snapshot;
use ts_journal::Slotted;

/// The tags, and the boxes at the start.
pub type Key<V> = (Snapshot<Vec<<V as Slotted>::Tag>>, Snapshot<Vec<Box<V>>>);

/// A free slot's value is at home and fits; a held one has one holder; what each seat knows is so.
pub struct Law<V> {
    of: PhantomData<V>,
}

impl<V: Slotted> TableRule<Option<Box<V>>, SeatView<V::Tag, V::Trace>, Key<V>> for Law<V> {
    ghost holds = { λ key. Kept (fits_in_box V.fits) (in_box V.stamp) (in_box V.trace) V.follows
        key.0.value.items };

    ghost first = { λ key. opener key.0.value.items (firsts (in_box V.trace) 0 key.1.value.items) };
}

/// A seat tries to enter: a `fetch_or` of 1.
pub struct Enter<V> {
    of: PhantomData<V>,
}

impl<V: Slotted> Play<Option<Box<V>>, SeatView<V::Tag, V::Trace>> for Enter<V> {
    ghost then = { Entered (fits_in_box V.fits) (in_box V.stamp) (in_box V.trace) V.follows };
}

/// The holder leaves, and the group is free: a `fetch_add` of 1.
pub struct Free<V> {
    of: PhantomData<V>,
}

impl<V: Slotted> Play<Option<Box<V>>, SeatView<V::Tag, V::Trace>> for Free<V> {
    ghost then = { Returned (in_box V.trace) };
}

/// The holder leaves after the last turn: a `fetch_add` of 0.
pub struct Wear<V> {
    of: PhantomData<V>,
}

impl<V: Slotted> Play<Option<Box<V>>, SeatView<V::Tag, V::Trace>> for Wear<V> {
    ghost then = { WornOut };
}

/// The holder of several groups turns to one of them: a load, which changes nothing that another seat sees.
pub struct Fetch<V> {
    of: PhantomData<V>,
}

impl<V: Slotted> Play<Option<Box<V>>, SeatView<V::Tag, V::Trace>> for Fetch<V> {
    ghost then = { Fetched };
}

/// A seat learns that what it knows is coherent: a load, which changes nothing.
pub struct Learn<V> {
    of: PhantomData<V>,
}

impl<V: Slotted> Play<Option<Box<V>>, SeatView<V::Tag, V::Trace>> for Learn<V> {
    ghost then = { Learned V.follows };
}

/// A seat is split.
pub struct Cut;

impl<G, T> Split<SeatView<G, T>> for Cut {
    ghost left = { left_half };

    ghost right = { right_half };
}

/// A seat is joined to another.
pub struct Glue;

impl<G, T> Join<SeatView<G, T>> for Glue {
    ghost both = { joined };

    ghost spent = { nobody };
}
