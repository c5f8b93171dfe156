//! The order of a wheel is that of due moment and adding.

ghost use Rattle.ts_wheel.specs.Order.{AddsInOrder, TakesTheDue};

use std::marker::PhantomData;

/// Whatever was added in whatever order: one token more, added last, stands where a wheel puts it.
pub fn adds_in_order<T>(_of: PhantomData<T>)
    ensures { AddsInOrder T }
{}

/// Whatever was added in whatever order: a wheel gives the due token with the least pair of due moment and
/// order of adding, and what it leaves is all the rest, in order.
pub fn takes_the_due<T>(_of: PhantomData<T>)
    ensures { TakesTheDue T }
{}
