//! Why a driven chain is lost: an event could not be set, or a continuation could not be made.
ghost use Rattle.std.specs.Prelude.{◌≡◌};
ghost use Rattle.ts_transform.specs.Loss.{loss_of, making_loss};

use ts_group::{MakeFault, SetFault};

/// Why a driven chain is lost.
#[derive(Clone, Copy, PartialEq, Eq)]
pub enum Loss {
    NoMemory,
    /// No index is left for a continuation.
    TableFull,
    /// A stage that must work has no live continuation.
    Dead,
    /// The event numbers are used up.
    Spent,
}

impl Loss {
    /// The loss where an event could not be set.
    pub fn of_set(fault: &SetFault) -> Loss
        ensures { result ≡ loss_of fault.now }
    {
        match fault {
            SetFault::NoMemory => Loss::NoMemory,
            SetFault::Dead => Loss::Dead,
            SetFault::Spent => Loss::Spent,
        }
    }

    /// The loss where a continuation could not be made.
    pub fn of_make(fault: &MakeFault) -> Loss
        ensures { result ≡ making_loss fault.now }
    {
        match fault {
            MakeFault::NoMemory => Loss::NoMemory,
            MakeFault::TableFull => Loss::TableFull,
        }
    }
}
