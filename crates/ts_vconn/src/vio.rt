//! What is to be moved through one end of a connection.
ghost use Rattle.std.specs.Prelude.{◌≡◌, ◌+◌, ◌-◌, ◌≤◌, true};
ghost use Rattle.ts_journal.specs.declared.entry.Event.TheVariants as Event;
ghost use Rattle.ts_group.specs.Acts.{Sets};
ghost use Rattle.ts_link.specs.Moments.{moment_after};
ghost use Rattle.ts_group.specs.Entries.{Grows};

use ts_group::{Action, Cx, SetFault};
use ts_iobuf::ReaderId;
use ts_journal::ContKey;

/// How many bytes are to be moved, how many were, whose continuation hears of it, and which reader they are
/// read by. (The Developer's Guide: `TSVIONBytesGet`, `TSVIONDoneGet`, `TSVIOContGet`, `TSVIOReaderGet`.)
#[derive(Clone, Copy)]
pub struct Vio {
    pub nbytes: u64,
    pub ndone: u64,
    pub cont: ContKey,
    pub reader: ReaderId,
    ghost within: { ndone ≤ nbytes },
}

impl Vio {
    /// How many bytes are left to move. (`TSVIONTodoGet`.)
    pub fn ntodo(&self) -> u64
        ensures { result ≡ self.now.nbytes - self.now.ndone }
    {
        self.nbytes - self.ndone
    }

    /// Counts `n` more bytes as moved. (`TSVIONDoneSet`.)
    pub fn advance(&mut self, n: u64)
        requires { n ≤ self.old.nbytes - self.old.ndone }
        ensures done { self.new.ndone ≡ self.old.ndone + n }
        ensures all { self.new.nbytes ≡ self.old.nbytes }
        ensures same { (self.new.cont ≡ self.old.cont) × (self.new.reader ≡ self.old.reader) }
    {
        self.ndone += n;
    }

    /// Has the continuation hear, by an event that is due now, that there is something to do.
    /// (`TSVIOReenable`.)
    pub fn reenable(&self, cx: &mut Cx) -> Result<Action, SetFault>
        requires turn { cx.old.log.state.held ≡ true }
        ensures sets { Sets cx.old.log cx.new.log result self.now.cont
            Event.Immediate (moment_after cx.old.moment 0) 0 }
        ensures roles { cx.new.roles ≡ cx.old.roles }
        ensures calls { cx.new.calls ≡ cx.old.calls }
        ensures grows { Grows cx.old cx.new }
    {
        cx.schedule(self.cont, 0)
    }
}
