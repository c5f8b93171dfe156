//! One end of a connection.
ghost use Rattle.std.specs.Prelude.{◌≡◌, true, false};

mod lend;

use crate::vio::Vio;
use std::marker::Model;
use ts_iobuf::ReaderId;
use ts_journal::ContKey;

/// One end of a connection, with what is to be moved through it. (The Developer's Guide: `TSVConn`.)
#[derive(Drop)]
pub struct VConn {
    vio: Vio,
    closed: bool,
}

impl Model for VConn {
    ghost use Rattle.ts_vconn.specs.Vios.{Connection};

    ghost Value = { Connection };

    ghost view = { λ c. record { vio = c.vio; closed = c.closed } };
}

impl VConn {
    /// An open end through which `nbytes` bytes are to be moved, of which none was.
    pub fn make(cont: ContKey, nbytes: u64, reader: ReaderId) -> VConn
        ensures counts { (result.vio.nbytes ≡ nbytes) × (result.vio.ndone ≡ 0) }
        ensures whose { (result.vio.cont ≡ cont) × (result.vio.reader ≡ reader) }
        ensures closed { result.closed ≡ false }
    {
        VConn {
            vio: Vio {
                nbytes,
                ndone: 0,
                cont,
                reader,
            },
            closed: false,
        }
    }

    /// Ends the write side: what was moved is all that is to be moved. (`TSVConnShutdown`.)
    pub fn shutdown(&mut self)
        ensures all { self.new.vio.nbytes ≡ self.old.vio.ndone }
        ensures done { self.new.vio.ndone ≡ self.old.vio.ndone }
        ensures cont { self.new.vio.cont ≡ self.old.vio.cont }
        ensures reader { self.new.vio.reader ≡ self.old.vio.reader }
        ensures closed { self.new.closed ≡ self.old.closed }
    {
        self.vio.nbytes = self.vio.ndone;
    }

    /// Closes it, where all went well. (`TSVConnClose`.)
    pub fn close(&mut self)
        ensures { self.new ≡ record self.old { closed = true } }
    {
        self.closed = true;
    }

    /// Closes it, where something went wrong. (`TSVConnAbort`.)
    pub fn abort(&mut self)
        ensures { self.new ≡ record self.old { closed = true } }
    {
        self.closed = true;
    }

    /// Whether it was closed. (`TSVConnClosedGet`.)
    pub fn closed(&self) -> bool
        ensures { result ≡ self.now.closed }
    {
        self.closed
    }
}
