//! What a VConnection lends for writing.
ghost use Rattle.std.specs.Prelude.{◌≡◌};
ghost use Rattle.std.specs.Borrow.{Lends, sem};
ghost use Rattle.ts_vconn.specs.contracts.vconn.VConn.{the_row};
ghost use Rattle.ts_vconn.specs.contracts.vio.Vio.{the_row as vio_row};

use crate::vconn::VConn;
use crate::vio::Vio;

impl VConn {
    /// Lends what is to be moved. Whether it is closed stays.
    pub fn vio(&mut self) -> &mut Vio
        ensures* writes_back { sem 𝓛 (Lends the_row vio_row
            self.entry result (λ w. record self.old { vio = w })) }
        ensures value { result.now ≡ self.old.vio }
    {
        &mut self.vio
    }
}
