//! The room behind a buffer's bytes, lent to be filled in place.
ghost use Rattle.std.specs.Prelude.{◌≡◌, ◌≤◌, [], length, OnOk, OnErr};
ghost use Rattle.std.specs.Borrow.{sem};
ghost use Rattle.ts_iobuf.specs.Lending.{LendsRoom, LendsSpace};

use crate::buffer::IoBuffer;
use ts_link::NoMemory;

impl IoBuffer {
    // Makes the free bytes behind the others the room.
    fn make_space(&mut self) -> Result<(), NoMemory>
        ensures rest { self.new ≡ record self.old { room = self.new.room } }
        ensures ok { OnOk result (1 ≤ length self.new.room) }
        ensures none { OnErr result ((self.new.room ≡ []) × (self.old.room ≡ [])) }
    {
        self.room = self.store.make_room()?;
        Ok(())
    }

    // The room behind the bytes.
    fn room_mut(&mut self) -> &mut [u8]
        ensures* writes_back { sem 𝓛 (LendsRoom self.entry result) }
        ensures room { result.now ≡ self.old.room }
    {
        self.store.behind_mut(self.room)
    }

    /// The room behind the bytes, at least one byte, to be filled in place and then added by `produce`; or
    /// none for want of memory.
    pub fn space(&mut self) -> &mut [u8]
        ensures* writes_back { sem 𝓛 (LendsSpace self.entry result) }
        ensures none { result.now ≡ [] → self.old.room ≡ [] }
    {
        let _ = self.make_space();
        self.room_mut()
    }
}
