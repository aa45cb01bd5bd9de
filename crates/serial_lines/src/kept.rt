// A port that was saved.
ghost use Rattle.std.specs.Prelude.{◌≤◌};
ghost use Rattle.serial.specs.Layout.{places};

use serial::memory::{Regs, Ring};

// Its registers, and the bytes that waited, with their number beside them: memory is fixed, and
// there is no heap.
#[derive(Clone, Copy)]
pub struct Saved {
    pub regs: Regs,
    pub waiting: Ring,
    pub count: u32,
    ghost in_ring: { count ≤ places },
}
