// IER.
ghost use Rattle.std.specs.Prelude.{List, ℕ};
ghost use Rattle.serial.specs.Port.{write_ier};
ghost use Rattle.serial.specs.Calls.{Writes};

use crate::iir;
use crate::memory::{COUNT, IER, IIR, Pos, Regs};
use common::answer::ONE_RAISE;

// Its new value is stored, and what it enables is active from now on. The answer has the raises.
pub fn write(regs: &mut Regs, pos: &Pos, value: u8) -> u32
    ensures { (ring : List ℕ) → Writes (λ p. write_ier p value) regs.old pos.now ring
        regs.new pos.now ring result }
{
    let ier = interrupts::ier_stored(value);
    let told = interrupts::enabling(regs[IER], ier, regs[IIR], pos[COUNT] != 0);
    regs[IER] = ier;
    iir::store(regs, told.iir);
    ONE_RAISE * told.raises
}
