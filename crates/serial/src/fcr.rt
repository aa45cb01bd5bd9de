// FCR. What is remembered of it has no effect; bit 0x02 throws the waiting bytes away.
ghost use Rattle.std.specs.Prelude.{List, ℕ};
ghost use Rattle.serial.specs.Port.{write_fcr};
ghost use Rattle.serial.specs.Calls.{Writes};
ghost use Rattle.serial.specs.Inside.{Flushed};

use crate::memory::{COUNT, FCR, IER, IIR, LSR, Pos, Regs};
use crate::waiting;
use common::answer::FLUSHED;

// The answer: how many bytes are thrown away.
pub fn write(regs: &mut Regs, pos: &mut Pos, value: u8) -> u32
    ensures { (ring : List ℕ) → Writes (λ p. write_fcr p value) regs.old pos.old ring
        regs.new pos.new ring result }
{
    regs[FCR] = value & 0xc9;
    if value & 0x02 == 0 {
        return 0;
    }
    flush(regs, pos)
}

// No byte waits any more.
fn flush(regs: &mut Regs, pos: &mut Pos) -> u32
    ensures { Flushed regs.old pos.old regs.new pos.new result }
{
    let n = waiting::count(pos);
    regs[IIR] = interrupts::after_data_read(regs[IER], regs[IIR], false);
    regs[LSR] = line_status::after_read(regs[LSR], false);
    pos[COUNT] = 0;
    n + FLUSHED
}
