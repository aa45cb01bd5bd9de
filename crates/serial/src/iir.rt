// IIR.
ghost use Rattle.std.specs.Prelude.{cond, ◌≡◌, get_or, List, ℕ, set, unwrap_or};
ghost use Rattle.interrupts.specs.Interrupts.{none_pending};
ghost use Rattle.serial.specs.Port.{read_iir};
ghost use Rattle.serial.specs.Calls.{Reads, IsHigh};

use crate::memory::{COUNT, IER, IIR, Pos, Regs};

// What is active.
pub fn read(regs: &mut Regs, pos: &Pos) -> u32
    ensures { (ring : List ℕ) → Reads read_iir regs.old pos.now ring
        regs.new pos.now result }
{
    let ier = regs[IER];
    let iir = regs[IIR];
    let waits = pos[COUNT] != 0;
    regs[IIR] = interrupts::after_identification(ier, iir, waits);
    u32::from(interrupts::identification(ier, iir, waits))
}

// Whether the interrupt line is high.
pub fn is_high(regs: &Regs, pos: &Pos) -> bool
    ensures { IsHigh regs.now pos.now result }
{
    interrupts::is_high(regs[IER], regs[IIR], pos[COUNT] != 0)
}

// IIR becomes what is told, or stays.
pub fn store(regs: &mut Regs, told: Option<u8>)
    ensures { regs.new ≡ set regs.old 2 (unwrap_or told (get_or regs.old 2 0)) }
{
    if let Some(new) = told {
        regs[IIR] = new;
    }
}

// Nothing is active as the first bytes come.
pub fn none_if_first(regs: &mut Regs, waits: bool)
    ensures { regs.new ≡ set regs.old 2 (cond waits (get_or regs.old 2 0) none_pending) }
{
    if !waits {
        regs[IIR] = interrupts::NONE_PENDING;
    }
}
