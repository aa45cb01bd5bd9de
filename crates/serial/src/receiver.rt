// The receiver: bytes come, wait in the ring, and are read.
ghost use Rattle.std.specs.Prelude.{◌≡◌, true, not, ◌+◌, ◌≤◌, eqb, get_or};
ghost use Rattle.interrupts.specs.Calls.{Quiet};
ghost use Rattle.serial.specs.Layout.{places};
ghost use Rattle.serial.specs.Port.{read_events, read_rbr};
ghost use Rattle.serial.specs.Calls.{event_bits, Reads};
ghost use Rattle.serial.specs.Inside.{Received, WaitAfterRead};

use crate::memory::{COUNT, IER, IIR, LSR, Pos, Regs, Ring};
use crate::{iir, waiting};
use common::answer::{DATA_READ, DELIVERED, NONE_LEFT};

// LSR once a byte has been read and `left` wait.
fn lsr_after_read(regs: &mut Regs, left: u32)
    ensures { WaitAfterRead regs.old left regs.new }
{
    if left == 0 {
        regs[LSR] = line_status::after_read(regs[LSR], false);
    }
}

// The word of a read with which `byte` has left, and whether another waits.
fn delivered(byte: u8, waits: bool) -> u32
    ensures { result ≡ byte + event_bits (read_events true waits) }
{
    if waits {
        return u32::from(byte) + (DATA_READ + DELIVERED);
    }
    u32::from(byte) + (DATA_READ + DELIVERED + NONE_LEFT)
}

// RBR: the first byte leaves. What is usual comes first, since a guest fetches its input byte by byte:
// this is the last, or more bytes wait and nothing else changes.
pub fn read_rbr(regs: &mut Regs, pos: &mut Pos, ring: &Ring) -> u32
    ensures { Reads read_rbr regs.old pos.old ring.now
        regs.new pos.new result }
{
    let n = pos[COUNT];
    if n == 1 {
        regs[IIR] = interrupts::after_data_read(regs[IER], regs[IIR], false);
        lsr_after_read(regs, 0);
        return delivered(waiting::take(pos, ring, 1), false);
    }
    if waiting::several(n) {
        return delivered(waiting::take(pos, ring, n), true);
    }
    read_any_rbr(regs, pos, ring)
}

// The same, however many bytes wait.
fn read_any_rbr(regs: &mut Regs, pos: &mut Pos, ring: &Ring) -> u32
    ensures { Reads read_rbr regs.old pos.old ring.now
        regs.new pos.new result }
{
    let n = waiting::count(pos);
    regs[IIR] = interrupts::after_data_read(regs[IER], regs[IIR], 1 < n);
    if n == 0 {
        lsr_after_read(regs, 0);
        return DATA_READ + NONE_LEFT;
    }
    lsr_after_read(regs, n - 1);
    delivered(waiting::take(pos, ring, n), 1 < n)
}

// The bytes put into the ring wait from now on, `n` in all: data is ready, received data is pending.
// The answer: how often the interrupt is to be raised.
pub fn receive(regs: &mut Regs, pos: &mut Pos, n: u32) -> u32
    ensures { Received regs.old pos.old n regs.new pos.new result }
{
    let waits = pos[COUNT] != 0;
    pos[COUNT] = n;
    let told = interrupts::data_came(regs[IER], regs[IIR], waits);
    iir::store(regs, told.iir);
    regs[LSR] = line_status::ready(regs[LSR]);
    told.raises
}

// The same for one byte where no kind of interrupt is enabled, as while a driver polls: nothing is raised.
// `waits` says whether bytes waited.
pub fn receive_quietly(regs: &mut Regs, pos: &mut Pos, waits: bool)
    requires quiet { Quiet (get_or regs.old 1 0) }
    requires waits_value { waits ≡ not (eqb (get_or pos.old 1 0) 0) }
    requires pos_bound { get_or pos.old 1 0 ≤ places }
    ensures { Received regs.old pos.old (get_or pos.old 1 0 + 1)
        regs.new pos.new 0 }
{
    iir::none_if_first(regs, waits);
    pos[COUNT] += 1;
    regs[LSR] = line_status::ready(regs[LSR]);
}
