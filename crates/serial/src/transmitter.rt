// The transmitter: a byte written leaves at once.
ghost use Rattle.std.specs.Prelude.{get_or};
ghost use Rattle.interrupts.specs.Calls.{Quiet};
ghost use Rattle.serial.specs.Port.{write_loop, write_thr};
ghost use Rattle.serial.specs.Calls.{Writes};
ghost use Rattle.serial.specs.Inside.{Emptied};

use crate::memory::{COUNT, IER, IIR, MCR, Pos, Regs, Ring, START};
use crate::{iir, receiver, waiting};
use common::answer::{DROPPED, LOOPED, ONE_RAISE, SENT};

// THR: in the loop the byte comes back, on the line it is sent.
pub fn write_thr(regs: &mut Regs, pos: &mut Pos, ring: &mut Ring, value: u8) -> u32
    ensures { Writes (λ p. write_thr p value) regs.old pos.old ring.old
        regs.new pos.new ring.new result }
{
    if modem::is_loop(regs[MCR]) {
        return write_loop(regs, pos, ring, value);
    }
    let raises = emptied(regs, pos[COUNT] != 0);
    u32::from(value) + SENT + ONE_RAISE * raises
}

// THR in the loop: the byte comes to the receiver, or is dropped where that is full.
fn write_loop(regs: &mut Regs, pos: &mut Pos, ring: &mut Ring, value: u8) -> u32
    ensures { Writes (λ p. write_loop p value) regs.old pos.old ring.old
        regs.new pos.new ring.new result }
{
    if interrupts::is_quiet(regs[IER]) {
        return loop_quietly(regs, pos, ring, value);
    }
    let n = pos[COUNT];
    let size = waiting::size(regs);
    let raises = emptied(regs, n != 0);
    if size <= n {
        return DROPPED + ONE_RAISE * raises;
    }
    ring::push(ring, pos[START], n, value);
    LOOPED + ONE_RAISE * (raises + receiver::receive(regs, pos, n + 1))
}

// The same where no kind of interrupt is enabled, as while a driver tests the port or polls.
fn loop_quietly(regs: &mut Regs, pos: &mut Pos, ring: &mut Ring, value: u8) -> u32
    requires { Quiet (get_or regs.old 1 0) }
    ensures { Writes (λ p. write_loop p value) regs.old pos.old ring.old
        regs.new pos.new ring.new result }
{
    let n = pos[COUNT];
    if waiting::size(regs) <= n {
        return DROPPED;
    }
    ring::push(ring, pos[START], n, value);
    receiver::receive_quietly(regs, pos, n != 0);
    LOOPED
}

// The transmitter is empty. The answer: how often the interrupt is to be raised. `waits` says whether a
// byte waits.
fn emptied(regs: &mut Regs, waits: bool) -> u32
    ensures { Emptied regs.old waits regs.new result }
{
    let told = interrupts::byte_sent(regs[IER], regs[IIR], waits);
    iir::store(regs, told.iir);
    told.raises
}
