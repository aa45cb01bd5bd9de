// A 16550 serial port in memory that its host lends, in place: nothing is copied, and any bytes are
// some port. The host hands each access of the guest to these functions and acts on the answer.
#![tactic(auto)]

mod fcr;
mod ier;
mod iir;
pub mod memory;
mod receiver;
mod transmitter;
pub mod waiting;

ghost use Rattle.std.specs.Prelude.{◌≡◌, true, false, ◌≤◌};
ghost use Rattle.common.specs.Bits.{on};
ghost use Rattle.serial.specs.Layout.{size_by};
ghost use Rattle.serial.specs.Port.{read_of, write_of, input_of};
ghost use Rattle.serial.specs.Calls.{Reads, Writes, TakesInput, MakesFresh, Makes, HasSize, HasRoom, IsHigh};

use common::answer::{ONE_RAISE, REFUSED};
use memory::{
    COUNT, DLL, DLM, FCR, IER, IIR, LCR, LSR, MCR, MSR, Pos, Regs, Ring, SCR, SIZE, START,
};

// A fresh port in which `size` bytes may wait; its ring may hold anything. The answer is 0 or REFUSED: here
// and below it is one word with its parts as bits, which the interface for C hands on as it is.
pub fn init(regs: &mut Regs, pos: &mut Pos, size: u32) -> u32
    ensures { Makes size regs.old pos.old regs.new pos.new result }
{
    if waiting::is_size(size) {
        make(regs, pos, waiting::register_for(size));
        0
    } else {
        REFUSED
    }
}

// A fresh port whose size `told` tells.
fn make(regs: &mut Regs, pos: &mut Pos, told: u8)
    ensures { MakesFresh (size_by told) regs.new pos.new }
{
    *regs = [0; 16];
    regs[DLL] = 0x0c;
    regs[IIR] = 0x01;
    regs[LCR] = 0x03;
    regs[MCR] = 0x08;
    regs[LSR] = 0x60;
    regs[MSR] = 0xb0;
    regs[SIZE] = told;
    *pos = [0; 4];
}

// LCR 0x80: offsets 0 and 1 are the divisor's.
fn is_open(lcr: u8) -> bool
    ensures { result ≡ on lcr 0x80 }
{
    lcr & 0x80 != 0
}

// LCR, MCR or LSR: three offsets in a row, so that LSR, which guests poll, is found by one test.
fn is_status_or_control(offset: u8) -> bool
    ensures le_offset { result ≡ true → (3 ≤ offset) × (offset ≤ 5) }
    ensures fact { result ≡ false → 3 ≤ offset → offset ≤ 5 → ⊥ }
{
    matches!(offset, 3..=5)
}

// The guest reads at `offset`: the reply, and the raises.
pub fn read(regs: &mut Regs, pos: &mut Pos, ring: &Ring, offset: u8) -> u32
    ensures { Reads (λ p. read_of p offset) regs.old pos.old ring.now
        regs.new pos.new result }
{
    if offset == 0 {
        if is_open(regs[LCR]) {
            return u32::from(regs[DLL]);
        }
        return receiver::read_rbr(regs, pos, ring);
    }
    if is_status_or_control(offset) {
        return u32::from(memory::at(regs, offset));
    }
    match offset {
        1 => {
            if is_open(regs[LCR]) {
                u32::from(regs[DLM])
            } else {
                u32::from(regs[IER])
            }
        }
        2 => iir::read(regs, pos),
        6 => u32::from(modem::msr_read(regs[MCR], regs[MSR])),
        7 => u32::from(regs[SCR]),
        _ => 0,
    }
}

// The guest writes `value` at `offset`: the byte to send, where there is one, and the raises.
pub fn write(regs: &mut Regs, pos: &mut Pos, ring: &mut Ring, offset: u8, value: u8) -> u32
    ensures { Writes (λ p. write_of p offset value) regs.old pos.old ring.old
        regs.new pos.new ring.new result }
{
    if offset < 2 {
        if is_open(regs[LCR]) {
            if offset == 0 {
                regs[DLL] = value;
                return 0;
            }
            regs[DLM] = value;
            return 0;
        }
        if offset == 0 {
            return transmitter::write_thr(regs, pos, ring, value);
        }
        return ier::write(regs, pos, value);
    }
    match offset {
        2 => fcr::write(regs, pos, value),
        3 => {
            regs[LCR] = value;
            0
        }
        4 => {
            regs[MCR] = value;
            0
        }
        7 => {
            regs[SCR] = value;
            0
        }
        _ => 0,
    }
}

// Bytes from the host's side of the line: how many were taken, or that the port is full, and the raises.
pub fn input(regs: &mut Regs, pos: &mut Pos, ring: &mut Ring, input: &[u8]) -> u32
    ensures { TakesInput (λ p. input_of p input.now) regs.old pos.old ring.old
        regs.new pos.new ring.new result }
{
    if modem::is_loop(regs[MCR]) {
        return 0;
    }
    let len = input.len();
    if len == 0 {
        return 0;
    }
    let n = pos[COUNT];
    let size = waiting::size(regs);
    if size <= n {
        return REFUSED;
    }
    let k = len.min((size - n) as usize);
    ring::fill(ring, pos[START], n, input, k);
    let taken = k as u32;
    taken + ONE_RAISE * receiver::receive(regs, pos, n + taken)
}

// How many bytes may wait.
pub fn size(regs: &Regs) -> u32
    ensures { HasSize regs.now result }
{
    waiting::size(regs)
}

// How many more bytes the port can take.
pub fn room(regs: &Regs, pos: &Pos) -> u32
    ensures { HasRoom regs.now pos.now result }
{
    waiting::size(regs).saturating_sub(pos[COUNT])
}

// Whether the interrupt line is high now.
pub fn line(regs: &Regs, pos: &Pos) -> bool
    ensures { IsHigh regs.now pos.now result }
{
    iir::is_high(regs, pos)
}
