// A port in an answer.
ghost use Rattle.std.specs.Prelude.{ℕ, ◌≡◌, ◌+◌, ◌≤◌, ◌<◌, List, [], ◌∷◌, ◌++◌, length};
ghost use Rattle.ring.specs.Ring.{queue};
ghost use Rattle.serial.specs.Layout.{places, port_of};
ghost use Rattle.serial_words.specs.Said.{next_byte, bytes_say, registers_say, waiting_say, port_says};

use serial::memory;
use serial::memory::{DLL, DLM, IER, IIR, LCR, LSR, MCR, MSR, Regs, Ring, SCR};
use words::out::Out;

const PLACES: usize = memory::PLACES as usize;

// Ends an answer with the port of which `start` and `count` are the positions.
pub fn put_port(out: &mut Out, regs: &Regs, start: u32, count: u32, ring: &Ring)
    requires { length out.old + 2203 ≤ 65536 }
    ensures says { out.new ≡ out.old ++ port_says (port_of regs.now (start ∷ count ∷ []) ring.now) }
    ensures upper_bound { length out.new ≤ length out.old + 2203 }
{
    put_regs(out, regs);
    put_waiting(
        out,
        start as usize % PLACES,
        count.min(memory::PLACES),
        ring,
    );
}

// The divisor's two bytes, IER, IIR, LCR, LSR, MCR, MSR and SCR.
fn put_regs(out: &mut Out, regs: &Regs)
    requires { length out.old + 27 ≤ 65536 }
    ensures by_index { (pos ring : List ℕ) → out.new ≡ out.old ++ registers_say (port_of regs.now pos ring) }
    ensures upper_bound { length out.new ≤ length out.old + 27 }
{
    let shown = [
        regs[DLL], regs[DLM], regs[IER], regs[IIR], regs[LCR], regs[LSR], regs[MCR], regs[MSR],
        regs[SCR],
    ];
    for byte in shown {
        put_next(out, byte);
    }
}

// Puts a space and the digits of a byte. (Of `Out::put_next`, for decimal numbers, it has the space alone: a trait for
// both would be longer than both.)
fn put_next(out: &mut Out, byte: u8)
    requires { length out.old + 3 ≤ 65536 }
    ensures says { out.new ≡ out.old ++ next_byte byte }
    ensures upper_bound { length out.new ≤ length out.old + 3 }
{
    out.put(b" ");
    out.put_byte(byte);
}

// Ends an answer with the bytes that wait: their number, and they in order from `start` on, or `-`.
fn put_waiting(out: &mut Out, start: usize, count: u32, ring: &Ring)
    requires at_bound { length out.old + 2176 ≤ 65536 }
    requires start_lt_places { start < places }
    requires count_le_places { count ≤ places }
    ensures says { out.new ≡ out.old ++ waiting_say (queue places ring.now start count) }
    ensures upper_bound { length out.new ≤ length out.old + 2176 }
{
    out.put(b" ");
    out.put_decimal(u64::from(count));
    if count == 0 {
        out.put(b" -\n");
    } else {
        out.put(b" ");
        put_ring(out, start, count as usize, ring);
        out.put(b"\n");
    }
}

// Puts the digits of `count` bytes of a ring from `start` on.
fn put_ring(out: &mut Out, start: usize, count: usize, ring: &Ring)
    requires at_bound { length out.old + 2048 ≤ 65536 }
    requires start_lt_places { start < places }
    requires count_le_places { count ≤ places }
    ensures says { out.new ≡ out.old ++ bytes_say (queue places ring.now start count) }
    ensures upper_bound { length out.new ≤ length out.old + 2048 }
{
    // Those up to the ring's end, and those that have gone round.
    let first = count.min(PLACES - start);
    out.put_bytes(&ring[start..start + first]);
    out.put_bytes(&ring[..count - first]);
}
