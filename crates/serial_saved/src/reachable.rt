// Whether a run from a fresh port can have come to what was saved, clause by clause.
ghost use Rattle.std.specs.Prelude.{◌≡◌, ◌↔◌, List, true, cond, ℕ, ◌≤◌, length};
ghost use Rattle.common.specs.Lists.{some};
ghost use Rattle.serial.specs.Layout.{size_of};
ghost use Rattle.serial_saved.specs.Calls.{ReachableSaved};

use serial::memory::{FCR, IER, IIR, LSR, MSR, Regs};
use serial::{memory, waiting};

// LSR says whether a byte waits, of n, and that the transmitter is empty.
fn status(n: usize) -> u8
    ensures { (q : List ℕ) → length q ≡ n → result ≡ cond (some q) 0x61 0x60 }
{
    if n == 0 { 0x60 } else { 0x61 }
}

// All clauses. LCR, MCR, SCR and the divisor may be any bytes, and so may those that wait.
pub fn is_reachable(saved: &Regs, bytes: &[u8]) -> bool
    requires { length bytes.now ≤ size_of saved.now }
    ensures { (result ≡ true) ↔ ReachableSaved saved.now bytes.now }
{
    let ier = saved[IER];
    let iir = saved[IIR];
    let fcr = saved[FCR];
    let n = bytes.len();
    if 16 <= ier {
        return false;
    }
    if fcr & 0xc9 != fcr {
        return false;
    }
    if saved[MSR] != 0xb0 {
        return false;
    }
    if saved[LSR] != status(n) {
        return false;
    }
    if iir != interrupts::settled(ier, iir, n != 0) {
        return false;
    }
    if !waiting::is_size(waiting::size(saved)) {
        return false;
    }
    memory::are_spares_zero(saved)
}
