// A serial port is saved and restored. The C interface lends the arrays side by side, and gets a word for an answer.
#![tactic(auto)]

mod reachable;

ghost use Rattle.std.specs.Prelude.{◌≡◌, List, ℕ, length};
ghost use Rattle.common.specs.Lists.{some};
ghost use Rattle.serial_saved.specs.Saved.{saved_of, raised_again};
ghost use Rattle.serial_saved.specs.Calls.{Saves, Restores};

use common::answer::{ONE_RAISE, REACHABLE, REFUSED};
use serial::memory::{COUNT, IER, IIR, Pos, Regs, Ring, START};
use serial::waiting::{count, size};

// The port as it stands: its registers, and the bytes that wait. The answer: how many bytes wait.
pub fn save(regs: &Regs, pos: &Pos, ring: &Ring, saved: &mut Regs, waiting: &mut Ring) -> u32
    ensures { Saves regs.now pos.now ring.now waiting.old
        saved.new waiting.new result }
{
    let n = count(pos);
    *saved = *regs;
    ring::unroll(ring, pos[START], n, waiting);
    n
}

// How often the interrupt is raised again; `waits` says whether a byte waits.
fn raises(saved: &Regs, waits: bool) -> u32
    ensures { (waiting : List ℕ) → some waiting ≡ waits → result ≡ length (raised_again (saved_of saved.now waiting)) }
{
    interrupts::raised_again(saved[IER], saved[IIR], waits)
}

// What was saved becomes the port. The answer: whether a run from a fresh port can have come to it,
// and the raises. More bytes than its size are refused.
pub fn restore(regs: &mut Regs, pos: &mut Pos, ring: &mut Ring, saved: &Regs, waiting: &[u8]) -> u32
    ensures { Restores regs.old pos.old ring.old saved.now waiting.now
        regs.new pos.new ring.new result }
{
    let len = waiting.len();
    if (size(saved) as usize) < len {
        return REFUSED;
    }
    *regs = *saved;
    pos[START] = 0;
    pos[COUNT] = len as u32;
    ring::fill(ring, 0, 0, waiting, len);
    let told = reachable::is_reachable(saved, waiting) as u32;
    REACHABLE * told + ONE_RAISE * raises(saved, len != 0)
}
