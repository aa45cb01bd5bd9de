// A clock is saved and restored: its eight words. Any eight words are some clock, so every one is restored; the answer says
// whether a run from a fresh clock could have come to them.
#![tactic(auto)]

ghost use Rattle.std.specs.Prelude.{◌≡◌, true, ◌↔◌};
ghost use Rattle.clock.specs.Layout.{joined, signed};
ghost use Rattle.clock_saved.specs.Reachable.{ShowedAt, ReachableWords};
ghost use Rattle.clock_saved.specs.Saved.{Restores};

use clock::{AHEAD_HIGH, AHEAD_LOW, Clock, LOAD, MASK, RAW_STATUS, join, spare_is_zero};
use common::answer::REACHABLE;

// Whether a clock that is so far ahead showed `value` at some second of 32 bits. Two's complement wraps, so that second is the
// wrapped difference.
fn showed(value: u32, low: u32, high: u32) -> bool
    ensures { (result ≡ true) ↔ ShowedAt (signed (joined low high)) value }
{
    u64::from(value).wrapping_sub(join(low, high)) < 0x1_0000_0000
}

fn is_reachable(saved: &Clock) -> bool
    ensures { (result ≡ true) ↔ ReachableWords saved.now }
{
    saved[MASK] <= 1
        && saved[RAW_STATUS] == 0
        && spare_is_zero(saved)
        && showed(saved[LOAD], saved[AHEAD_LOW], saved[AHEAD_HIGH])
}

// ---- The entry points

// Copies the clock.
pub fn save(clock: &Clock, saved: &mut Clock)
    ensures { saved.new ≡ clock.now }
{
    *saved = *clock;
}

// Copies the clock back, and answers a word, as a host gets it through C. REACHABLE: a run from a fresh clock could have come to it.
pub fn restore(clock: &mut Clock, saved: &Clock) -> u32
    ensures { Restores saved.now clock.new result }
{
    *clock = *saved;
    if is_reachable(saved) { REACHABLE } else { 0 }
}
