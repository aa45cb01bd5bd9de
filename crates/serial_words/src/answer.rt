// The parts of the word that a call of the port answers.
ghost use Rattle.std.specs.Prelude.{◌≡◌, ◌+◌, ◌≤◌, ◌++◌, length};
ghost use Rattle.serial_words.specs.Inside.{sent_part, taken_part, brought_part};
ghost use Rattle.serial_words.specs.Said.{raises_say};

use common::answer::{FLUSHED, ONE_RAISE, REACHABLE, REFUSED, SENT};
use words::out::Out;

// The byte that was sent by a write, of which `wrote` is the word, or how many bytes it threw away.
pub fn put_sent(out: &mut Out, wrote: u32)
    requires { length out.old + 21 ≤ 65536 }
    ensures says { out.new ≡ out.old ++ sent_part wrote }
    ensures upper_bound { length out.new ≤ length out.old + 21 }
{
    if wrote / FLUSHED % 2 == 1 {
        out.put(b"-");
        out.put_decimal(u64::from(wrote % REFUSED));
    } else if wrote / SENT % 2 == 0 {
        out.put(b"--");
    } else {
        out.put_byte((wrote % 256) as u8);
    }
}

// How many bytes were taken, or a number from `REFUSED` on for a full port.
pub fn put_taken(out: &mut Out, taken: u32)
    requires { length out.old + 20 ≤ 65536 }
    ensures says { out.new ≡ out.old ++ taken_part taken }
    ensures upper_bound { length out.new ≤ length out.old + 20 }
{
    if taken < REFUSED {
        out.put_decimal(u64::from(taken));
    } else {
        out.put(b"full");
    }
}

// Ends an answer with the number of interrupts that were raised.
pub fn put_raises(out: &mut Out, raises: u32)
    requires { length out.old + 22 ≤ 65536 }
    ensures says { out.new ≡ out.old ++ raises_say raises }
    ensures upper_bound { length out.new ≤ length out.old + 22 }
{
    out.put(b" ");
    out.put_decimal(u64::from(raises));
    out.put(b"\n");
}

// The answer to a restore, of which `brought` is the word.
pub fn put_brought(out: &mut Out, brought: u32)
    requires { length out.old + 39 ≤ 65536 }
    ensures says { out.new ≡ out.old ++ brought_part brought }
    ensures upper_bound { length out.new ≤ length out.old + 39 }
{
    if brought == REFUSED {
        out.put(b"restore full\n");
        return;
    }
    out.put(b"restore ");
    out.put_decimal(u64::from(brought / ONE_RAISE));
    if brought / REACHABLE % 2 == 1 {
        out.put(b" reached\n");
    } else {
        out.put(b" unreached\n");
    }
}
