// The lines that save the serial port and restore it.
ghost use Rattle.std.specs.Prelude.{ℕ, ◌+◌, ◌≤◌, ◌≡◌, List, length, drop};
ghost use Rattle.serial.specs.Layout.{spare_registers, fresh_spare_registers};
ghost use Rattle.serial_saved.specs.Saved.{saved_of};
ghost use Rattle.serial_lines.specs.Answers.{Answers, AnswersPort, Brought, asks_kept, asks_with, given_in, restore, save};

use crate::Held;
use crate::kept::Saved;
use serial::memory::Regs;
use serial_access::Port;
use serial_words::answer::put_brought;
use serial_words::port::put_port;
use words::hex::{byte_at, bytes_from};
use words::out::Out;

impl Held {
    // `save`.
    pub(crate) fn save(&mut self, out: &mut Out)
        requires { length out.old + 4096 ≤ 65536 }
        ensures { Answers save self.old out.old self.new out.new }
    {
        let mut regs = [0; 16];
        let mut waiting = [0; 1024];
        let port = &self.port;
        let count = serial_saved::save(&port.regs, &port.pos, &port.ring, &mut regs, &mut waiting);
        out.put(b"save");
        put_port(out, &regs, 0, count, &waiting);
        self.kept = Some(Saved {
            regs,
            waiting,
            count,
        });
    }

    // `restore`, of the port that was saved last, if one was.
    pub(crate) fn restore_kept(&mut self, out: &mut Out)
        requires { length out.old + 4096 ≤ 65536 }
        ensures { Answers (asks_kept self.old) self.old out.old self.new out.new }
    {
        let Some(saved) = &self.kept else {
            out.unknown();
            return;
        };
        let waiting = &saved.waiting[..saved.count as usize];
        restore(&mut self.port, &saved.regs, waiting, out);
    }
}

// `restore DL DH IER IIR LCR LSR MCR MSR SCR HH..`, with one byte or more.
pub fn restore_given(line: &[u8], port: &mut Port, out: &mut Out)
    requires { length out.old + 4096 ≤ 65536 }
    ensures { AnswersPort
        (asks_with (drop 35 line.now) (λ bytes. restore (given_in line.now bytes) fresh_spare_registers))
        port.old port.new out.old out.new }
{
    let mut bytes = io::buffer();
    match bytes_from(line, 35, &mut bytes) {
        Some(count) => restore(port, &regs_in(line), &bytes[..count], out),
        None => out.unknown(),
    }
}

// The registers of such a line, in the order in which they lie in memory; FCR and the spare ones
// are 0, and so is the one that tells the size: 64.
#[tactic(auto, unfolding(serial_saved::specs::Saved::saved_of, serial::specs::Layout::port_of))]
pub fn regs_in(line: &[u8]) -> Regs
    ensures by_index { (waiting : List ℕ) → saved_of result waiting ≡ given_in line.now waiting }
    ensures result_value { spare_registers result ≡ fresh_spare_registers }
{
    [
        byte_at(line, 8),
        byte_at(line, 14),
        byte_at(line, 17),
        byte_at(line, 20),
        byte_at(line, 26),
        byte_at(line, 23),
        byte_at(line, 29),
        byte_at(line, 32),
        byte_at(line, 11),
        0,
        0,
        0,
        0,
        0,
        0,
        0,
    ]
}

pub fn restore(port: &mut Port, saved: &Regs, waiting: &[u8], out: &mut Out)
    requires { length out.old + 4096 ≤ 65536 }
    ensures brought { Brought (saved_of saved.now waiting.now) (spare_registers saved.now) port.old port.new out.old out.new }
    ensures upper_bound { length out.new ≤ length out.old + 4096 }
{
    let brought = serial_saved::restore(
        &mut port.regs,
        &mut port.pos,
        &mut port.ring,
        saved,
        waiting,
    );
    put_brought(out, brought);
}
