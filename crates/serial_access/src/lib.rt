// The accesses of the serial port and the input to it, each with its answer.
#![tactic(auto, using(std::proofs::Common::append_assoc))]

ghost use Rattle.std.specs.Prelude.{ℕ, ◌+◌, ◌≤◌, List, ◌++◌, ◌≡◌, length};
ghost use Rattle.serial.specs.Layout.{port_of};
ghost use Rattle.serial.specs.Port.{read_of, write_of, room_of, line};
ghost use Rattle.serial.specs.Calls.{read_word, write_word};
ghost use Rattle.words.specs.Text.{text};
ghost use Rattle.serial_words.specs.Said.{port_says};
ghost use Rattle.serial_access.specs.Accesses.{DidRead, DidWrite, DidInput, room_says, line_says};

use common::answer::ONE_RAISE;
use serial::memory::{COUNT, Pos, Regs, Ring, START};
use serial_words::answer::{put_raises, put_sent, put_taken};
use serial_words::port::put_port;
use words::out::Out;

// A port, with its memory.
#[derive(Clone, Copy)]
pub struct Port {
    pub regs: Regs,
    pub pos: Pos,
    pub ring: Ring,
}

impl Port {
    // The answer: the word of the call.
    pub fn write(&mut self, offset: u8, value: u8, out: &mut Out) -> u32
        requires { length out.old + 4096 ≤ 65536 }
        ensures did_write { DidWrite offset value self.old.regs self.old.pos self.old.ring
            self.new.regs self.new.pos self.new.ring out.old out.new }
        ensures upper_bound { length out.new ≤ length out.old + 4096 }
        ensures word_value { result ≡ write_word (write_of (port_of self.old.regs self.old.pos self.old.ring) offset value) }
    {
        let does = serial::write(&mut self.regs, &mut self.pos, &mut self.ring, offset, value);
        out.put(b"w ");
        put_sent(out, does);
        put_raises(out, does / ONE_RAISE);
        does
    }

    // The answer: the word of the call.
    pub fn read(&mut self, offset: u8, out: &mut Out) -> u32
        requires { length out.old + 4096 ≤ 65536 }
        ensures did_read { DidRead offset self.old.regs self.old.pos self.old.ring
            self.new.regs self.new.pos self.new.ring out.old out.new }
        ensures upper_bound { length out.new ≤ length out.old + 4096 }
        ensures word_value { result ≡ read_word (read_of (port_of self.old.regs self.old.pos self.old.ring) offset) }
        ensures ring_kept { self.new.ring ≡ self.old.ring }
    {
        let reply = serial::read(&mut self.regs, &mut self.pos, &self.ring, offset);
        out.put(b"r ");
        out.put_byte((reply % 256) as u8);
        put_raises(out, reply / ONE_RAISE);
        reply
    }

    pub fn input(&mut self, bytes: &[u8], out: &mut Out)
        requires { length out.old + 4096 ≤ 65536 }
        ensures did_input { DidInput bytes.now self.old.regs self.old.pos self.old.ring
            self.new.regs self.new.pos self.new.ring out.old out.new }
        ensures upper_bound { length out.new ≤ length out.old + 4096 }
    {
        let took = serial::input(&mut self.regs, &mut self.pos, &mut self.ring, bytes);
        out.put(b"b ");
        put_taken(out, took % ONE_RAISE);
        put_raises(out, took / ONE_RAISE);
    }

    pub fn room(&self, out: &mut Out)
        requires { length out.old + 4096 ≤ 65536 }
        ensures by_index { (ring : List ℕ) → out.new ≡ out.old ++ room_says (room_of (port_of self.now.regs self.now.pos ring)) }
        ensures upper_bound { length out.new ≤ length out.old + 4096 }
    {
        out.put(b"room ");
        out.put_decimal(u64::from(serial::room(&self.regs, &self.pos)));
        out.put(b"\n");
    }

    pub fn state(&self, out: &mut Out)
        requires { length out.old + 4096 ≤ 65536 }
        ensures says { out.new ≡ out.old ++ (text "state" ++ port_says (port_of self.now.regs self.now.pos self.now.ring)) }
        ensures upper_bound { length out.new ≤ length out.old + 4096 }
    {
        out.put(b"state");
        put_port(
            out,
            &self.regs,
            self.pos[START],
            self.pos[COUNT],
            &self.ring,
        );
    }

    pub fn line(&self, out: &mut Out)
        requires { length out.old + 4096 ≤ 65536 }
        ensures by_index { (ring : List ℕ) → out.new ≡ out.old ++ line_says (line (port_of self.now.regs self.now.pos ring)) }
        ensures upper_bound { length out.new ≤ length out.old + 4096 }
    {
        if serial::line(&self.regs, &self.pos) {
            out.put(b"line 1\n");
        } else {
            out.put(b"line 0\n");
        }
    }
}
