// The lines of the serial port.
#![tactic(auto, using(std::proofs::Common::append_assoc))]

mod access;
mod counted;
pub mod kept;
mod saved;

ghost use Rattle.std.specs.Prelude.{◌+◌, ◌≤◌, ◌≡◌, true, false, None, length};
ghost use Rattle.serial.specs.Calls.{MakesFresh};
ghost use Rattle.serial.specs.Port.{is_size};
ghost use Rattle.counters.specs.Counters.{fresh_serial};
ghost use Rattle.serial_lines.specs.Answers.{AnswersHeld, Keeps, asks, port_in, word_then};
ghost use Rattle.serial_lines.specs.Counted.{AnswersPorts, counters_in};

use counters::SerialCounters;
use kept::Saved;
use serial_access::Port;
use serial_words::line;
use serial_words::line::Line;
use words::out::Out;
use words::pattern::fits;

// The serial port, and the one that was saved last, if one was.
#[derive(Clone, Copy)]
pub struct Held {
    pub port: Port,
    pub kept: Option<Saved>,
}

// The ports, and what was counted since the port was named.
#[derive(Clone, Copy)]
pub struct Ports {
    pub held: Held,
    pub counters: SerialCounters,
}

impl Ports {
    // No port was begun and none saved.
    pub fn start() -> Ports
        ensures { result.held.kept ≡ None }
    {
        Ports {
            held: Held {
                port: Port {
                    regs: [0; 16],
                    pos: [0; 4],
                    ring: [0; 1024],
                },
                kept: None,
            },
            counters: [0; 4],
        }
    }

    // Makes the serial port a fresh one of this size with nothing counted, and leaves what was saved.
    pub fn begin(&mut self, size: u32)
        requires { is_size size ≡ true }
        ensures makes_fresh { MakesFresh size self.new.held.port.regs self.new.held.port.pos }
        ensures keeps { Keeps false self.old.held self.new.held }
        ensures counters_value { counters_in self.new ≡ fresh_serial }
    {
        let port = &mut self.held.port;
        serial::init(&mut port.regs, &mut port.pos, size);
        counters::serial_init(&mut self.counters);
    }

    #[tactic(auto, using(std::proofs::Common::append_assoc), unfolding(crate::specs::Counted::asked_of))]
    pub fn answer(&mut self, line: &[u8], out: &mut Out)
        requires { length out.old + 4096 ≤ 65536 }
        ensures { AnswersPorts line.now self.old out.old self.new out.new }
    {
        if fits(line, b"counters") {
            self.show(out);
        } else if fits(line, b"lost") {
            self.lost(out);
        } else {
            self.count(line, out);
        }
    }
}

impl Held {
    // The answer: the word of an access, or 0.
    fn answer(&mut self, line: &[u8], out: &mut Out) -> u32
        requires { length out.old + 4096 ≤ 65536 }
        ensures answers_held { AnswersHeld line.now self.old out.old self.new out.new }
        ensures word_value { result ≡ word_then (asks self.old line.now) (port_in self.old) }
    {
        match line::parse(line) {
            Line::Save => self.save(out),
            Line::Kept => self.restore_kept(out),
            Line::OfPort(access) => {
                return access::answer(access, line, &mut self.port, out);
            }
        }
        0
    }
}
