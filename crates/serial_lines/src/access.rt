// The lines that speak of the port alone.
ghost use Rattle.std.specs.Prelude.{◌+◌, ◌≤◌, ◌≡◌, length, drop};
ghost use Rattle.serial.specs.Layout.{port_of};
ghost use Rattle.serial_lines.specs.Answers.{AnswersPort, asks_port, asks_with, word_then, input};

use crate::saved::{regs_in, restore, restore_given};
use serial_access::Port;
use serial_words::line::Access;
use words::hex::bytes_from;
use words::out::Out;

// The answer: the word of an access, or 0, which tells the counters of nothing.
pub fn answer(access: Access, line: &[u8], port: &mut Port, out: &mut Out) -> u32
    requires { length out.old + 4096 ≤ 65536 }
    ensures answers_port { AnswersPort (asks_port access line.now) port.old port.new out.old out.new }
    ensures word_value { result ≡ word_then (asks_port access line.now) (port_of port.old.regs port.old.pos port.old.ring) }
{
    match access {
        Access::Write(offset, value) => return port.write(offset, value, out),
        Access::Read(offset) => return port.read(offset, out),
        Access::InputNone => port.input(b"", out),
        Access::InputBytes => input_of(line, port, out),
        Access::Room => port.room(out),
        Access::State => port.state(out),
        Access::Level => port.line(out),
        Access::RestoreNone => restore(port, &regs_in(line), b"", out),
        Access::RestoreBytes => restore_given(line, port, out),
        Access::Unknown => out.unknown(),
    }
    0
}

// `b HH..`, with one byte or more.
fn input_of(line: &[u8], port: &mut Port, out: &mut Out)
    requires { length out.old + 4096 ≤ 65536 }
    ensures { AnswersPort (asks_with (drop 2 line.now) input) port.old port.new out.old out.new }
{
    let mut bytes = io::buffer();
    match bytes_from(line, 2, &mut bytes) {
        Some(count) => port.input(&bytes[..count], out),
        None => out.unknown(),
    }
}
