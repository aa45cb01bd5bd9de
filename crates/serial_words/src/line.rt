// What a line asks for. It is told from the line alone, before a port is lent.
ghost use Rattle.std.specs.Prelude.{◌≡◌};
ghost use Rattle.serial_words.specs.Lines.{line_of, saved_line_of};

use words::hex::byte_at;
use words::pattern::{begins, fits};

#[derive(Clone, Copy)]
pub enum Line {
    // `save`.
    Save,
    // `restore` alone, of the port that was saved last.
    Kept,
    OfPort(Access),
}

// What speaks of the port alone, and of none that was saved.
#[derive(Clone, Copy)]
pub enum Access {
    Write(u8, u8),
    Read(u8),
    // `b`, without and with bytes.
    InputNone,
    InputBytes,
    Room,
    State,
    // Whether the interrupt line is high.
    Level,
    // `restore` with registers, without and with bytes.
    RestoreNone,
    RestoreBytes,
    Unknown,
}

#[tactic(auto, unfolding(crate::specs::Lines::line_of))]
pub fn parse(line: &[u8]) -> Line
    ensures { result ≡ line_of line.now }
{
    if fits(line, b"w OO VV") {
        Line::OfPort(Access::Write(byte_at(line, 2), byte_at(line, 5)))
    } else if fits(line, b"r OO") {
        Line::OfPort(Access::Read(byte_at(line, 2)))
    } else if fits(line, b"b") {
        Line::OfPort(Access::InputNone)
    } else if begins(line, b"b ") {
        Line::OfPort(Access::InputBytes)
    } else if fits(line, b"room") {
        Line::OfPort(Access::Room)
    } else if fits(line, b"state") {
        Line::OfPort(Access::State)
    } else if fits(line, b"line") {
        Line::OfPort(Access::Level)
    } else {
        parse_saved(line)
    }
}

#[tactic(auto, unfolding(crate::specs::Lines::saved_line_of))]
fn parse_saved(line: &[u8]) -> Line
    ensures { result ≡ saved_line_of line.now }
{
    if fits(line, b"save") {
        Line::Save
    } else if fits(line, b"restore") {
        Line::Kept
    } else if fits(line, b"restore DD DD DD DD DD DD DD DD DD -") {
        Line::OfPort(Access::RestoreNone)
    } else if begins(line, b"restore DD DD DD DD DD DD DD DD DD ") {
        Line::OfPort(Access::RestoreBytes)
    } else {
        Line::OfPort(Access::Unknown)
    }
}
