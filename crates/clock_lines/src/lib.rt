// The lines of the clock.
#![tactic(auto, using(std::proofs::Common::append_assoc))]

mod saved;

ghost use Rattle.std.specs.Prelude.{◌+◌, ◌≤◌, ◌≡◌, false, ◌++◌, length, drop};
ghost use Rattle.clock.specs.Layout.{Inits};
ghost use Rattle.counters.specs.Counters.{clock_of, fresh_clock};
ghost use Rattle.words.specs.Decimal.{number_of};
ghost use Rattle.words.specs.Hex.{word_digits};
ghost use Rattle.words.specs.Text.{text};
ghost use Rattle.clock_lines.specs.Answers.{Answers, asks, asks_clock, asks_time, read, write, show_state, show_counters};
ghost use Rattle.clock_lines.specs.Answers.{offset_in, bytes_in, four_digits, read_said, write_said, state_says, counters_say};

use clock::{AHEAD_HIGH, AHEAD_LOW, Clock, LOAD, MASK, MATCH, RAW_STATUS};
use common::answer::REFUSED;
use counters::{ClockCounters, INVALID_READS, INVALID_WRITES};
use words::decimal;
use words::hex::byte_at;
use words::out::Out;
use words::pattern::{begins, fits};

// The clock and the host's time, the clock that was saved last, if one was, and what was counted since
// the clock was named.
#[derive(Clone, Copy)]
pub struct Clocks {
    pub clock: Clock,
    pub time: u64,
    pub kept: Option<Clock>,
    pub counters: ClockCounters,
}

impl Clocks {
    // No clock was begun and none saved.
    pub fn start() -> Self
        ensures { result.kept ≡ None }
    {
        Clocks {
            clock: [0; 8],
            time: 0,
            kept: None,
            counters: [0; 2],
        }
    }

    // Makes the clock a fresh one, at the time 0, with nothing counted, and leaves what was saved.
    pub fn begin(&mut self)
        ensures inits { Inits self.new.clock × (self.new.time ≡ 0) }
        ensures kept_value { self.new.kept ≡ self.old.kept }
        ensures counters_value { clock_of self.new.counters ≡ fresh_clock }
    {
        clock::init(&mut self.clock);
        self.time = 0;
        counters::clock_init(&mut self.counters);
    }

    // Answers a line.
    #[tactic(auto, using(std::proofs::Common::append_assoc), unfolding(crate::specs::Answers::asks))]
    pub fn answer(&mut self, line: &[u8], out: &mut Out)
        requires { length out.old + 4096 ≤ 65536 }
        ensures { Answers (asks self.old line.now) self.old out.old self.new out.new }
    {
        if fits(line, b"counters") {
            self.show_counters(out);
        } else {
            self.answer_clock(line, out);
        }
    }

    #[tactic(auto, using(std::proofs::Common::append_assoc), unfolding(counters::specs::Counters::clock_of))]
    fn show_counters(&self, out: &mut Out)
        requires { length out.old + 4096 ≤ 65536 }
        ensures { Answers show_counters self.now out.old self.now out.new }
    {
        out.put(b"counters");
        out.put_next(self.counters[INVALID_READS]);
        out.put_next(self.counters[INVALID_WRITES]);
        out.put(b"\n");
    }

    #[tactic(auto, using(std::proofs::Common::append_assoc), unfolding(crate::specs::Answers::asks_clock))]
    fn answer_clock(&mut self, line: &[u8], out: &mut Out)
        requires { length out.old + 4096 ≤ 65536 }
        ensures { Answers (asks_clock self.old line.now) self.old out.old self.new out.new }
    {
        if fits(line, b"r OOOO BBBBBBBB") {
            self.read(offset_in(line), bytes_in(line), out);
        } else if fits(line, b"w OOOO BBBBBBBB") {
            self.write(offset_in(line), bytes_in(line), out);
        } else if begins(line, b"now ") {
            self.set_time(line, out);
        } else if fits(line, b"state") {
            self.show(out);
        } else {
            self.answer_saved(line, out);
        }
    }

    fn read(&mut self, offset: u16, mut bytes: [u8; 4], out: &mut Out)
        requires { length out.old + 4096 ≤ 65536 }
        ensures { Answers (read offset bytes) self.old out.old self.new out.new }
    {
        let answer = clock::read(&self.clock, offset, self.time, &mut bytes);
        counters::clock_count_read(&mut self.counters, answer);
        put_read(out, bytes, answer != REFUSED);
    }

    fn write(&mut self, offset: u16, bytes: [u8; 4], out: &mut Out)
        requires { length out.old + 4096 ≤ 65536 }
        ensures { Answers (write offset bytes) self.old out.old self.new out.new }
    {
        let answer = clock::write(&mut self.clock, offset, self.time, &bytes);
        counters::clock_count_write(&mut self.counters, answer);
        put_write(out, answer != REFUSED);
    }

    // `now T`.
    fn set_time(&mut self, line: &[u8], out: &mut Out)
        requires { length out.old + 4096 ≤ 65536 }
        ensures { Answers (asks_time (number_of (drop 4 line.now))) self.old out.old self.new out.new }
    {
        match decimal::parse_from(line, 4) {
            Some(now) => {
                self.time = now;
                out.put(b"now\n");
            }
            None => {
                out.unknown();
            }
        }
    }

    fn show(&self, out: &mut Out)
        requires { length out.old + 4096 ≤ 65536 }
        ensures { Answers show_state self.now out.old self.now out.new }
    {
        state(b"state", &self.clock, out);
    }
}

// OOOO, of `r OOOO BBBBBBBB` and `w OOOO BBBBBBBB`.
fn offset_in(line: &[u8]) -> u16
    ensures { result ≡ offset_in line.now }
{
    u16::from_be_bytes([byte_at(line, 2), byte_at(line, 4)])
}

// BBBBBBBB.
fn bytes_in(line: &[u8]) -> [u8; 4]
    ensures { result ≡ bytes_in line.now }
{
    [
        byte_at(line, 7),
        byte_at(line, 9),
        byte_at(line, 11),
        byte_at(line, 13),
    ]
}

// What a read left in the four bytes, and whether its offset was valid.
fn put_read(out: &mut Out, bytes: [u8; 4], valid: bool)
    requires { length out.old + 19 ≤ 65536 }
    ensures says { out.new ≡ out.old ++ (read_said bytes valid) }
    ensures upper_bound { length out.new ≤ length out.old + 19 }
{
    out.put(b"r ");
    put_bytes(out, bytes);
    if valid {
        out.put(b" ok\n");
    } else {
        out.put(b" invalid\n");
    }
}

// Puts the digits of four bytes in their order.
fn put_bytes(out: &mut Out, bytes: [u8; 4])
    requires { length out.old + 8 ≤ 65536 }
    ensures says { out.new ≡ out.old ++ (four_digits bytes) }
    ensures upper_bound { length out.new ≤ length out.old + 8 }
{
    out.put_byte(bytes[0]);
    out.put_byte(bytes[1]);
    out.put_byte(bytes[2]);
    out.put_byte(bytes[3]);
}

// Whether a write's offset was valid.
fn put_write(out: &mut Out, valid: bool)
    requires { length out.old + 10 ≤ 65536 }
    ensures says { out.new ≡ out.old ++ (write_said valid) }
    ensures upper_bound { length out.new ≤ length out.old + 10 }
{
    if valid {
        out.put(b"w ok\n");
    } else {
        out.put(b"w invalid\n");
    }
}

// After `name`: the load register, how far the clock is ahead of the host's time, the match register,
// the mask and the raw status.
fn state(name: &[u8], clock: &Clock, out: &mut Out)
    requires out_len_bound { length out.old + 4096 ≤ 65536 }
    requires name_len_bound { length name.now ≤ 5 }
    ensures says { out.new ≡ out.old ++ (state_says name.now clock.now) }
    ensures upper_bound { length out.new ≤ length out.old + 4096 }
{
    out.put(name);
    put_next_word(out, clock[LOAD]);
    put_next_word(out, clock[AHEAD_HIGH]);
    out.put_word(clock[AHEAD_LOW]);
    put_next_word(out, clock[MATCH]);
    put_next_word(out, clock[MASK]);
    put_next_word(out, clock[RAW_STATUS]);
    out.put(b"\n");
}

// Puts a space and the digits of a word. (As `Out::put_next` does of decimal numbers: a trait for both would be longer
// than both.)
fn put_next_word(out: &mut Out, word: u32)
    requires { length out.old + 9 ≤ 65536 }
    ensures says { out.new ≡ out.old ++ (text " " ++ word_digits word) }
    ensures upper_bound { length out.new ≤ length out.old + 9 }
{
    out.put(b" ");
    out.put_word(word);
}
