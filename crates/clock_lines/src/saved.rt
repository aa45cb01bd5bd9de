// The lines that save the clock and restore it.
ghost use Rattle.std.specs.Prelude.{◌+◌, ◌≤◌, ◌≡◌, ◌++◌, length};
ghost use Rattle.clock_lines.specs.Answers.{Answers, asks_saved, asks_kept, save, restore, restore_says, word_at, words_in};

use crate::{Clocks, state};
use clock::Clock;
use common::answer::REACHABLE;
use words::hex::byte_at;
use words::out::Out;
use words::pattern::fits;

impl Clocks {
    #[tactic(auto, using(std::proofs::Common::append_assoc), unfolding(crate::specs::Answers::asks_saved))]
    pub(crate) fn answer_saved(&mut self, line: &[u8], out: &mut Out)
        requires { length out.old + 4096 ≤ 65536 }
        ensures { Answers (asks_saved self.old line.now) self.old out.old self.new out.new }
    {
        if fits(line, b"save") {
            self.save(out);
        } else if fits(line, b"restore") {
            self.restore_kept(out);
        } else if fits(
            line,
            b"restore LLLLLLLL OOOOOOOOOOOOOOOO MMMMMMMM KKKKKKKK RRRRRRRR",
        ) {
            self.restore(&words_in(line), out);
        } else {
            out.unknown();
        }
    }

    fn save(&mut self, out: &mut Out)
        requires { length out.old + 4096 ≤ 65536 }
        ensures { Answers save self.old out.old self.new out.new }
    {
        let mut saved: Clock = [0; 8];
        clock_saved::save(&self.clock, &mut saved);
        self.kept = Some(saved);
        state(b"save", &self.clock, out);
    }

    // `restore`, of the clock that was saved last, if one was.
    fn restore_kept(&mut self, out: &mut Out)
        requires { length out.old + 4096 ≤ 65536 }
        ensures { Answers (asks_kept self.old.kept) self.old out.old self.new out.new }
    {
        match self.kept {
            Some(saved) => {
                self.restore(&saved, out);
            }
            None => {
                out.unknown();
            }
        }
    }

    fn restore(&mut self, saved: &Clock, out: &mut Out)
        requires { length out.old + 4096 ≤ 65536 }
        ensures { Answers (restore saved.now) self.old out.old self.new out.new }
    {
        let answer = clock_saved::restore(&mut self.clock, saved);
        put_restore(out, answer == REACHABLE);
    }
}

// Whether a run could have reached the clock that was restored.
fn put_restore(out: &mut Out, reached: bool)
    requires { length out.old + 18 ≤ 65536 }
    ensures says { out.new ≡ out.old ++ (restore_says reached) }
    ensures upper_bound { length out.new ≤ length out.old + 18 }
{
    if reached {
        out.put(b"restore reached\n");
    } else {
        out.put(b"restore unreached\n");
    }
}

// LOAD, MATCH, MASK, RAW and the two halves of OFFSET, the lower first; the spare words are 0.
fn words_in(line: &[u8]) -> Clock
    ensures { result ≡ words_in line.now }
{
    [
        word_at(line, 8),
        word_at(line, 34),
        word_at(line, 43),
        word_at(line, 52),
        word_at(line, 25),
        word_at(line, 17),
        0,
        0,
    ]
}

// The number of the eight digits of `line` at `i`.
fn word_at(line: &[u8], i: usize) -> u32
    requires { i ≤ 60 }
    ensures { result ≡ word_at line.now i }
{
    u32::from_be_bytes([
        byte_at(line, i),
        byte_at(line, i + 2),
        byte_at(line, i + 4),
        byte_at(line, i + 6),
    ])
}
