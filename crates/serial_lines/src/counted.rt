// What is counted: the lines that speak of it, and the accesses that are counted.
ghost use Rattle.std.specs.Prelude.{◌≡◌, ◌+◌, ◌≤◌, ◌++◌, length};
ghost use Rattle.counters.specs.Counters.{serial_of};
ghost use Rattle.serial_lines.specs.Answers.{asks};
ghost use Rattle.serial_lines.specs.Counted.{AnswersAsked, counters_say, show_counters, lost, of_ports};

use crate::Ports;
use counters::{BYTES_LOST, BYTES_SENT, DATA_READS, NONE_LEFT_READS, SerialCounters};
use words::out::Out;

impl Ports {
    // `counters`.
    pub(crate) fn show(&self, out: &mut Out)
        requires { length out.old + 4096 ≤ 65536 }
        ensures { AnswersAsked show_counters self.now out.old self.now out.new }
    {
        put_counters(&self.counters, out);
    }

    // `lost`: the host's sink did not take a byte.
    pub(crate) fn lost(&mut self, out: &mut Out)
        requires { length out.old + 4096 ≤ 65536 }
        ensures { AnswersAsked lost self.old out.old self.new out.new }
    {
        counters::serial_lost(&mut self.counters);
        out.put(b"lost\n");
    }

    // Any other line: the access that it makes, if it makes one, is counted.
    pub(crate) fn count(&mut self, line: &[u8], out: &mut Out)
        requires { length out.old + 4096 ≤ 65536 }
        ensures { AnswersAsked (of_ports (asks self.old.held line.now)) self.old out.old self.new out.new }
    {
        let word = self.held.answer(line, out);
        counters::serial_count(&mut self.counters, word);
    }
}

#[tactic(auto, using(std::proofs::Common::append_assoc), unfolding(counters::specs::Counters::serial_of))]
fn put_counters(counters: &SerialCounters, out: &mut Out)
    requires { length out.old + 4096 ≤ 65536 }
    ensures says { out.new ≡ out.old ++ counters_say (serial_of counters.now) }
    ensures upper_bound { length out.new ≤ length out.old + 4096 }
{
    out.put(b"counters");
    out.put_next(counters[DATA_READS]);
    out.put_next(counters[BYTES_SENT]);
    out.put_next(counters[BYTES_LOST]);
    out.put_next(counters[NONE_LEFT_READS]);
    out.put(b"\n");
}
