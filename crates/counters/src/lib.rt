// What happened at a device, counted for its operator. A host hands each answer to these functions; one that does not want to know calls
// none of them. Counters lie in memory that the host lends, and any memory is some counters. A counter stops at the highest number.
#![tactic(auto)]

ghost use Rattle.std.specs.Prelude.{◌≡◌, length};
ghost use Rattle.common.specs.Bits.{on};
ghost use Rattle.counters.specs.Counters.{counted, answered, lost, fresh_serial, serial_of, SerialCounts};
ghost use Rattle.counters.specs.Counters.{read, write, fresh_clock, clock_of, ClockCounts};

use common::answer::{DATA_READ, NONE_LEFT, REFUSED, SENT};

// ---- The counters' memory

// Arrays, and a place for each counter: this is what a host lends through C.

pub type SerialCounters = [u64; 4];

pub const DATA_READS: usize = 0;

pub const BYTES_SENT: usize = 1;

pub const BYTES_LOST: usize = 2;

pub const NONE_LEFT_READS: usize = 3;

pub type ClockCounters = [u64; 2];

pub const INVALID_READS: usize = 0;

pub const INVALID_WRITES: usize = 1;

// ---- One counter

// One more where it happened.
fn count(counter: &mut u64, happened: bool)
    ensures { counter.new ≡ counted counter.old happened }
{
    *counter = counter.saturating_add(u64::from(happened));
}

// Whether an answer has a bit.
fn says(answer: u32, bit: u32) -> bool
    ensures { result ≡ on answer bit }
{
    answer & bit != 0
}

// ---- The serial port

pub fn serial_init(counters: &mut SerialCounters)
    ensures { serial_of counters.new ≡ fresh_serial }
{
    *counters = [0; 4];
}

// Any answer of the port: those to a read and a write have something to count.
pub fn serial_count(counters: &mut SerialCounters, answer: u32)
    ensures { SerialCounts counters.old (answered answer) counters.new }
{
    count(&mut counters[DATA_READS], says(answer, DATA_READ));
    count(&mut counters[BYTES_SENT], says(answer, SENT));
    count(&mut counters[NONE_LEFT_READS], says(answer, NONE_LEFT));
}

// The sink did not take a byte. It was counted as sent, and stays so.
pub fn serial_lost(counters: &mut SerialCounters)
    ensures { SerialCounts counters.old lost counters.new }
{
    count(&mut counters[BYTES_LOST], true);
}

// ---- The clock

pub fn clock_init(counters: &mut ClockCounters)
    ensures { clock_of counters.new ≡ fresh_clock }
{
    *counters = [0; 2];
}

// The answer to a read.
pub fn clock_count_read(counters: &mut ClockCounters, answer: u32)
    ensures { ClockCounts counters.old (read answer) counters.new }
{
    count(&mut counters[INVALID_READS], says(answer, REFUSED));
}

// The answer to a write.
pub fn clock_count_write(counters: &mut ClockCounters, answer: u32)
    ensures { ClockCounts counters.old (write answer) counters.new }
{
    count(&mut counters[INVALID_WRITES], says(answer, REFUSED));
}
