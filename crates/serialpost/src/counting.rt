// What happened at a device, counted.
ghost use Rattle.std.specs.Prelude.{◌≡◌};
ghost use Rattle.counters.specs.Counters.{answered, lost, fresh_serial, serial_of, SerialCounts};
ghost use Rattle.counters.specs.Counters.{read, write, fresh_clock, clock_of, ClockCounts};

use counters::{ClockCounters, SerialCounters};

pub fn serialpost5_serial_counters_init(counters: &mut SerialCounters)
    ensures { serial_of counters.new ≡ fresh_serial }
{
    counters::serial_init(counters);
}

pub fn serialpost5_serial_count(counters: &mut SerialCounters, answer: u32)
    ensures { SerialCounts counters.old (answered answer) counters.new }
{
    counters::serial_count(counters, answer);
}

pub fn serialpost5_serial_lost(counters: &mut SerialCounters)
    ensures { SerialCounts counters.old lost counters.new }
{
    counters::serial_lost(counters);
}

pub fn serialpost5_clock_counters_init(counters: &mut ClockCounters)
    ensures { clock_of counters.new ≡ fresh_clock }
{
    counters::clock_init(counters);
}

pub fn serialpost5_clock_count_read(counters: &mut ClockCounters, answer: u32)
    ensures { ClockCounts counters.old (read answer) counters.new }
{
    counters::clock_count_read(counters, answer);
}

pub fn serialpost5_clock_count_write(counters: &mut ClockCounters, answer: u32)
    ensures { ClockCounts counters.old (write answer) counters.new }
{
    counters::clock_count_write(counters, answer);
}
