// What happened at a device, counted.
ghost use Rattle.std.specs.Prelude.{◌≡◌};
ghost use Rattle.counters.specs.Counters.{answered, lost, fresh_serial, serial_of, SerialCounts};
ghost use Rattle.counters.specs.Counters.{read, write, fresh_clock, clock_of, ClockCounts};

use counters::{ClockCounters, SerialCounters};

#[unsafe(no_mangle)]
pub extern "C" fn serialpost5_serial_counters_init(counters: &mut SerialCounters)
    ensures { serial_of counters.new ≡ fresh_serial }
{
    serialpost::counting::serialpost5_serial_counters_init(counters);
}

#[unsafe(no_mangle)]
pub extern "C" fn serialpost5_serial_count(counters: &mut SerialCounters, answer: u32)
    ensures { SerialCounts counters.old (answered answer) counters.new }
{
    serialpost::counting::serialpost5_serial_count(counters, answer);
}

#[unsafe(no_mangle)]
pub extern "C" fn serialpost5_serial_lost(counters: &mut SerialCounters)
    ensures { SerialCounts counters.old lost counters.new }
{
    serialpost::counting::serialpost5_serial_lost(counters);
}

#[unsafe(no_mangle)]
pub extern "C" fn serialpost5_clock_counters_init(counters: &mut ClockCounters)
    ensures { clock_of counters.new ≡ fresh_clock }
{
    serialpost::counting::serialpost5_clock_counters_init(counters);
}

#[unsafe(no_mangle)]
pub extern "C" fn serialpost5_clock_count_read(counters: &mut ClockCounters, answer: u32)
    ensures { ClockCounts counters.old (read answer) counters.new }
{
    serialpost::counting::serialpost5_clock_count_read(counters, answer);
}

#[unsafe(no_mangle)]
pub extern "C" fn serialpost5_clock_count_write(counters: &mut ClockCounters, answer: u32)
    ensures { ClockCounts counters.old (write answer) counters.new }
{
    serialpost::counting::serialpost5_clock_count_write(counters, answer);
}
