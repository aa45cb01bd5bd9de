// The PL031 clock.
ghost use Rattle.std.specs.Prelude.{◌≡◌};
ghost use Rattle.common.specs.Bytes.{value_of};
ghost use Rattle.clock.specs.Registers.{read_of, write_of};
ghost use Rattle.clock.specs.Layout.{clock_of, Inits, Reads, Writes};
ghost use Rattle.clock_saved.specs.Saved.{Restores};
ghost use Rattle.clock_form.specs.Form.{read_form};
ghost use Rattle.clock_form.specs.Calls.{Encodes, Decodes};

use clock::Clock;

#[unsafe(no_mangle)]
pub extern "C" fn serialpost5_clock_init(clock: &mut Clock)
    ensures { Inits clock.new }
{
    serialpost::real_time_clock::serialpost5_clock_init(clock);
}

#[unsafe(no_mangle)]
pub extern "C" fn serialpost5_clock_read(
    clock: &Clock,
    offset: u16,
    time: u64,
    bytes: &mut [u8; 4],
) -> u32
    ensures { Reads (read_of (clock_of clock.now) time offset) bytes.old bytes.new result }
{
    serialpost::real_time_clock::serialpost5_clock_read(clock, offset, time, bytes)
}

#[unsafe(no_mangle)]
pub extern "C" fn serialpost5_clock_write(
    clock: &mut Clock,
    offset: u16,
    time: u64,
    bytes: &[u8; 4],
) -> u32
    ensures { Writes (write_of (clock_of clock.old) time offset (value_of bytes.now)) clock.old
        clock.new result }
{
    serialpost::real_time_clock::serialpost5_clock_write(clock, offset, time, bytes)
}

#[unsafe(no_mangle)]
pub extern "C" fn serialpost5_clock_save(clock: &Clock, saved: &mut Clock)
    ensures { saved.new ≡ clock.now }
{
    serialpost::real_time_clock::serialpost5_clock_save(clock, saved);
}

#[unsafe(no_mangle)]
pub extern "C" fn serialpost5_clock_restore(clock: &mut Clock, saved: &Clock) -> u32
    ensures { Restores saved.now clock.new result }
{
    serialpost::real_time_clock::serialpost5_clock_restore(clock, saved)
}

#[unsafe(no_mangle)]
pub extern "C" fn serialpost5_clock_encode(saved: &Clock, form: &mut [u8]) -> u32
    ensures { Encodes saved.now form.old form.new result }
{
    serialpost::real_time_clock::serialpost5_clock_encode(saved, form)
}

#[unsafe(no_mangle)]
pub extern "C" fn serialpost5_clock_decode(form: &[u8], saved: &mut Clock) -> u32
    ensures { Decodes (read_form form.now) saved.old saved.new result }
{
    serialpost::real_time_clock::serialpost5_clock_decode(form, saved)
}
