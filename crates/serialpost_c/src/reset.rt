// The corner of an i8042 that resets the machine.
ghost use Rattle.std.specs.Prelude.{◌≡◌};
ghost use Rattle.i8042.specs.I8042.{read_of, write_resets};

#[unsafe(no_mangle)]
pub extern "C" fn serialpost5_i8042_read(offset: u8) -> u8
    ensures { result ≡ read_of offset }
{
    serialpost::reset::serialpost5_i8042_read(offset)
}

#[unsafe(no_mangle)]
pub extern "C" fn serialpost5_i8042_write(offset: u8, value: u8) -> bool
    ensures { result ≡ write_resets offset value }
{
    serialpost::reset::serialpost5_i8042_write(offset, value)
}
