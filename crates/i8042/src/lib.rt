// The corner of an i8042 that resets the machine. It keeps no state: a host hands each access of the
// guest to these two functions and acts on the answer.
#![tactic(auto)]

ghost use Rattle.std.specs.Prelude.{◌≡◌};
ghost use Rattle.i8042.specs.I8042.{read_of, write_resets};

// Offsets count from port 0x60, so this is port 0x64.
const COMMAND_PORT: u8 = 4;

// The command that pulses the processor's reset line alone.
const PULSE_RESET: u8 = 0xfe;

// What the guest reads at `offset`.
pub fn read(offset: u8) -> u8
    ensures { result ≡ read_of offset }
{
    0
}

// Whether the guest asks for a reset of the machine by writing `value` at `offset`.
pub fn write(offset: u8, value: u8) -> bool
    ensures { result ≡ write_resets offset value }
{
    offset == COMMAND_PORT && value == PULSE_RESET
}
