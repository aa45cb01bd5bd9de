// The versions of the form that are read, and what lies where in them.
ghost use Rattle.std.specs.Prelude.{◌≡◌, ◌≤◌, length};
ghost use Rattle.serial_form.specs.Form.{start, saved_in};
ghost use Rattle.serial_form.specs.Inside.{version_of, Known};

use crate::put;
use common::form::Reason;
use serial::memory;
use serial::memory::Regs;

// The version that is written, and the one before it, which is read too.
pub const CURRENT: u16 = 3;

const BEFORE: u16 = 2;

// ---- Where the parts of a form begin

pub const REGISTERS: usize = 2;

pub const SIZE: usize = 12;

pub const COUNT: usize = 13;

pub const WAITING: usize = 15;

// And in version 2.
const COUNT_2: usize = 11;

const WAITING_2: usize = 13;

// The registers before the spare ones.
pub const TEN: usize = 10;

#[derive(Clone, Copy)]
pub enum Version {
    Two,
    Three,
}

impl TryFrom<u16> for Version {
    type Error = Reason;

    ghost try_from_gives = { Known };

    fn try_from(number: u16) -> Result<Version, Reason> {
        if number == CURRENT {
            return Ok(Version::Three);
        }
        if number == BEFORE {
            return Ok(Version::Two);
        }
        Err(Reason::Version)
    }
}

impl Version {
    // The waiting bytes are the last, from here on. Before them stands how many they are.
    pub fn start(self) -> usize
        ensures { result ≡ start (version_of self) }
    {
        match self {
            Version::Two => WAITING_2,
            Version::Three => WAITING,
        }
    }

    // Version 2 is of a port of 64, of whose FCR nothing is remembered.
    pub fn registers(self, form: &[u8]) -> Regs
        requires { start (version_of self) ≤ length form.now }
        ensures { result ≡ saved_in (version_of self) form.now }
    {
        let mut registers: Regs = [0; 16];
        match self {
            Version::Two => put(&mut registers, 0, &form[REGISTERS..COUNT_2]),
            Version::Three => {
                registers[memory::SIZE] = form[SIZE];
                put(&mut registers, 0, &form[REGISTERS..SIZE]);
            }
        }
        registers
    }
}
