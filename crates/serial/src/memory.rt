// The memory that a host lends for a port: its types, and where each register and position lies in it.
// Three arrays side by side, and indices into them: so the interface for C lends them.
ghost use Rattle.std.specs.Prelude.{◌≡◌, ◌≤◌, length, get_or, ◌↔◌, true};
ghost use Rattle.serial.specs.Layout.{places, spare_registers, fresh_spare_registers};

// Registers 10 to 14 are spare.
pub type Regs = [u8; 16];

// Where the first waiting byte lies and how many wait; two are spare.
pub type Pos = [u32; 4];

// The places in which bytes wait.
pub type Ring = ring::Ring;

pub const PLACES: u32 = ring::PLACES;

// A register lies at its offset; the divisor's two bytes share offsets and lie at the ends.
pub const DLL: usize = 0;

pub const IER: usize = 1;

pub const IIR: usize = 2;

pub const LCR: usize = 3;

pub const MCR: usize = 4;

pub const LSR: usize = 5;

pub const MSR: usize = 6;

pub const SCR: usize = 7;

pub const DLM: usize = 8;

// What is remembered of FCR.
pub const FCR: usize = 9;

// From here on the registers are spare, up to the one that tells the size.
const SPARE: usize = 10;

pub const SIZE: usize = 15;

pub const START: usize = 0;

pub const COUNT: usize = 1;

// The spare registers are 0, as in a fresh port. All at once: what an iterator over a slice gives lies otherwise in
// the memory of WebAssembly.
pub fn are_spares_zero(regs: &Regs) -> bool
    ensures { (result ≡ true) ↔ (spare_registers regs.now ≡ fresh_spare_registers) }
{
    matches!(&regs[SPARE..SIZE], [0, 0, 0, 0, 0])
}

// The register that lies at an offset.
pub fn at(regs: &Regs, offset: u8) -> u8
    requires { offset ≤ 8 }
    ensures { result ≡ get_or regs.now offset 0 }
{
    regs[usize::from(offset)]
}
