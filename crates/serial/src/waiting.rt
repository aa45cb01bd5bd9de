// How many bytes wait, where the first lies, and how many may wait.
ghost use Rattle.std.specs.Prelude.{◌≡◌, true, ◌≤◌};
ghost use Rattle.serial.specs.Inside.{Taken};
ghost use Rattle.serial.specs.Port.{is_size};
ghost use Rattle.serial.specs.Layout.{places, size_by, size_of, count_of};

use crate::memory::{COUNT, PLACES, Pos, Regs, Ring, SIZE, START};

// The size that the register tells.
fn size_by(register: u8) -> u32
    ensures { result ≡ size_by register }
{
    (63 + 4 * u32::from(register)) % PLACES + 1
}

// How many bytes may wait.
pub fn size(regs: &Regs) -> u32
    ensures { result ≡ size_of regs.now }
{
    size_by(regs[SIZE])
}

// Whether a port is made with this size.
pub fn is_size(size: u32) -> bool
    ensures { result ≡ is_size size }
{
    matches!(size, 16 | 32 | 64 | 128 | 256 | 512 | 1024)
}

// The register that tells a size with which a port is made.
pub fn register_for(size: u32) -> u8
    requires { is_size size ≡ true }
    ensures { size_by result ≡ size }
{
    ((size + 960) / 4 % 256) as u8
}

// How many bytes wait; a number above the places counts as the places.
pub fn count(pos: &Pos) -> u32
    ensures { result ≡ count_of pos.now }
{
    pos[COUNT].min(PLACES)
}

// Whether n stands for itself and more than one byte waits.
pub fn several(n: u32) -> bool
    ensures { result ≡ true → (2 ≤ n) × (n ≤ places) }
{
    2 <= n && n <= PLACES
}

// Of n bytes that wait the first leaves.
pub fn take(pos: &mut Pos, ring: &Ring, n: u32) -> u8
    requires { 1 ≤ n }
    ensures { Taken pos.old ring.now n pos.new result }
{
    let start = pos[START];
    pos[START] = ring::next(start);
    pos[COUNT] = n - 1;
    ring::first(ring, start)
}
