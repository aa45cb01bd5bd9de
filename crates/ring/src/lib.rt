// A ring of 1,024 places: bytes lie one behind another from `start` on and go round at its end. Where they
// start and how many they are is told beside it: the interface for C lends that in memory of its own.
#![tactic(auto)]

ghost use Rattle.std.specs.Prelude.{◌≡◌, ◌+◌, ◌%◌, ◌<◌, ◌≤◌, [], ◌∷◌, length, take, slice_index};
ghost use Rattle.ring.specs.Ring.{places_here, Put, Unrolled};

pub type Ring = [u8; 1024];

pub const PLACES: u32 = 1024;

const ROUND: usize = PLACES as usize;

// The place of the byte behind the n that lie from `start` on.
fn place(start: u32, n: u32) -> usize
    requires { n ≤ places_here }
    ensures { result ≡ (start + n) % places_here }
{
    ((start % PLACES + n) % PLACES) as usize
}

// The start once the first byte has left. It goes round at 2^32, a multiple of the places: any number is a start.
pub fn next(start: u32) -> u32
    ensures { result % places_here ≡ (start + 1) % places_here }
{
    start.wrapping_add(1)
}

// The first byte.
pub fn first(ring: &Ring, start: u32) -> u8
    ensures { result ≡ slice_index ring.now (start % places_here) }
{
    ring[place(start, 0)]
}

// One byte goes behind the n that lie from `start` on.
pub fn push(ring: &mut Ring, start: u32, n: u32, byte: u8)
    requires { n < places_here }
    ensures { Put places_here ring.old start n (byte ∷ []) ring.new (n + 1) }
{
    ring[place(start, n)] = byte;
}

// The first k of some bytes go there. By index: what an iterator over a slice gives lies otherwise in the memory of
// WebAssembly.
pub fn fill(ring: &mut Ring, start: u32, n: u32, input: &[u8], k: usize)
    requires { (n + k ≤ places_here) × (k ≤ length input.now) }
    ensures { Put places_here ring.old start n (take k input.now) ring.new (n + k) }
{
    let from = place(start, n);
    for i in 0..k {
        ring[(from + i) % ROUND] = input[i];
    }
}

// The n bytes from `start` on leave the ring's order and lie from the first place on.
pub fn unroll(ring: &Ring, start: u32, n: u32, memory: &mut Ring)
    requires { n ≤ places_here }
    ensures { Unrolled places_here ring.now start n memory.old memory.new }
{
    let from = (start % PLACES) as usize;
    for i in 0..n as usize {
        memory[i] = ring[(from + i) % ROUND];
    }
}
