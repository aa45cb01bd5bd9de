// A PL031 real time clock that lies in eight words of the caller's memory: four registers, how many seconds the clock is ahead
// of the host's time, a signed number of 64 bits in two halves, and two spare words. Any eight words are some clock, so no state
// is refused. The host hands its time to each access; nothing here asks for it.
#![tactic(auto)]

ghost use Rattle.std.specs.Prelude.{◌≡◌, ◌-◌, ◌/◌, ◌%◌, ◌^◌, ◌≤◌, [], ◌∷◌, length, pos, ◌-ℤ◌, slice_index};
ghost use Rattle.common.specs.Bytes.{value_of};
ghost use Rattle.clock.specs.Registers.{shown, ids, says, becomes, with_lr, read_of, write_of};
ghost use Rattle.clock.specs.Layout.{Words, joined, signed, clock_of, spare_is_zero, reply_of, Inits, Reads, Writes};

use common::answer::REFUSED;

// ---- The clock's memory

// Words, and an index for each: this is what a host lends through C.
pub type Clock = [u32; 8];

pub const LOAD: usize = 0;

pub const MATCH: usize = 1;

pub const MASK: usize = 2;

pub const RAW_STATUS: usize = 3;

pub const AHEAD_LOW: usize = 4;

pub const AHEAD_HIGH: usize = 5;

// Two spare words: 0 in a fresh clock, and left alone.
pub const SPARE_FIRST: usize = 6;

pub const SPARE_LAST: usize = 7;

// ---- Answers

// Words, as a host gets them through C.
const VALID: u32 = 0;

// ---- The registers' offsets, by the manual's names

const RTCDR: u16 = 0x000;

const RTCMR: u16 = 0x004;

const RTCLR: u16 = 0x008;

const RTCCR: u16 = 0x00c;

const RTCIMSC: u16 = 0x010;

const RTCRIS: u16 = 0x014;

const RTCMIS: u16 = 0x018;

const RTCICR: u16 = 0x01c;

const ID_FIRST: u16 = 0xfe0;

const ID_LAST: u16 = 0xfff;

// ---- A register's number in four bytes, lowest byte first

// A valid read: puts `value` into the caller's bytes.
fn answer(bytes: &mut [u8; 4], value: u32) -> u32
    ensures { Reads (says value) bytes.old bytes.new result }
{
    *bytes = value.to_le_bytes();
    VALID
}

// ---- Time

// The host's time as the clock takes it: its lowest 32 bits.
fn seconds(time: u64) -> u32
    ensures { result ≡ time % 2 ^ 32 }
{
    (time % 0x1_0000_0000) as u32
}

pub fn join(low: u32, high: u32) -> u64
    ensures { result ≡ joined low high }
{
    u64::from(low) + 0x1_0000_0000 * u64::from(high)
}

// What the clock shows. Two's complement wraps, so the wrapped sum is below 2^32 exactly where the true sum is not negative
// and fits 32 bits.
fn counter(now: u32, low: u32, high: u32) -> u32
    ensures { result ≡ shown now (signed (joined low high)) }
{
    let sum = u64::from(now).wrapping_add(join(low, high));
    u32::try_from(sum).unwrap_or(now)
}

// How many seconds a clock that shows `value` is ahead of `now`.
fn difference(value: u32, now: u32) -> u64
    ensures { signed result ≡ pos value -ℤ pos now }
{
    u64::from(value).wrapping_sub(u64::from(now))
}

// A valid write that changes the load register, and how far the clock is ahead.
fn adjust(clock: &mut Clock, load: u32, ahead: u64) -> u32
    ensures { Writes (becomes (with_lr (clock_of clock.old) load (signed ahead))) clock.old
        clock.new result }
{
    clock[LOAD] = load;
    clock[AHEAD_LOW] = (ahead % 0x1_0000_0000) as u32;
    clock[AHEAD_HIGH] = (ahead / 0x1_0000_0000) as u32;
    VALID
}

// ---- Identification

const IDS: [u32; 8] = [0x31, 0x10, 0x04, 0x00, 0x0d, 0xf0, 0x05, 0xb1];

fn identity(offset: u16) -> u32
    requires { (0xfe0 ≤ offset) × (offset ≤ 0xfff) }
    ensures { result ≡ slice_index ids ((offset - 0xfe0) / 4) }
{
    IDS[usize::from((offset - ID_FIRST) / 4)]
}

// ---- The spare words

pub fn spare_is_zero(clock: &Clock) -> bool
    ensures { result ≡ spare_is_zero clock.now }
{
    clock[SPARE_FIRST] == 0 && clock[SPARE_LAST] == 0
}

// ---- What a register says

// None: there is no such register to read.
fn register(clock: &Clock, offset: u16, time: u64) -> Option<u32>
    ensures { reply_of result ≡ read_of (clock_of clock.now) time offset }
{
    // By itself and first: it is what guests read again and again.
    if offset == RTCDR {
        return Some(counter(seconds(time), clock[AHEAD_LOW], clock[AHEAD_HIGH]));
    }
    match offset {
        RTCMR => Some(clock[MATCH]),
        RTCLR => Some(clock[LOAD]),
        RTCCR => Some(1),
        RTCIMSC => Some(clock[MASK]),
        RTCRIS => Some(clock[RAW_STATUS]),
        RTCMIS => Some(clock[RAW_STATUS] & clock[MASK]),
        ID_FIRST..=ID_LAST => Some(identity(offset)),
        _ => None,
    }
}

// ---- The entry points

// Makes the eight words a fresh clock, whatever they were.
pub fn init(clock: &mut Clock)
    ensures { Inits clock.new }
{
    *clock = [0; 8];
}

// The guest reads at `offset` while the host's clock says `time`, in seconds. VALID: the register's number is in `bytes`.
// REFUSED: `bytes` are as they were.
pub fn read(clock: &Clock, offset: u16, time: u64, bytes: &mut [u8; 4]) -> u32
    ensures { Reads (read_of (clock_of clock.now) time offset) bytes.old bytes.new result }
{
    match register(clock, offset, time) {
        Some(value) => answer(bytes, value),
        None => REFUSED,
    }
}

// The guest writes `bytes` at `offset` while the host's clock says `time`, in seconds. REFUSED: nothing changed.
pub fn write(clock: &mut Clock, offset: u16, time: u64, bytes: &[u8; 4]) -> u32
    ensures { Writes (write_of (clock_of clock.old) time offset (value_of bytes.now)) clock.old
        clock.new result }
{
    let value = u32::from_le_bytes(*bytes);
    match offset {
        RTCMR => {
            clock[MATCH] = value;
            VALID
        }
        RTCLR => adjust(clock, value, difference(value, seconds(time))),
        RTCCR => {
            if value == 1 {
                adjust(clock, 0, 0)
            } else {
                VALID
            }
        }
        RTCIMSC => {
            clock[MASK] = value % 2;
            VALID
        }
        RTCICR => {
            clock[RAW_STATUS] &= !value;
            VALID
        }
        _ => REFUSED,
    }
}
