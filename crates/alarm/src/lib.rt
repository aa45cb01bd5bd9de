// The clock's alarm: functions of numbers, which know no clock.
#![tactic(auto)]

ghost use Rattle.std.specs.Prelude.{◌≡◌, ◌≤◌};
ghost use Rattle.alarm.specs.Alarm.{reaches, known, comes_from, comes, raw_after, is_high, rises};

// What is known of the clock's value before now: nothing; what it showed when it was looked at; what it
// showed when the guest set it. Numbers, for what keeps them is memory of the host.
pub const UNKNOWN: u32 = 0;

pub const LOOKED: u32 = 1;

pub const SET: u32 = 2;

// The same, of any number.
#[derive(Clone, Copy)]
enum Watch {
    Unknown,
    Looked,
    Set,
}

impl From<u32> for Watch {
    ghost from_gives = { λ number watch. watch ≡ known number };

    fn from(number: u32) -> Self {
        match number {
            UNKNOWN => Watch::Unknown,
            LOOKED => Watch::Looked,
            _ => Watch::Set,
        }
    }
}

fn reaches(last: u32, at: u32, value: u32) -> bool
    ensures { result ≡ reaches last at value }
{
    value == at || last <= at && at <= value
}

// Whether the clock, which shows `value`, has come to the match register `at`.
fn comes(last: u32, watch: Watch, at: u32, value: u32) -> bool
    ensures { result ≡ comes_from watch last at value }
{
    match watch {
        Watch::Unknown => value == at && 0 < at,
        Watch::Looked => last != at && reaches(last, at, value),
        Watch::Set => reaches(last, at, value),
    }
}

// The raw status after the clock was looked at.
pub fn raw_after(last: u32, watch: u32, at: u32, value: u32, raw: u32) -> u32
    ensures { result ≡ raw_after (comes last watch at value) raw }
{
    if comes(last, Watch::from(watch), at, value) {
        raw | 1
    } else {
        raw
    }
}

// Whether the interrupt line is high.
pub fn is_high(raw: u32, mask: u32) -> bool
    ensures { result ≡ is_high raw mask }
{
    raw & mask != 0
}

// How often to raise the interrupt.
pub fn rises(before: bool, after: bool) -> u32
    ensures value { result ≡ rises before after }
    ensures upper_bound { result ≤ 1 }
{
    u32::from(!before && after)
}
