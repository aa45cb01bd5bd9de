// IER, IIR and the interrupt line. Numbers go in and numbers come out: this crate knows no port and
// no memory. `waits` says whether a byte waits.
#![tactic(auto)]

ghost use Rattle.std.specs.Prelude.{◌≡◌, true, ◌&&◌, ◌≤◌};
ghost use Rattle.common.specs.Bits.{on};
ghost use Rattle.interrupts.specs.Interrupts.{received_data, transmitter_empty, newly};
ghost use Rattle.interrupts.specs.Interrupts.{ier_stored, is_enabled, is_high, code, settled};
ghost use Rattle.interrupts.specs.Interrupts.{identification, after_identification, after_data_read};
ghost use Rattle.interrupts.specs.Interrupts.{data_came, byte_sent, enabling, raised_again};
ghost use Rattle.interrupts.specs.Calls.{Tells, Quiet};

// No interrupt is pending, as in a fresh port.
pub const NONE_PENDING: u8 = 0x01;

// The bits of IER that enable each kind. Stored in IIR, `EMPTY` says that the transmitter's interrupt
// is pending; IIR answers it for that kind, and `DATA_SHOWN` for received data.
const DATA: u8 = 0x01;

const EMPTY: u8 = 0x02;

const DATA_SHOWN: u8 = 0x04;

// What is to be stored in IIR, and how often the interrupt is to be raised. Where nothing changes
// nothing need be stored.
#[derive(Clone, Copy)]
pub struct Told {
    pub iir: Option<u8>,
    pub raises: u32,
}

// IER keeps four bits.
#[tactic(auto, unfolding(crate::specs::Interrupts::ier_stored))]
pub fn ier_stored(value: u8) -> u8
    ensures { result ≡ ier_stored value }
{
    value & 0x0f
}

// Received data is active: it is enabled and a byte waits.
fn has_data(ier: u8, waits: bool) -> bool
    ensures { result ≡ (is_enabled ier received_data && waits) }
{
    ier & DATA != 0 && waits
}

// The empty transmitter is active: it is enabled and its bit is stored.
fn is_empty(ier: u8, iir: u8) -> bool
    ensures { result ≡ (is_enabled ier transmitter_empty && on iir 0x02) }
{
    ier & EMPTY != 0 && iir & EMPTY != 0
}

// No kind is enabled, so that none is active, whatever is pending. It may say no there too.
#[tactic(auto, using(crate::proofs::Laws::is_quiet))]
pub fn is_quiet(ier: u8) -> bool
    ensures { result ≡ true → Quiet ier }
{
    ier & (DATA | EMPTY) == 0
}

// Whether the interrupt line is high.
#[tactic(auto, unfolding(crate::specs::Interrupts::is_high))]
pub fn is_high(ier: u8, iir: u8, waits: bool) -> bool
    ensures { result ≡ is_high ier iir waits }
{
    has_data(ier, waits) || is_empty(ier, iir)
}

// The active kind of the highest priority.
#[tactic(auto, unfolding(crate::specs::Interrupts::code))]
fn code(ier: u8, iir: u8, waits: bool) -> u8
    ensures { result ≡ code ier iir waits }
{
    if has_data(ier, waits) {
        DATA_SHOWN
    } else if is_empty(ier, iir) {
        EMPTY
    } else {
        NONE_PENDING
    }
}

// What a port stores: a bit for each active kind. A match on both tests costs an instruction more at each
// input, or at each byte in the loop.
#[tactic(auto, unfolding(crate::specs::Interrupts::settled))]
pub fn settled(ier: u8, iir: u8, waits: bool) -> u8
    ensures { result ≡ settled ier iir waits }
{
    let empty = is_empty(ier, iir);
    if has_data(ier, waits) {
        if empty {
            DATA_SHOWN | EMPTY
        } else {
            DATA_SHOWN
        }
    } else if empty {
        EMPTY
    } else {
        NONE_PENDING
    }
}

// What a read of IIR answers: the FIFOs are always on.
pub fn identification(ier: u8, iir: u8, waits: bool) -> u8
    ensures { result ≡ identification ier iir waits }
{
    code(ier, iir, waits) | 0xc0
}

// What it leaves: the transmitter's interrupt is reset if that was the answer.
pub fn after_identification(ier: u8, iir: u8, waits: bool) -> u8
    ensures { result ≡ after_identification ier iir waits }
{
    if code(ier, iir, waits) == EMPTY {
        NONE_PENDING
    } else {
        iir
    }
}

// What a read of RBR leaves; `waits` is told of the bytes that are left.
pub fn after_data_read(ier: u8, iir: u8, waits: bool) -> u8
    ensures { result ≡ after_data_read ier iir waits }
{
    if waits { iir } else { settled(ier, iir, false) }
}

// 1 where a kind is active and was not, else 0.
fn newly(before: bool, after: bool) -> u32
    ensures value { result ≡ newly before after }
    ensures upper_bound { result ≤ 1 }
{
    u32::from(!before && after)
}

// Bytes have come to the receiver.
#[tactic(auto, using(crate::proofs::Laws::came_first))]
pub fn data_came(ier: u8, iir: u8, waits: bool) -> Told
    ensures { Tells (data_came ier iir waits) iir result.iir result.raises 1 }
{
    if waits {
        return Told {
            iir: None,
            raises: 0,
        };
    }
    Told {
        iir: Some(settled(ier, iir, true)),
        raises: newly(false, has_data(ier, true)),
    }
}

// A byte was sent: the empty transmitter is raised, unless it is pending or not enabled.
#[tactic(auto, using(crate::proofs::Laws::sent_told))]
pub fn byte_sent(ier: u8, iir: u8, waits: bool) -> Told
    ensures { Tells (byte_sent ier iir waits) iir result.iir result.raises 1 }
{
    if ier & EMPTY == 0 {
        return Told {
            iir: None,
            raises: 0,
        };
    }
    Told {
        iir: Some(settled(ier, iir | EMPTY, waits)),
        raises: newly(is_empty(ier, iir), true),
    }
}

// IER was `old` and is `ier` now.
pub fn enabling(old: u8, ier: u8, iir: u8, waits: bool) -> Told
    ensures { Tells (enabling old ier iir waits) iir result.iir result.raises 2 }
{
    let data = newly(has_data(old, waits), has_data(ier, waits));
    let empty = newly(is_empty(old, iir), ier & EMPTY != 0);
    Told {
        iir: Some(settled(ier, iir | EMPTY, waits)),
        raises: data + empty,
    }
}

// How often the interrupt is raised as a port is restored: for the empty transmitter, then for
// received data.
pub fn raised_again(ier: u8, iir: u8, waits: bool) -> u32
    ensures value { result ≡ raised_again ier iir waits }
    ensures upper_bound { result ≤ 2 }
{
    newly(false, is_empty(ier, iir)) + newly(false, has_data(ier, waits))
}
