// LSR: functions of numbers, which know no port.
#![tactic(auto)]

ghost use Rattle.std.specs.Prelude.{◌≡◌};
ghost use Rattle.line_status.specs.LineStatus.{lsr_ready, lsr_after_read};

// A byte waits.
const DATA_READY: u8 = 0x01;

// Bytes have come.
#[tactic(auto, unfolding(crate::specs::LineStatus::lsr_ready))]
pub fn ready(lsr: u8) -> u8
    ensures { result ≡ lsr_ready lsr }
{
    lsr | DATA_READY
}

// A byte has been read, and `waits` says whether another waits: data is ready no more where none does.
#[tactic(auto, unfolding(crate::specs::LineStatus::lsr_after_read))]
pub fn after_read(lsr: u8, waits: bool) -> u8
    ensures { result ≡ lsr_after_read waits lsr }
{
    if waits { lsr } else { lsr & !DATA_READY }
}
