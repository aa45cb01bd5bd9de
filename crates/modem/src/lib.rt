// MCR, MSR and the loop: functions of numbers, which know no port.
#![tactic(auto)]

ghost use Rattle.std.specs.Prelude.{◌≡◌};
ghost use Rattle.modem.specs.Modem.{is_loop, msr_read};

#[tactic(auto, unfolding(crate::specs::Modem::is_loop))]
pub fn is_loop(mcr: u8) -> bool
    ensures { result ≡ is_loop mcr }
{
    mcr & 0x10 != 0
}

#[tactic(auto, unfolding(crate::specs::Modem::msr_read))]
pub fn msr_read(mcr: u8, msr: u8) -> u8
    ensures { result ≡ msr_read mcr msr }
{
    if is_loop(mcr) {
        let lines = ((mcr & 0x02) << 3) | ((mcr & 0x01) << 5) | ((mcr & 0x0c) << 4);
        (msr & 0x0f) | lines
    } else {
        msr
    }
}
