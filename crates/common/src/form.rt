// Why a form is refused, and the word that says so: one numbering for the forms of all devices.
ghost use Rattle.std.specs.Prelude.{◌≡◌};
ghost use Rattle.common.specs.Forms.{refusal_word, word_of};

use crate::answer::REFUSED;

#[derive(Clone, Copy, PartialEq, Eq, Debug)]
pub enum Reason {
    TooShort,
    Trailing,
    Version,
    TooMany,
    Spare,
}

impl From<Reason> for u32 {
    ghost from_gives = { λ reason word. word ≡ refusal_word reason };

    // 5 is not used again: it was an offset of a clock beyond 33 signed bits.
    fn from(reason: Reason) -> u32 {
        match reason {
            Reason::TooShort => REFUSED + 1,
            Reason::Trailing => REFUSED + 2,
            Reason::Version => REFUSED + 3,
            Reason::TooMany => REFUSED + 4,
            Reason::Spare => REFUSED + 6,
        }
    }
}

// The word that a call answers: the number, or why the form is refused.
pub fn word(outcome: Result<u32, Reason>) -> u32
    ensures { result ≡ word_of outcome }
{
    match outcome {
        Ok(n) => n,
        Err(reason) => u32::from(reason),
    }
}
