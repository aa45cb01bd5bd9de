// Lines that arrive in pieces, in a block of the caller's, and their answers.
//
// A turn of the caller: it writes what waits in `out`, and clears it. Then, unless the state is `full`,
// it calls `settle` and reads into `held` behind its first `end` bytes, and says so by `came`, or, at
// the end of the input, by `close`. Then it calls `answer`. Nothing here reads or writes a file.
#![tactic(auto, using(std::proofs::Common::append_assoc))]

mod devices;

ghost use Rattle.std.specs.Prelude.{◌<◌, ◌≡◌, true, length};
ghost use Rattle.pieces.specs.Pieces.{Sound, Answered, start_of};
ghost use Rattle.lines.specs.Answering.{First};
ghost use Rattle.lines.specs.Inside.{Turns};

use devices::Devices;
use pieces::{State, cut};
use words::Block;
use words::out::Out;

// Answers stop once more than this waits in `out`: no answer is longer than 4,096 bytes.
const ENOUGH: usize = 61440;

// What a turn leaves.
#[derive(Clone, Copy)]
pub struct Turn {
    pub devices: Devices,
    pub state: State,
}

impl Turn {
    pub fn start() -> Self
        ensures sound { Sound result.state }
        ensures answered { Answered result.state }
        ensures first { First result.devices }
        ensures state_value { result.state ≡ start_of }
    {
        Turn {
            devices: Devices::start(),
            state: State::start(),
        }
    }

    // Answers each whole line that is held, until none is left or `out` is nearly full. Where a line ends
    // decides where the next one starts, so the loop has no count.
    pub fn answer(&mut self, held: &Block, out: &mut Out)
        requires { Sound self.old.state }
        ensures sound { Sound self.new.state }
        ensures answered { Answered self.new.state }
        ensures nearly_full { self.new.state.full ≡ true → 61440 < length out.new }
        ensures turns { Turns held.now self.old.state self.old.devices out.old out.new self.new.state self.new.devices }
    {
        while self.state.seen < self.state.end {
            if out.len() > ENOUGH {
                self.state.full = true;
                return;
            }
            let from = self.state.from;
            let cut = cut::next_line(
                held,
                from,
                self.state.seen,
                self.state.end,
                self.state.passes,
            );
            self.devices.answer(&held[from..cut.stop], cut.kind, out);
            self.state.from = cut.from;
            self.state.seen = cut.seen;
            self.state.passes = cut.passes;
        }
        self.state.full = false;
    }
}
