// Lines that arrive in pieces, in a block of the caller's, and where their reading stands.
#![tactic(auto)]

pub mod cut;

ghost use Rattle.std.specs.Prelude.{◌+◌, ◌≤◌, ◌<◌, ◌≡◌};
ghost use Rattle.pieces.specs.Inside.{Settles, Closes};
ghost use Rattle.pieces.specs.Pieces.{Sound, Answered, start_of, came_of};

use words::Block;

// Where the reading stands. The current line starts at `from`, no newline stands between there and
// `seen`, and `end` bytes are held; `ended` says that no more will come. `passes` says that the
// current line was too long: its answer is given, and what is left of it is passed over. `full` says
// that lines wait until answers are written.
//
// What is held lies beside it: lines of it are read while the state changes.
//
// That a state is `Sound` stands in clauses and in no field of it: the runs of `lines` go by what
// `settle_of` and `came_of` make of any state.
#[derive(Clone, Copy)]
pub struct State {
    pub from: usize,
    pub seen: usize,
    pub end: usize,
    pub ended: bool,
    pub passes: bool,
    pub full: bool,
}

impl State {
    // Nothing is read yet.
    pub fn start() -> State
        ensures sound { Sound result }
        ensures answered { Answered result }
        ensures value { result ≡ start_of }
    {
        State {
            from: 0,
            seen: 0,
            end: 0,
            ended: false,
            passes: false,
            full: false,
        }
    }

    // Moves the current line to the start of `held`, so that there is space to read.
    pub fn settle(&mut self, held: &mut Block)
        requires sound { Sound self.old }
        requires seen_value { self.old.seen ≡ self.old.end }
        ensures sound_2 { Sound self.new }
        ensures end_bound { self.new.end ≤ 8192 }
        ensures settles { Settles held.old self.old held.new self.new }
    {
        // A line that is still coming, read by read, is there already.
        if self.from > 0 {
            held.copy_within(self.from..self.end, 0);
        }
        self.end -= self.from;
        self.seen = self.end;
        self.from = 0;
    }

    // `count` more bytes are held.
    pub fn came(&mut self, count: usize)
        requires sound { Sound self.old }
        requires count_bound { self.old.end + count ≤ 65536 }
        ensures sound_2 { Sound self.new }
        ensures value { self.new ≡ came_of self.old count }
    {
        self.end += count;
    }

    // The input has ended: the current line, which lacks its newline, gets one.
    pub fn close(&mut self, held: &mut Block)
        requires sound { Sound self.old }
        requires end_bound { self.old.end < 65536 }
        ensures sound_2 { Sound self.new }
        ensures closes { Closes held.old self.old held.new self.new }
    {
        held[self.end] = b'\n';
        self.end += 1;
        self.ended = true;
    }
}
