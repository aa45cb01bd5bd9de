// The next line of what is held.
ghost use Rattle.std.specs.Prelude.{◌+◌, ◌≤◌, ◌<◌, length, ◌≡◌};
ghost use Rattle.pieces.specs.Cutting.{cut_of, kind_of};
ghost use Rattle.pieces.specs.Finding.{index_of, slice};
ghost use Rattle.pieces.specs.Inside.{Cuts};

// A line of more characters is answered `?` and not looked at.
const LONGEST: usize = 8192;

// What is to be done with a line.
#[derive(Clone, Copy)]
pub enum Kind {
    // Pass it over: it is empty, a comment, not all here, or the last of one that was too long.
    Silent,
    // Answer that it is no operation: it is too long.
    TooLong,
    // Answer it.
    Whole,
}

// The current line ends at `stop`, and the next one starts at `from` and is searched up to `seen`;
// `passes` says that it is the rest of one that was too long.
#[derive(Clone, Copy)]
pub struct Cut {
    pub kind: Kind,
    pub stop: usize,
    pub from: usize,
    pub seen: usize,
    pub passes: bool,
}

// Cuts the current line off, which starts at `from` and has no newline before `seen`. Where it has
// none before `end` either it stays the current one, unless it is too long already.
#[tactic(auto, using(std::proofs::lemmas::Bool::Decides::nat_tests), unfolding(crate::specs::Cutting::cut_of))]
pub fn next_line(all: &[u8], from: usize, seen: usize, end: usize, passes: bool) -> Cut
    requires from_le_seen { from ≤ seen }
    requires seen_lt_end { seen < end }
    requires end_in_bounds { end ≤ length all.now }
    ensures cuts { Cuts from seen end result }
    ensures value { result ≡ cut_of all.now from seen end passes }
{
    let stop = find(all, seen, end, b'\n');
    if stop < end {
        Cut {
            kind: kind_of(&all[from..stop], passes),
            stop,
            from: stop + 1,
            seen: stop + 1,
            passes: false,
        }
    } else if end - from <= LONGEST {
        Cut {
            kind: Kind::Silent,
            stop,
            from,
            seen: end,
            passes,
        }
    } else {
        Cut {
            kind: kind_of(&all[from..end], passes),
            stop,
            from: end,
            seen: end,
            passes: true,
        }
    }
}

// The first place from `from` on at which `byte` stands, or `to` where it stands nowhere before that.
fn find(all: &[u8], from: usize, to: usize, byte: u8) -> usize
    requires from_le_to { from ≤ to }
    requires to_in_bounds { to ≤ length all.now }
    ensures place { result ≡ from + index_of byte (slice from to all.now) }
    ensures lower_bound { from ≤ result }
    ensures upper_bound { result ≤ to }
{
    match memchr::memchr(byte, &all[from..to]) {
        Some(i) => from + i,
        None => to,
    }
}

// `passes` says that `line` is the rest of one that was too long.
#[tactic(auto, using(std::proofs::lemmas::Bool::Decides::nat_tests), unfolding(crate::specs::Cutting::kind_of))]
fn kind_of(line: &[u8], passes: bool) -> Kind
    ensures { result ≡ kind_of line.now passes }
{
    match line {
        _ if passes => Kind::Silent,
        [] | [b'#', ..] => Kind::Silent,
        _ if line.len() > LONGEST => Kind::TooLong,
        _ => Kind::Whole,
    }
}
