// A whole run of the serial port in one call: its operations come as bytes, its answers go out as
// words.
#![tactic(auto)]

ghost use Rattle.std.specs.Prelude.{◌≡◌, ◌≤◌};
ghost use Rattle.play.specs.Play.{input_bytes, op_of, decode, is_run, Answered, Plays};
ghost use Rattle.play.specs.Kinds.{number_of, Kinds};

use serial::memory::{Pos, Regs, Ring};

// The first byte of an operation.
#[derive(Clone, Copy)]
enum Kind {
    Read,
    Write,
    Input,
    Room,
}

// There is no such kind.
#[derive(Clone, Copy)]
struct NoKind;

impl TryFrom<u8> for Kind {
    type Error = NoKind;

    ghost try_from_gives = { Kinds };

    fn try_from(byte: u8) -> Result<Kind, NoKind> {
        if byte <= 3 {
            return Ok(Kind::of(byte));
        }
        Err(NoKind)
    }
}

impl Kind {
    fn of(byte: u8) -> Kind
        requires { byte ≤ 3 }
        ensures { byte ≡ number_of result }
    {
        match byte {
            0 => Kind::Read,
            1 => Kind::Write,
            2 => Kind::Input,
            _ => Kind::Room,
        }
    }
}

// How many bytes of the inputs the operation takes.
fn input_bytes(kind: Kind, low: u8, high: u8) -> usize
    ensures { result ≡ input_bytes (number_of kind) low high }
{
    match kind {
        Kind::Input => low as usize + 256 * high as usize,
        Kind::Read | Kind::Write | Kind::Room => 0,
    }
}

// Each operation is whole and of a kind that there is, and the inputs' bytes come out even.
fn is_run(ops: &[u8], inputs: &[u8]) -> bool
    ensures { result ≡ is_run (decode ops.now inputs.now) }
{
    if ops.len() % 3 != 0 {
        return false;
    }
    let mut from: usize = 0;
    for i in 0..ops.len() / 3 {
        let at = 3 * i;
        let Ok(kind) = Kind::try_from(ops[at]) else {
            return false;
        };
        let n = input_bytes(kind, ops[at + 1], ops[at + 2]);
        if inputs.len() - from < n {
            return false;
        }
        from += n;
    }
    from == inputs.len()
}

// One operation: the word that the call by itself answers. The byte is matched here: to match its kind would cost four
// instructions more for each operation.
fn play_one(
    regs: &mut Regs,
    pos: &mut Pos,
    ring: &mut Ring,
    kind: u8,
    a: u8,
    b: u8,
    bytes: &[u8],
) -> u32
    ensures { Answered (op_of kind a b bytes.now) regs.old pos.old ring.old
        regs.new pos.new ring.new result }
{
    match kind {
        0 => serial::read(regs, pos, ring, a),
        1 => serial::write(regs, pos, ring, a, b),
        2 => serial::input(regs, pos, ring, bytes),
        _ => serial::room(regs, pos),
    }
}

// Plays a whole run on the port and writes one word of answer for each of its operations: true. What
// is no run, or asks more than there is room to answer, is refused and changes nothing: false. The C
// interface lends these arrays side by side, and takes bytes for words.
pub fn play(
    regs: &mut Regs,
    pos: &mut Pos,
    ring: &mut Ring,
    ops: &[u8],
    inputs: &[u8],
    answers: &mut [u32],
) -> bool
    ensures { Plays regs.old pos.old ring.old ops.now inputs.now answers.old
        regs.new pos.new ring.new answers.new result }
{
    if !is_run(ops, inputs) {
        return false;
    }
    let count = ops.len() / 3;
    if answers.len() < count {
        return false;
    }
    let mut from: usize = 0;
    for i in 0..count {
        let at = 3 * i;
        let kind = ops[at];
        let a = ops[at + 1];
        let b = ops[at + 2];
        let end = from + input_bytes(Kind::of(kind), a, b);
        answers[i] = play_one(regs, pos, ring, kind, a, b, &inputs[from..end]);
        from = end;
    }
    true
}
