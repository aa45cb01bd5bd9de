// Answers the list of operations on standard input, line by line, on standard output.
//
// There is no exit status to tell a failure by: a run that failed says so in one line on standard
// error, and a run that did not writes nothing there.
#![tactic(auto)]

ghost use Rattle.lines.specs.Runs.{Left};

use exchange::exchange;
use lines::Turn;
use std::io::{Eprint, Read, Write};
use words::Block;
use words::out::Out;

// Some run, of some input, comes to the turn that it answers. How far it gets is not promised: one
// that stops at once would promise the same. How long the input is, nothing says: no run uses up the
// turns that the loop has.
#[tactic(auto, using(crate::proofs::Turns::begins, crate::proofs::Turns::goes_on))]
fn run<I: Read, O: Write, E: Eprint>(
    input: &mut I,
    output: &mut O,
    errors: &E,
    held: &mut Block,
    out: &mut Out,
) -> Turn
    ensures { Left out.new result }
{
    out.clear();
    let mut turn = Turn::start();
    for _ in 0..u64::MAX {
        let mut state = turn.state;
        if !exchange(input, output, errors, held, out, &mut state) {
            return turn;
        }
        turn.state = state;
        turn.answer(held, out);
    }
    turn
}

fn main(rt: HostRuntime) {
    let mut input = rt.stdin();
    let mut output = rt.stdout();
    let mut held: Block = [0; 65536];
    let mut out = Out::new();
    run(&mut input, &mut output, &rt, &mut held, &mut out);
}
