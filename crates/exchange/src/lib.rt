// A turn of the program with its caller: what is answered is written out, and more is read. Where
// either fails, standard error says why.
#![tactic(auto)]

ghost use Rattle.std.specs.Prelude.{◌+◌, ◌≤◌, ◌≡◌, true, false, [], length, IfSome};
ghost use Rattle.exchange.specs.Came.{ReadsAfter, Filled, Exchanged};
ghost use Rattle.pieces.specs.Pieces.{Sound, Answered};

use pieces::State;
use std::io::{Eprint, Error, ErrorKind, Read, Write};
use words::Block;
use words::out::Out;

// Says in one line on standard error what failed. Where that fails too, nobody is left to be told.
fn say<E: Eprint>(errors: &E, what: &str, error: Error) {
    let _ = eprintln!(errors; "replay: {what}: {error}");
}

// Writes `waiting`, and answers whether all of it is written. Where not, standard error says why.
fn write<O: Write, E: Eprint>(output: &mut O, errors: &E, waiting: &[u8]) -> bool {
    match write_out(output, waiting) {
        Ok(()) => true,
        Err(error) => {
            if error.kind() == ErrorKind::WriteZero {
                let _ = eprintln!(errors; "replay: standard output takes no more");
            } else {
                say(errors, "cannot write the answers", error);
            }
            false
        }
    }
}

// Also where the writer holds bytes back: whoever waits for an answer is to see it.
fn write_out<O: Write>(output: &mut O, waiting: &[u8]) -> Result<(), Error> {
    output.write_all(waiting)?;
    output.flush()
}

// Reads once into `space`, and answers how many bytes came: 0 at the end of the input, and none where
// the read fails; standard error then says why. A call that was only interrupted is tried again: how
// often, nothing says, and no run uses these turns up.
fn read<I: Read, E: Eprint>(input: &mut I, errors: &E, space: &mut [u8]) -> Option<usize>
    ensures { IfSome result (λ count. count ≤ length space.old) }
{
    for _ in 0..u64::MAX {
        match input.read(space) {
            Ok(count) => return Some(count),
            Err(error) => {
                if error.kind() != ErrorKind::Interrupted {
                    say(errors, "cannot read the list", error);
                    return None;
                }
            }
        }
    }
    None
}

// Reads once behind the first `end` bytes of `held`.
fn read_after<I: Read, E: Eprint>(
    input: &mut I,
    errors: &E,
    held: &mut [u8],
    end: usize,
) -> Option<usize>
    requires { end ≤ length held.old }
    ensures result_in_bounds { IfSome result (λ count. end + count ≤ length held.old) }
    ensures reads_after { ReadsAfter held.old end held.new }
{
    read(input, errors, &mut held[end..])
}

// Reads on behind what is held, and answers whether that succeeds.
fn fill<I: Read, E: Eprint>(input: &mut I, errors: &E, held: &mut Block, state: &mut State) -> bool
    requires sound { Sound state.old }
    requires seen_value { state.old.seen ≡ state.old.end }
    ensures sound_2 { Sound state.new }
    ensures filled { result ≡ true → Filled held.old state.old held.new state.new }
{
    state.settle(held);
    match read_after(input, errors, held, state.end) {
        Some(0) => state.close(held),
        Some(count) => state.came(count),
        None => return false,
    }
    true
}

// Writes the answers that wait, so that whoever types a line sees its answer before a read waits for
// the next. Then reads, unless lines are held that had no room for their answers. Answers whether there
// is more to do.
pub fn exchange<I: Read, O: Write, E: Eprint>(
    input: &mut I,
    output: &mut O,
    errors: &E,
    held: &mut Block,
    out: &mut Out,
    state: &mut State,
) -> bool
    requires sound { Sound state.old }
    requires answered { Answered state.old }
    ensures sound_2 { Sound state.new }
    ensures exchanged { result ≡ true → Exchanged held.old state.old held.new state.new }
    ensures written { result ≡ true → out.new ≡ [] }
    ensures kept { result ≡ false → out.new ≡ out.old }
{
    if !write(output, errors, out.as_bytes()) {
        return false;
    }
    let more = state.full || (!state.ended && fill(input, errors, held, state));
    if more {
        out.clear();
    }
    more
}
