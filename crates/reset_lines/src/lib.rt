// The lines of the reset controller.
#![tactic(auto, using(std::proofs::Common::append_assoc))]

ghost use Rattle.std.specs.Prelude.{◌+◌, ◌≤◌, ◌≡◌, ◌++◌, length};
ghost use Rattle.reset_lines.specs.Reset.{reset_answer, write_answer, read_answer};

use words::hex::byte_at;
use words::out::Out;
use words::pattern::fits;

#[tactic(auto, using(std::proofs::Common::append_assoc), unfolding(crate::specs::Reset::reset_answer))]
pub fn answer(line: &[u8], out: &mut Out)
    requires { length out.old + 4096 ≤ 65536 }
    ensures says { out.new ≡ out.old ++ reset_answer line.now }
    ensures upper_bound { length out.new ≤ length out.old + 4096 }
{
    if fits(line, b"w OO VV") {
        write(byte_at(line, 2), byte_at(line, 5), out);
    } else if fits(line, b"r OO") {
        read(byte_at(line, 2), out);
    } else {
        out.unknown();
    }
}

fn write(offset: u8, value: u8, out: &mut Out)
    requires { length out.old + 4096 ≤ 65536 }
    ensures says { out.new ≡ out.old ++ write_answer offset value }
    ensures upper_bound { length out.new ≤ length out.old + 4096 }
{
    if i8042::write(offset, value) {
        out.put(b"w reset\n");
    } else {
        out.put(b"w --\n");
    }
}

fn read(offset: u8, out: &mut Out)
    requires { length out.old + 4096 ≤ 65536 }
    ensures says { out.new ≡ out.old ++ read_answer offset }
    ensures upper_bound { length out.new ≤ length out.old + 4096 }
{
    out.put(b"r ");
    out.put_byte(i8042::read(offset));
    out.put(b"\n");
}
