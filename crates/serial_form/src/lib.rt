// A saved serial port, its registers and its waiting bytes, as a form of bytes, and back. Nothing of the caller's is trusted: any
// bytes are read or refused, and a refusal changes nothing.
#![tactic(auto)]

mod version;

ghost use Rattle.std.specs.Prelude.{◌≡◌, [], ◌∷◌, ◌+◌, ◌≤◌, length};
ghost use Rattle.std.proofs.lemmas.List.Edits.{sets};
ghost use Rattle.common.specs.Bytes.{bytes_of, value_of};
ghost use Rattle.serial.specs.Layout.{size_of};
ghost use Rattle.serial_form.specs.Form.{form_of, read_form, read_version, read_behind};
ghost use Rattle.serial_form.specs.Calls.{Encodes, Decodes};
ghost use Rattle.serial_form.specs.Inside.{Writes, Brings, version_of};

use common::form;
use common::form::Reason;
use serial::memory;
use serial::memory::{Regs, Ring, are_spares_zero};
use serial::waiting::size;
use version::{COUNT, CURRENT, REGISTERS, SIZE, TEN, Version, WAITING};

// ---- Bytes and numbers

// Puts bytes in place of those that lie from `at` on. By index: a copy from slice to slice would want a function of
// the host.
fn put(memory: &mut [u8], at: usize, bytes: &[u8])
    requires { at + length bytes.now ≤ length memory.old }
    ensures { memory.new ≡ sets memory.old at bytes.now }
{
    for i in 0..bytes.len() {
        memory[at + i] = bytes[i];
    }
}

// A number has two bytes, lowest first.
fn put_number(memory: &mut [u8], at: usize, n: u16)
    requires { at + 2 ≤ length memory.old }
    ensures { memory.new ≡ sets memory.old at (bytes_of 2 n) }
{
    put(memory, at, &n.to_le_bytes());
}

fn number(low: u8, high: u8) -> u16
    ensures { result ≡ value_of (low ∷ high ∷ []) }
{
    u16::from_le_bytes([low, high])
}

// ---- Writing

// Writes the form; there is room for it.
fn write(saved: &Regs, waiting: &[u8], form: &mut [u8])
    requires few { length waiting.now ≤ size_of saved.now }
    requires room { 15 + length waiting.now ≤ length form.old }
    ensures { form.new ≡ sets form.old 0 (form_of saved.now waiting.now) }
{
    put_number(form, 0, CURRENT);
    put(form, REGISTERS, &saved[..TEN]);
    put(form, SIZE, &saved[memory::SIZE..]);
    put_number(form, COUNT, waiting.len() as u16);
    put(form, WAITING, waiting);
}

fn encode_or_refuse(saved: &Regs, waiting: &[u8], form: &mut [u8]) -> Result<u32, Reason>
    ensures { Writes saved.now waiting.now form.old form.new result }
{
    let n = waiting.len();
    if (size(saved) as usize) < n {
        return Err(Reason::TooMany);
    }
    if !are_spares_zero(saved) {
        return Err(Reason::Spare);
    }
    let len = WAITING + n;
    if form.len() < len {
        return Ok(len as u32);
    }
    write(saved, waiting, form);
    Ok(len as u32)
}

// Answers how many bytes the form has, and writes it if there is room for them. More bytes than the port's size are refused,
// and a spare register other than 0.
pub fn encode(saved: &Regs, waiting: &[u8], form: &mut [u8]) -> u32
    ensures { Encodes saved.now waiting.now form.old form.new result }
{
    // The C interface gets a word for an answer.
    form::word(encode_or_refuse(saved, waiting, form))
}

// ---- Reading

// The form has these registers and says that n bytes wait; `bytes` are those that it has.
fn decode_behind(
    registers: &Regs,
    n: usize,
    bytes: &[u8],
    saved: &mut Regs,
    waiting: &mut Ring,
) -> Result<u32, Reason>
    ensures { Brings (read_behind registers.now n bytes.now)
        saved.old waiting.old saved.new waiting.new result }
{
    if (size(registers) as usize) < n {
        return Err(Reason::TooMany);
    }
    if bytes.len() < n {
        return Err(Reason::TooShort);
    }
    if n < bytes.len() {
        return Err(Reason::Trailing);
    }
    *saved = *registers;
    put(waiting, 0, bytes);
    Ok(n as u32)
}

// The form of a version. One function for both: two would take less for a form of few bytes.
fn decode_version(
    version: Version,
    form: &[u8],
    saved: &mut Regs,
    waiting: &mut Ring,
) -> Result<u32, Reason>
    ensures { Brings (read_version (version_of version) form.now)
        saved.old waiting.old saved.new waiting.new result }
{
    let start = version.start();
    if form.len() < start {
        return Err(Reason::TooShort);
    }
    decode_behind(
        &version.registers(form),
        number(form[start - 2], form[start - 1]) as usize,
        &form[start..],
        saved,
        waiting,
    )
}

fn decode_or_refuse(form: &[u8], saved: &mut Regs, waiting: &mut Ring) -> Result<u32, Reason>
    ensures { Brings (read_form form.now)
        saved.old waiting.old saved.new waiting.new result }
{
    if form.len() < REGISTERS {
        return Err(Reason::TooShort);
    }
    let version = Version::try_from(number(form[0], form[1]))?;
    decode_version(version, form, saved, waiting)
}

// Answers how many bytes wait, or why the form is refused; then nothing is written.
pub fn decode(form: &[u8], saved: &mut Regs, waiting: &mut Ring) -> u32
    ensures { Decodes (read_form form.now)
        saved.old waiting.old saved.new waiting.new result }
{
    // The C interface gets a word for an answer.
    form::word(decode_or_refuse(form, saved, waiting))
}
