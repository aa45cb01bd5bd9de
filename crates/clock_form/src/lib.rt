// A saved clock as bytes, and back: a version and six numbers, lowest byte first. The spare words have no place in it.
#![tactic(auto)]

ghost use Rattle.std.specs.Prelude.{◌≡◌, ◌+◌, ◌≤◌, length};
ghost use Rattle.std.proofs.lemmas.List.Edits.{sets};
ghost use Rattle.common.specs.Bytes.{bytes_of};
ghost use Rattle.common.specs.Forms.{word_of};
ghost use Rattle.clock_form.specs.Form.{current, form_length, form_of, word_at, words_in, read_form};
ghost use Rattle.clock_form.specs.Calls.{Encodes, Decodes};

use clock::{
    AHEAD_HIGH, AHEAD_LOW, Clock, LOAD, MASK, MATCH, RAW_STATUS, SPARE_FIRST, SPARE_LAST,
    spare_is_zero,
};
use common::form;
use common::form::Reason;

// The version that is written, and the only one that is read.
const CURRENT: u16 = 1;

// How many bytes every form has.
const LENGTH: usize = 26;

// ---- Numbers among bytes

// A store for each byte: a copy from slice to slice asks for the number of an address, which has another size in
// WebAssembly.
fn put_word(form: &mut [u8], at: usize, n: u32)
    requires { at + 4 ≤ length form.old }
    ensures { form.new ≡ sets form.old at (bytes_of 4 n) }
{
    let bytes = n.to_le_bytes();
    form[at] = bytes[0];
    form[at + 1] = bytes[1];
    form[at + 2] = bytes[2];
    form[at + 3] = bytes[3];
}

fn word(form: &[u8], at: usize) -> u32
    requires { at + 4 ≤ length form.now }
    ensures { result ≡ word_at form.now at }
{
    u32::from_le_bytes([form[at], form[at + 1], form[at + 2], form[at + 3]])
}

// ---- Writing

fn put_version(form: &mut [u8])
    requires { 2 ≤ length form.old }
    ensures { form.new ≡ sets form.old 0 (bytes_of 2 current) }
{
    let bytes = CURRENT.to_le_bytes();
    form[0] = bytes[0];
    form[1] = bytes[1];
}

// Word by word, since each line shows which one lies where.
fn write(saved: &Clock, form: &mut [u8])
    requires { form_length ≤ length form.old }
    ensures { form.new ≡ sets form.old 0 (form_of saved.now) }
{
    put_version(form);
    put_word(form, 2, saved[LOAD]);
    put_word(form, 6, saved[MATCH]);
    put_word(form, 10, saved[MASK]);
    put_word(form, 14, saved[RAW_STATUS]);
    put_word(form, 18, saved[AHEAD_LOW]);
    put_word(form, 22, saved[AHEAD_HIGH]);
}

fn encode_or_refuse(saved: &Clock, form: &mut [u8]) -> Result<u32, Reason>
    ensures { Encodes saved.now form.old form.new (word_of result) }
{
    if !spare_is_zero(saved) {
        return Err(Reason::Spare);
    }
    if form.len() < LENGTH {
        return Ok(LENGTH as u32);
    }
    write(saved, form);
    Ok(LENGTH as u32)
}

// Answers how many bytes the form has, and writes it where it has room.
pub fn encode(saved: &Clock, form: &mut [u8]) -> u32
    ensures { Encodes saved.now form.old form.new result }
{
    // A call of the C interface answers a word.
    form::word(encode_or_refuse(saved, form))
}

// ---- Reading

fn read(form: &[u8], saved: &mut Clock)
    requires { length form.now ≡ form_length }
    ensures { saved.new ≡ words_in form.now }
{
    saved[LOAD] = word(form, 2);
    saved[MATCH] = word(form, 6);
    saved[MASK] = word(form, 10);
    saved[RAW_STATUS] = word(form, 14);
    saved[AHEAD_LOW] = word(form, 18);
    saved[AHEAD_HIGH] = word(form, 22);
    saved[SPARE_FIRST] = 0;
    saved[SPARE_LAST] = 0;
}

fn decode_or_refuse(form: &[u8], saved: &mut Clock) -> Result<u32, Reason>
    ensures { Decodes (read_form form.now) saved.old saved.new (word_of result) }
{
    let length = form.len();
    if length < 2 {
        return Err(Reason::TooShort);
    }
    if u16::from_le_bytes([form[0], form[1]]) != CURRENT {
        return Err(Reason::Version);
    }
    if length < LENGTH {
        return Err(Reason::TooShort);
    }
    if LENGTH < length {
        return Err(Reason::Trailing);
    }
    read(form, saved);
    Ok(0)
}

// Answers 0, or why the form is refused.
pub fn decode(form: &[u8], saved: &mut Clock) -> u32
    ensures { Decodes (read_form form.now) saved.old saved.new result }
{
    // A call of the C interface answers a word.
    form::word(decode_or_refuse(form, saved))
}
