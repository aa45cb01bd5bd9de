// Hexadecimal digits, lower case.
ghost use Rattle.std.specs.Prelude.{◌≤◌, ◌<◌, ◌≡◌, ◌*◌, length, get_or, drop, IfSome};
ghost use Rattle.std.specs.List.{flat_map};
ghost use Rattle.words.specs.Hex.{value_of, byte_of, byte_at, digit_of, digits_of, count_of, Gives};

// The value of a digit.
#[tactic(auto, using(std::proofs::lemmas::Bool::Decides::nat_tests), unfolding(crate::specs::Hex::value_of))]
pub fn value(c: u8) -> Option<u8>
    ensures value { result ≡ value_of c }
    ensures upper_bound { IfSome result (λ v. v < 16) }
{
    match c {
        b'0'..=b'9' => Some(c - b'0'),
        b'a'..=b'f' => Some(c - b'a' + 10),
        _ => None,
    }
}

// The byte of two digits, where another character counts as 0.
#[tactic(auto, unfolding(crate::specs::Hex::byte_of))]
pub fn byte(high: u8, low: u8) -> u8
    ensures { result ≡ byte_of high low }
{
    value(high).unwrap_or(0) * 16 + value(low).unwrap_or(0)
}

// The byte of the two digits of `line` at `i`.
#[tactic(auto, unfolding(crate::specs::Hex::byte_at))]
pub fn byte_at(line: &[u8], i: usize) -> u8
    requires { i < 65536 }
    ensures { result ≡ byte_at line.now i }
{
    byte(char_at(line, i), char_at(line, i + 1))
}

// Puts the bytes of the digits of `line` from `from` on, two digits each and at least one byte, into
// `bytes`, and says how many they are: the caller lends the memory, since nothing is allocated.
pub fn bytes_from(line: &[u8], from: usize, bytes: &mut [u8; 4096]) -> Option<usize>
    requires { from < 65536 }
    ensures gives { Gives (drop from line.now) bytes.new result }
    ensures result_in_bounds { count_of result ≤ length bytes.new }
{
    if line.len() <= from {
        return None;
    }
    let digits = line.len() - from;
    if digits % 2 != 0 {
        return None;
    }
    let count = digits / 2;
    if count > 4096 {
        return None;
    }
    for i in 0..count {
        let high = value(line[from + i * 2])?;
        let low = value(line[from + i * 2 + 1])?;
        bytes[i] = high * 16 + low;
    }
    Some(count)
}

// The character of `line` at `i`, or 0 where there is none.
fn char_at(line: &[u8], i: usize) -> u8
    ensures { result ≡ get_or line.now i 0 }
{
    line.get(i).copied().unwrap_or(0)
}

// Puts the digits of `bytes`, two each, one pair behind another.
pub fn put_digits(space: &mut [u8], bytes: &[u8])
    requires { length space.old ≡ 2 * length bytes.now }
    ensures { space.new ≡ flat_map digits_of bytes.now }
{
    for i in 0..bytes.len() {
        space[2 * i] = digit(bytes[i] / 16);
        space[2 * i + 1] = digit(bytes[i] % 16);
    }
}

// The digit of a value.
#[tactic(auto, using(std::proofs::lemmas::Bool::Decides::nat_tests), unfolding(crate::specs::Hex::digit_of))]
pub fn digit(n: u8) -> u8
    requires { n < 16 }
    ensures { result ≡ digit_of n }
{
    if n < 10 { b'0' + n } else { b'a' - 10 + n }
}
