// Decimal numbers.
ghost use Rattle.std.specs.Prelude.{◌+◌, ◌≤◌, ◌≡◌, length, drop};
ghost use Rattle.words.specs.Decimal.{number_of, longer_by};

// The number of 64 bits that `word` is: one digit or more, and nothing else.
#[tactic(auto, using(crate::proofs::Decimals::no_digits, crate::proofs::Decimals::some_digits, crate::proofs::Decimals::fails, crate::proofs::Decimals::goes_on, crate::proofs::Decimals::ends))]
fn parse(word: &[u8]) -> Option<u64>
    ensures { result ≡ number_of word.now }
{
    if word.is_empty() {
        return None;
    }
    let mut n = 0;
    for &c in word {
        n = longer_by(n, c)?;
    }
    Some(n)
}

// The number of 64 bits that `line` is from `from` on.
#[tactic(auto, unfolding(crate::specs::Decimal::number_of))]
pub fn parse_from(line: &[u8], from: usize) -> Option<u64>
    ensures { result ≡ number_of (drop from line.now) }
{
    if from < line.len() {
        parse(&line[from..])
    } else {
        None
    }
}

// The number that `n` becomes with one more digit.
#[tactic(auto, using(std::proofs::lemmas::Bool::Decides::nat_tests), unfolding(crate::specs::Decimal::longer_by))]
fn longer_by(n: u64, c: u8) -> Option<u64>
    ensures { result ≡ longer_by n c }
{
    match c {
        b'0'..=b'9' => n.checked_mul(10)?.checked_add(u64::from(c - b'0')),
        _ => None,
    }
}
