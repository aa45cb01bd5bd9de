// What a line looks like.
ghost use Rattle.std.specs.Prelude.{◌≡◌};
ghost use Rattle.words.specs.Pattern.{fits_of, begins_like, stands_for};

use crate::hex::value;

// Whether `line` looks like `pattern`, as `w OO VV`, in which a capital letter stands for a
// hexadecimal digit and every other character for itself.
pub fn fits(line: &[u8], pattern: &[u8]) -> bool
    ensures { result ≡ fits_of pattern.now line.now }
{
    line.len() == pattern.len() && pattern.iter().zip(line).all(|(p, c)| stands_for(*p, *c))
}

// Whether `line` begins like `pattern`.
#[tactic(auto, using(std::proofs::lemmas::Bool::Decides::nat_tests, crate::proofs::Patterns::shorter), unfolding(crate::specs::Pattern::begins_like))]
pub fn begins(line: &[u8], pattern: &[u8]) -> bool
    ensures { result ≡ begins_like pattern.now line.now }
{
    let n = pattern.len();
    n <= line.len() && fits(&line[..n], pattern)
}

#[tactic(auto, using(std::proofs::lemmas::Bool::Decides::nat_tests), unfolding(crate::specs::Pattern::stands_for))]
fn stands_for(p: u8, c: u8) -> bool
    ensures { result ≡ stands_for p c }
{
    match p {
        b'A'..=b'Z' => value(c).is_some(),
        _ => c == p,
    }
}
