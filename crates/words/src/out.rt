// Answers that wait to be written, in memory of a fixed size: nothing is allocated. How much room is left each
// call asks for by itself: that is so only where it was looked at, and no type can say it of every answer.
// The definitions name each byte of an answer, so numbers are put by the calls below, each with its list of
// digits as its clause; `Display` would say the same by way of text.
ghost use Rattle.std.specs.Prelude.{◌+◌, ◌*◌, ◌≤◌, ◌<◌, ◌≡◌, [], ◌++◌, length};
ghost use Rattle.std.specs.List.{flat_map};
ghost use Rattle.words.specs.Text.{text};
ghost use Rattle.words.specs.Hex.{digits_of, half_digits, word_digits};
ghost use Rattle.words.specs.Decimal.{decimal_of, next_decimal};

use crate::Block;
use crate::hex::{digit, put_digits};
use std::marker::Model;

#[derive(Drop)]
pub struct Out {
    block: Block,
    used: usize,
}

impl Model for Out {
    ghost use Rattle.std.specs.Prelude.{List, ℕ, take, ◌≤◌};

    ghost Value = { List ℕ };

    ghost view = { λ a. take a.used a.block };

    ghost invariant = { λ a. a.used ≤ 65536 };
}

impl Out {
    // Nothing waits.
    pub fn new() -> Self
        ensures { result ≡ [] }
    {
        Out {
            block: [0; 65536],
            used: 0,
        }
    }

    pub fn len(&self) -> usize
        ensures { result ≡ length self.now }
    {
        self.as_bytes().len()
    }

    pub fn as_bytes(&self) -> &[u8]
        ensures { result.now ≡ self.now }
    {
        &self.block[..self.used]
    }

    // What waited is written.
    pub fn clear(&mut self)
        ensures { self.new ≡ [] }
    {
        self.used = 0;
    }

    // Puts the bytes of `word` behind what waits.
    pub fn put(&mut self, word: &[u8])
        requires { length self.old + length word.now ≤ 65536 }
        ensures says { self.new ≡ self.old ++ word.now }
        ensures len { length self.new ≡ length self.old + length word.now }
    {
        let from = self.used;
        let to = from + word.len();
        self.block[from..to].copy_from_slice(word);
        self.used = to;
    }

    // Puts the two digits of a byte.
    #[tactic(auto, unfolding(crate::specs::Hex::digits_of))]
    pub fn put_byte(&mut self, byte: u8)
        requires { length self.old + 2 ≤ 65536 }
        ensures says { self.new ≡ self.old ++ digits_of byte }
        ensures len { length self.new ≡ length self.old + 2 }
    {
        self.put(&[digit(byte / 16), digit(byte % 16)]);
    }

    // Puts the two digits of each of these bytes. At once: with `used` stored at each byte, 1,024 of them take seven
    // times the instructions.
    pub fn put_bytes(&mut self, bytes: &[u8])
        requires { length self.old + 2 * length bytes.now ≤ 65536 }
        ensures says { self.new ≡ self.old ++ flat_map digits_of bytes.now }
        ensures len { length self.new ≡ length self.old + 2 * length bytes.now }
    {
        let from = self.used;
        let end = from + 2 * bytes.len();
        put_digits(&mut self.block[from..end], bytes);
        self.used = end;
    }

    // Puts the eight digits of a word.
    #[tactic(auto, using(std::proofs::Common::append_assoc), unfolding(crate::specs::Hex::word_digits))]
    pub fn put_word(&mut self, word: u32)
        requires { length self.old + 8 ≤ 65536 }
        ensures says { self.new ≡ self.old ++ word_digits word }
        ensures len { length self.new ≡ length self.old + 8 }
    {
        self.put_half((word / 0x1_0000) as u16);
        self.put_half((word % 0x1_0000) as u16);
    }

    // Puts the four digits of half a word.
    #[tactic(auto, using(std::proofs::Common::append_assoc), unfolding(crate::specs::Hex::half_digits))]
    fn put_half(&mut self, half: u16)
        requires { length self.old + 4 ≤ 65536 }
        ensures says { self.new ≡ self.old ++ half_digits half }
        ensures len { length self.new ≡ length self.old + 4 }
    {
        self.put_byte((half / 0x100) as u8);
        self.put_byte((half % 0x100) as u8);
    }

    // Puts the answer to what is no operation.
    pub fn unknown(&mut self)
        requires { length self.old + 2 ≤ 65536 }
        ensures { self.new ≡ self.old ++ text "?\n" }
    {
        self.put(b"?\n");
    }

    // Puts the digits of `n`, as few as it takes.
    #[tactic(auto, using(crate::proofs::Decimals::fewest))]
    pub fn put_decimal(&mut self, n: u64)
        requires { length self.old + 20 ≤ 65536 }
        ensures says { self.new ≡ self.old ++ decimal_of n }
        ensures len { length self.new ≤ length self.old + 20 }
    {
        let mut digits = [0u8; 20];
        let count = io::decimal(n, &mut digits);
        self.put(&digits[..count]);
    }

    // Puts a space, and the digits of a number.
    #[tactic(auto, using(std::proofs::Common::append_assoc))]
    pub fn put_next(&mut self, n: u64)
        requires { length self.old + 21 ≤ 65536 }
        ensures says { self.new ≡ self.old ++ next_decimal n }
        ensures len { length self.new ≤ length self.old + 21 }
    {
        self.put(b" ");
        self.put_decimal(n);
    }
}
