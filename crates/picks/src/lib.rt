// Picks: which entry of a group's table a row of a product adds at each bit. For one row, one group of columns and one of the eight bits, the pick is the number whose
// binary digits are that bit of each of the group's coefficients. The eight picks of a row and group are found together, as the bytes of one word: each column doubles
// the word and adds the bits of its coefficient, one to each byte.
#![tactic(auto)]

ghost use Rattle.std.specs.Prelude.{◌≡◌, ◌≤◌, length};
ghost use Rattle.words.specs.Words.{word};
ghost use Rattle.picks.specs.Picks.{bit, pick_of, Picks};

use words::put_word;

// picks := those of the coefficients, of which there are at most eight: that of bit 7 - s stands at place s. Where there are more, or picks has not eight bytes, nothing is
// written.
pub fn put_picks(picks: &mut [u8], coeffs: &[u8])
    ensures { Picks coeffs.now picks.old picks.new }
{
    if picks.len() != 8 {
        return;
    }
    if 8 < coeffs.len() {
        return;
    }
    let word = picks_word(coeffs);
    put_word(picks, word);
}

// The eight picks of at most eight coefficients, as the bytes of a word: that of the highest bit is the lowest byte.
fn picks_word(coeffs: &[u8]) -> u64
    requires { length coeffs.now ≤ 8 }
    ensures { result ≡ word 8 (pick_of coeffs.now) }
{
    let mut word = 0;
    for coeff in coeffs {
        word = word * 2 + spread(*coeff);
    }
    word
}

// The bits of c, each as a byte of a word: the highest bit is the lowest byte. The factor is the sum of 2^(56 - 9b) over b from 0 to 6: it makes seven copies of the
// seven lower bits, nine places apart, so that none meets another, and copy b brings bit b to its place 56 - 8b. The mask is the sum of 2^(56 - 8b) over the same b, and
// keeps these bits only. The highest bit is added at place 0.
fn spread(c: u8) -> u64
    ensures { result ≡ word 8 (λ s. bit s c) }
{
    let copies = u64::from(c % 128) * 72198606942111748;
    (copies & 72340172838076672) + u64::from(c / 128)
}
