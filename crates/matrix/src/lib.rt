// The inverse of a square matrix over the field (document 01, "The matrix inverse"), by elimination: row operations take [m | 1] to
// [1 | inverse], column by column from the left.
#![tactic(auto)]

ghost use Rattle.std.specs.Prelude.{◌≡◌};
ghost use Rattle.matrix.specs.Invert.{InvertPost};
ghost use Rattle.matrix.specs.Uninvertible.{inversion, refusal_number};

mod work;

use work::Work;

// Why `invert` writes no inverse. The questions are put in this order, and the first whose answer is no counts.
#[derive(Clone, Copy, Debug, PartialEq, Eq)]
pub enum Uninvertible {
    // "Is the matrix side from 1 to 32? No: 16."
    Side,
    // "Has each lent slice its exact length? No: 6."
    Lengths,
    // "Has the matrix an inverse? No: 15." This column, counted from 1, is the first that is a sum of multiples of those before it; a column of 00 counts.
    Singular(usize),
}

// The number in document 01.
impl From<Uninvertible> for u32 {
    ghost from_gives = { λ why n. n ≡ refusal_number why };

    fn from(why: Uninvertible) -> u32 {
        match why {
            Uninvertible::Side => 16,
            Uninvertible::Lengths => 6,
            Uninvertible::Singular(_) => 15,
        }
    }
}

// Writes the inverse of the matrix m of side s, stored by rows, to out. A refusal leaves out as it was.
pub fn invert(s: usize, m: &[u8], out: &mut [u8]) -> Result<(), Uninvertible>
    ensures { InvertPost s m.now out.old (inversion result) out.new }
{
    if !(1..=32).contains(&s) {
        return Err(Uninvertible::Side);
    }
    let area = s * s;
    if m.len() != area || out.len() != area {
        return Err(Uninvertible::Lengths);
    }
    let mut work = Work::zeros(s);
    work.load(m);
    work.eliminate()?;
    work.store(out);
    Ok(())
}
