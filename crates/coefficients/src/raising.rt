// Rows of powers.
ghost use Rattle.std.specs.Prelude.{◌≡◌, ◌*◌, length};
ghost use Rattle.coefficients.specs.Coefficients.{power_rows};
ghost use Rattle.coefficients.specs.Working.{powers_of};

use tables::Exponent;

// out := a row for each point: its powers 1, .., m. The rows are ranges of out, since chunks_mut takes no m of 0, and nothing is proved of what is written through it.
pub(crate) fn fill_rows(points: &[u8], m: usize, out: &mut [u8])
    requires { length out.old ≡ length points.now * m }
    ensures { out.new ≡ power_rows m points.now }
{
    for (i, c) in points.iter().enumerate() {
        let at = i * m;
        let end = at + m;
        fill_row(*c, &mut out[at..end]);
    }
}

// out := c, c^2, ..; each exponent is that of the power before and of c, together.
fn fill_row(c: u8, out: &mut [u8])
    ensures { out.new ≡ powers_of c (length out.old) }
{
    if c == 0 {
        out.fill(0);
        return;
    }
    let l = Exponent::of(c);
    let mut x = Exponent::of(1);
    for entry in out.iter_mut() {
        x = x + l;
        *entry = x.power();
    }
}
