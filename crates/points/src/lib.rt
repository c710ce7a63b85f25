// Questions about lists of points.
#![tactic(auto)]

ghost use Rattle.std.specs.Prelude.{length};
ghost use Rattle.base.specs.Decided.{Decided};
ghost use Rattle.interpolation.specs.Polynomial.{Points};
ghost use Rattle.points.specs.Lists.{Among, AtMost, New};

// Whether the points are different and none of them 00, so that values there settle a polynomial. `most` is the largest point so far: a rising list takes one
// comparison a point.
pub fn different(points: &[u8]) -> bool
    ensures { Decided (Points points.now) result }
{
    let mut most = 0u8;
    for (i, x) in points.iter().enumerate() {
        if !is_new(&points[..i], most, *x) {
            return false;
        }
        most = most.max(*x);
    }
    true
}

// Whether x is not 00 and none of the points, which are at most `most`: where it exceeds that, they need not be looked at.
fn is_new(points: &[u8], most: u8, x: u8) -> bool
    requires { AtMost most (length points.now) points.now }
    ensures { Decided (New points.now x) result }
{
    if most < x {
        return true;
    }
    x != 0 && !lists(points, x)
}

// Whether x is one of the points.
pub fn lists(points: &[u8], x: u8) -> bool
    ensures { Decided (Among (length points.now) points.now x) result }
{
    points.contains(&x)
}
