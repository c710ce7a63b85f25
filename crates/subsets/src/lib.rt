// Node sets one after the other, by size and within a size by number (document 02, request 2026-06). The order stands here alone: `before` in specs/Order.antt says
// it, and `next` goes through it.
#![tactic(auto)]

ghost use Rattle.std.specs.Prelude.{◌<◌};
ghost use Rattle.subsets.specs.Order.{NextPost};
ghost use Rattle.subsets.specs.Numbers.{Above};

use params::NodeSet;

// The set behind this one, among those of nodes 1..n; the same set where n exceeds 32, where the set has a node above n, and where it is the last.
// (Not an Option, which is no plainer: its one caller knows that a set comes behind, and would have to write an arm that is never taken.)
pub fn next(set: NodeSet, n: usize) -> NodeSet
    ensures { NextPost n set.0 result.0 }
{
    if 32 < n {
        return set;
    }
    if !set.within(n) {
        return set;
    }
    let size = set.size();
    if n <= size {
        return set;
    }
    if set.0 == 0 {
        return NodeSet(1);
    }
    let above = next_number(set.0);
    if above < 1u64 << n {
        return NodeSet(above as u32);
    }
    NodeSet(((1u64 << (size + 1)) - 1) as u32)
}

// The next number with as many one bits: the lowest run of ones is carried into the zero above it, and its other ones go to the bottom.
fn next_number(word: u32) -> u64
    requires { 0 < word }
    ensures { Above word result }
{
    let low = word.trailing_zeros();
    let carried = u64::from(word) + (1u64 << low);
    let others = carried.trailing_zeros() - low - 1;
    carried + ((1u64 << others) - 1)
}
