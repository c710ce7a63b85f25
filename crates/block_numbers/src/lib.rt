// Block numbers: the block of node i is block i - 1 of a record.
#![tactic(auto)]

ghost use Rattle.std.specs.Prelude.{◌≡◌};
ghost use Rattle.params.specs.Nodes.{in_order, Placing};

use params::NodeSet;

// The block numbers 0, 1, 2, .., 31. (Written out: a constant to the compiler, which lays it down once.)
pub fn in_order() -> [u8; 32]
    ensures { result ≡ in_order }
{
    [
        0, 1, 2, 3, 4, 5, 6, 7, 8, 9, 10, 11, 12, 13, 14, 15, 16, 17, 18, 19, 20, 21, 22, 23, 24,
        25, 26, 27, 28, 29, 30, 31,
    ]
}

// The block numbers of the set's nodes, in rising order of the nodes, go to the front of out, which has 32 places; what stands behind them is as it was. Where
// out has not 32 places, nothing is written.
// (Twin of code::points_of: why they are two functions is told there. A struct of the array and the count, returned by value, was tried: the array is copied just after single bytes were stored, and small calls are up to 6 % slower.)
pub fn places_of(set: NodeSet, out: &mut [u8])
    ensures { Placing set.0 out.old out.new }
{
    let count = set.list(out);
    for place in out[..count].iter_mut() {
        *place -= 1;
    }
}
