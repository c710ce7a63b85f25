// The Read-Write code as document 01 fixes it: what blocks, pairs and calls mean (specs/), and the theorems about them (proofs/). The only code here is
// the point rule, the list of a set's points, and the type of an answer that the statements name.
#![tactic(auto)]

ghost use Rattle.std.specs.Prelude.{◌≡◌};
ghost use Rattle.code.specs.Code.{point};
ghost use Rattle.code.specs.Points.{Pointing};

use elements::Elem;
use params::{Node, NodeSet};

// The point rule: the only place where a node's number becomes a field element.
pub fn point(node: Node) -> Elem
    ensures { result.0 ≡ point node.0 }
{
    Elem(node.0)
}

// The points of the set's nodes, in rising order of the nodes, go to the front of out, which has 32 places; what stands behind them is as it was. The answer
// is how many they are. Where out has not 32 places, nothing is written, and the answer is 0.
// A lent buffer, and the count as the answer: its contract, Pointing, and the must-fail edits on it say so. (Not one function with block_numbers::places_of over an
// `impl Fn(Node) -> u8`: it would be public, and would have to require that its closure may be called.)
pub fn points_of(set: NodeSet, out: &mut [u8]) -> usize
    ensures { Pointing set.0 out.old result out.new }
{
    let count = set.list(out);
    for place in out[..count].iter_mut() {
        *place = point(Node(*place)).0;
    }
    count
}

// What an accepted `check` gives.
#[derive(Clone, Copy)]
pub struct Blame {
    // nodes without which one pair gives all other blocks
    pub set: NodeSet,
    // how many sets were tried
    pub tried: usize,
    // how far the set's size may be above the smallest
    pub distance: usize,
}
