// Node sets as words of 32 bits.
ghost use Rattle.std.specs.Prelude.{◌≡◌, ◌&&◌, ℕ, ◌+◌, ◌/◌, ◌^◌, ◌<◌, leb};
ghost use Rattle.std.specs.Int.Count.{count_trailing_zeros};
ghost use Rattle.params.specs.Nodes.{has, size, within, disjoint, outside, lowest, Listing};

use super::{Node, NodeSet};

impl NodeSet {
    // How many nodes the set has.
    pub fn size(self) -> usize
        ensures { result ≡ size self.0 }
    {
        self.0.count_ones() as usize
    }

    // No set has node 0, or a node above 32.
    // (For callers; no call uses it. The edits has_the_others and node_32_never_there stand on it.)
    pub fn has(self, node: Node) -> bool
        ensures { result ≡ has self.0 node.0 }
    {
        if node.0 < 1 {
            return false;
        }
        if 32 < node.0 {
            return false;
        }
        (self.0 >> (node.0 - 1)) % 2 == 1
    }

    // Whether each node of the set is at most n.
    pub fn within(self, n: usize) -> bool
        ensures { result ≡ within n self.0 }
    {
        if 32 <= n {
            return true;
        }
        self.0 < 1u32 << n
    }

    // Whether no node is in both sets.
    pub fn disjoint(self, other: NodeSet) -> bool
        ensures { result ≡ disjoint self.0 other.0 }
    {
        self.0 & other.0 == 0
    }

    // The nodes of 1..n that are not in the set; n above 32 counts as 32.
    pub fn outside(self, n: usize) -> NodeSet
        ensures { (i : ℕ) → has result.0 i ≡ (outside n self.0 i && leb i 32) }
    {
        if 32 <= n {
            return NodeSet(!self.0);
        }
        NodeSet(!self.0 & ((1u32 << n) - 1))
    }

    // The q lowest nodes of the set, or all where it has no more. Each turn of the loop passes one of them.
    pub fn lowest(self, q: usize) -> NodeSet
        ensures { (i : ℕ) → has result.0 i ≡ lowest q (has self.0) i }
    {
        if self.size() <= q {
            return self;
        }
        let mut walk = Walk::over(self);
        for _ in 0..q {
            walk = walk.next();
        }
        NodeSet(self.0 & ((1u32 << walk.passed) - 1))
    }

    // (Document 01, "Forms we want to see": a set's size by the count of ones, its nodes by trailing zeros.)
    // The nodes in rising order go to the front of out, which has 32 places; what stands behind them is as it was. The answer is how many they are. Where out has not
    // 32 places, nothing is written, and the answer is 0.
    // A lent buffer, and the count as the answer: its contract, Listing, and the must-fail edits on it say so.
    pub fn list(self, out: &mut [u8]) -> usize
        ensures { Listing self.0 out.old result out.new }
    {
        if out.len() != 32 {
            return 0;
        }
        let count = self.size();
        let mut walk = Walk::over(self);
        for place in out[..count].iter_mut() {
            walk = walk.next();
            *place = walk.passed as u8;
        }
        count
    }
}

// A walk over a set's nodes, from the lowest on: the node that it came to last, or 0 at the start, and the set's nodes above that one, node passed + 1 at bit 0.
#[derive(Clone, Copy)]
struct Walk {
    passed: u32,
    rest: u32,
}

impl Walk {
    fn over(set: NodeSet) -> Walk
        ensures { (result.passed ≡ 0) × (result.rest ≡ set.0) }
    {
        Walk {
            passed: 0,
            rest: set.0,
        }
    }

    // Goes on to the next node.
    fn next(self) -> Walk
        requires { self.passed + count_trailing_zeros 32 self.rest < 32 }
        ensures { (result.passed ≡ self.passed + count_trailing_zeros 32 self.rest + 1) × (result.rest ≡ self.rest / 2 ^ count_trailing_zeros 32 self.rest / 2) }
    {
        let zeros = self.rest.trailing_zeros();
        Walk {
            passed: self.passed + zeros + 1,
            rest: (self.rest >> zeros) / 2,
        }
    }
}
