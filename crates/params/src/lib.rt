// Code parameters, nodes and node sets (document 01, "The arrangement and the record"). No field arithmetic.
#![tactic(auto)]

pub mod node_set;

ghost use Rattle.std.specs.Prelude.{◌≡◌, ◌-◌, ◌^◌, min};
ghost use Rattle.params.specs.Params.{slack_parts, working, shape_of};

// The parameters of a code but for the block size; document 01's k, r, w, n.
#[derive(Clone, Copy, PartialEq, Eq)]
pub struct Shape {
    // message parts
    pub k: usize,
    // nodes that a decode reads
    pub r: usize,
    // nodes that an update writes
    pub w: usize,
    // nodes in all
    pub n: usize,
}

// Code parameters. Document 01 calls them an arrangement.
// (The shape's fields stand here anew: the definitions and contracts say a.k and a.n over a thousand times, and a.shape.n there would be no plainer.)
#[derive(Clone, Copy, PartialEq, Eq)]
pub struct Params {
    pub k: usize,
    pub r: usize,
    pub w: usize,
    pub n: usize,
    // bytes in each block
    pub b: usize,
}

// A storage node's number, from 1. Document 01 calls it a trap number.
#[derive(Clone, Copy, PartialEq, Eq)]
pub struct Node(pub u8);

// A set of nodes, node i worth 2^(i-1). Document 01 calls it a choice of traps.
#[derive(Clone, Copy, PartialEq, Eq)]
pub struct NodeSet(pub u32);

impl Params {
    // All but the block size.
    pub fn shape(self) -> Shape
        ensures { result ≡ shape_of self }
    {
        Shape {
            k: self.k,
            r: self.r,
            w: self.w,
            n: self.n,
        }
    }

    // How many parts the slack has: n - w, or 0 where w exceeds n.
    pub fn slack_parts(self) -> usize
        ensures { result ≡ slack_parts self }
    {
        self.n.saturating_sub(self.w)
    }

    // The working number: k plus the slack's parts, but at most the largest usize.
    pub fn working(self) -> usize
        ensures { result ≡ min (working self) (2 ^ 64 - 1) }
    {
        self.k.saturating_add(self.slack_parts())
    }
}
