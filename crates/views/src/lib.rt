// Document 01's view: one node's block as a part of the lent codeword, and whether it is refused and why. No byte is written or computed with.
#![tactic(auto)]

ghost use Rattle.std.specs.Prelude.{◌≡◌, length};
ghost use Rattle.gates.specs.Gates.{view_gate};
ghost use Rattle.gates.specs.Refusals.{answer};
ghost use Rattle.code.specs.Calls.{ViewPost};

use gates::{Refusal, view_gate};
use params::{Node, Params};

// The node's block; an empty part where the call is refused, and no Result: document 01 has it so ("A refused view is a part of length 0", `ViewPost`).
pub fn view(a: Params, codeword: &[u8], node: Node) -> &[u8]
    ensures { ViewPost a codeword.now node.0 result.now }
{
    if view_gate(a, codeword.len(), node).is_err() {
        return &codeword[0..0];
    }
    let b = a.b;
    let start = (usize::from(node.0) - 1) * b;
    let end = start + b;
    &codeword[start..end]
}

// Whether the view of the same arguments is refused, and why.
pub fn view_status(a: Params, codeword: &[u8], node: Node) -> Result<(), Refusal>
    ensures { answer result ≡ view_gate a (length codeword.now) node.0 }
{
    view_gate(a, codeword.len(), node)
}
