// Whether one pair gives the blocks of all nodes outside a set: that of the q lowest of them, q the working number, is compared with the others. Each function holds
// for slices of any lengths.
#![tactic(auto)]

ghost use Rattle.std.specs.Prelude.{◌<◌, length, IfSome};
ghost use Rattle.consistency.specs.Tested.{Testable, Tested};

use extension::recompute;
use params::{Node, NodeSet, Params};
use placing::first_other;

// Where the set leaves q nodes: a node outside it whose block is not that of the pair of the q lowest nodes outside it; of the others only so many as `most` says are
// compared, the lowest. None where there is no such node. It is none too where blocks have more than 1,024 bytes, or fresh has no room for those that are compared; of
// these cases nothing is promised, and in no case of what fresh then holds.
pub fn other_node(
    a: Params,
    codeword: &[u8],
    set: NodeSet,
    most: usize,
    fresh: &mut [u8],
) -> Option<Node>
    ensures { Testable a set.0 (length codeword.now) (length fresh.old) → Tested a set.0 most codeword.now result }
{
    let rest = set.outside(a.n);
    let chosen = rest.lowest(a.working());
    let others = NodeSet(chosen.outside(a.n).0 & rest.0).lowest(most);
    if 1024 < a.b {
        return None;
    }
    let used = others.size() * a.b;
    if fresh.len() < used {
        return None;
    }
    recompute(a, codeword, chosen, others, &mut fresh[..used]);
    first_other(codeword, others, &fresh[..used], a.b)
}

// A byte place for a probe: the first at which the node's block is not that of the pair of the q lowest nodes outside the set. None where there is none, where the
// node has no block in codeword, and where fresh has no room for one. That it is a place of a block is all that is promised: only the speed of a search rests on
// which it is.
pub fn place_of(
    a: Params,
    codeword: &[u8],
    set: NodeSet,
    node: Node,
    fresh: &mut [u8],
) -> Option<usize>
    ensures { IfSome result (λ place. place < a.b) }
{
    if node.0 < 1 || 32 < node.0 || 1024 < a.b {
        return None;
    }
    let end = usize::from(node.0) * a.b;
    if codeword.len() < end || fresh.len() < a.b {
        return None;
    }
    let chosen = set.outside(a.n).lowest(a.working());
    let target = NodeSet(1u32 << (node.0 - 1));
    recompute(a, codeword, chosen, target, &mut fresh[..a.b]);
    let block = &codeword[end - a.b..end];
    block.iter().zip(&fresh[..a.b]).position(|(x, y)| x != y)
}
