// The search: sets are tried one after the other until one serves or the budget is spent.
ghost use Rattle.std.specs.Prelude.{length};
ghost use Rattle.code.specs.Calls.{Blames};
ghost use Rattle.checking.specs.Cores.{Searchable, Untried, Given};

use code::Blame;
use consistency::{other_node, place_of};
use params::{NodeSet, Params};
use probes::Probes;
use subsets::next;

// The empty set first, for which a sound record needs no probes. The first probe is a place where a node's block shows that this one fails.
pub(crate) fn search(a: Params, codeword: &[u8], budget: usize, fresh: &mut [u8]) -> Blame
    requires { Searchable a (length codeword.now) (length fresh.old) }
    ensures { Blames a codeword.now budget result }
{
    let empty = NodeSet(0);
    if budget == 0 {
        return give_up(a, empty, 0);
    }
    let Some(node) = other_node(a, codeword, empty, 32, fresh) else {
        return Blame {
            set: empty,
            tried: 1,
            distance: 0,
        };
    };
    let mut probes = Probes::new();
    if let Some(place) = place_of(a, codeword, empty, node, fresh) {
        probes.add(a, codeword, place);
    }
    let mut set = next(empty, a.n);
    for tried in 1..budget {
        if probes.try_set(a, codeword, set, fresh) {
            return Blame {
                set,
                tried: tried + 1,
                distance: 0,
            };
        }
        set = next(set, a.n);
    }
    give_up(a, set, budget)
}

// The budget is spent: all nodes behind the first q, and how much larger they are than the first set that was not tried.
fn give_up(a: Params, untried: NodeSet, tried: usize) -> Blame
    requires { Untried a untried.0 }
    ensures { Given a untried.0 tried result }
{
    let behind = NodeSet(0).outside(a.working()).outside(a.n);
    let distance = behind.size() - untried.size();
    Blame {
        set: behind,
        tried,
        distance,
    }
}
