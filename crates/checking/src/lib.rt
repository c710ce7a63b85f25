// Check (document 02, request 2026-06): the smallest set of nodes without which one pair gives all other blocks, sought within a budget. It is its gate, and then a
// private core, which knows of no gate.
#![tactic(auto)]

mod searching;

ghost use Rattle.std.specs.Prelude.{◌≤◌, length};
ghost use Rattle.code.specs.Calls.{CheckPost, Blames, verdict};
ghost use Rattle.checking.specs.Cores.{Searchable};

use code::Blame;
use gates::{Refusal, check_gate};
use params::Params;
use searching::search;

// The first set that serves, among as many as the budget allows; else all nodes behind the first q, and how far their number may be above the smallest. Room for
// the blocks of the nodes behind the first ones is of about the size that is wanted, since it is cleared at each call.
// (A ladder of its own: a function over any closure would have to state for it what this contract says in its own words.)
pub fn check(a: Params, codeword: &[u8], budget: usize) -> Result<Blame, Refusal>
    ensures { CheckPost a codeword.now budget (verdict result) }
{
    check_gate(a, codeword.len())?;
    let size = (a.n - a.working()) * a.b;
    let blame = if size <= 128 {
        search_in::<128>(a, codeword, budget)
    } else if size <= 1024 {
        search_in::<1024>(a, codeword, budget)
    } else {
        search_in::<32768>(a, codeword, budget)
    };
    Ok(blame)
}

// Kept apart, so that a call takes stack for its own room alone. (Each such function asks that ROOM is bounded: without it the array is not known to fit the memory.)
#[inline(never)]
fn search_in<const ROOM: usize>(a: Params, codeword: &[u8], budget: usize) -> Blame
    requires searchable { Searchable a (length codeword.now) ROOM }
    requires small { ROOM ≤ 32768 }
    ensures { Blames a codeword.now budget result }
{
    let mut fresh = [0u8; ROOM];
    search(a, codeword, budget, &mut fresh)
}
