// Serials (document 02, request 2026-03), a number of 32 bits for each node: which nodes take a change, and what serials they, rebuilt nodes and newly written ones
// have then.
#![tactic(auto)]

ghost use Rattle.std.specs.Prelude.{◌≡◌, ◌&&◌, cond, ℕ, suc, ◌<◌, ◌%◌, max, leb, ltb, eqb, length, get_or, replicate};
ghost use Rattle.base.specs.Seq.{one};
ghost use Rattle.params.specs.Nodes.{has};
ghost use Rattle.serials.specs.Serials.{takes, highest, Stamped};

use params::NodeSet;

// All serials become 0.
pub fn clear_serials(serials: &mut [u32])
    ensures { serials.new ≡ replicate (length serials.old) 0 }
{
    serials.fill(0);
}

// The nodes of `to` that are reached and whose own serial, among those given, is below the serial.
pub fn takers(to: NodeSet, reached: NodeSet, serials: &[u32], serial: u32) -> NodeSet
    ensures { (i : ℕ) → has result.0 i ≡ (takes to.0 reached.0 serials.now serial i && leb i (length serials.now)) }
{
    NodeSet(to.0 & reached.0 & older(serials, serial))
}

// The nodes of 1..32 whose serial is below the given one, as a word. Each turn puts the next lower node under those before.
fn older(serials: &[u32], serial: u32) -> u32
    ensures { (j : ℕ) → j < 32 → has result (suc j) ≡ (ltb (get_or serials.now j 0) serial && leb (suc j) (length serials.now)) }
{
    let mut word: u32 = 0;
    // by a range: the invariant needs the place, and of a reversed iterator it has only what it gave
    for at in (0..serials.len().min(32)).rev() {
        word = word * 2 + u32::from(serials[at] < serial);
    }
    word
}

// The nodes of the set take the serial.
pub fn stamp(serials: &mut [u32], set: NodeSet, serial: u32)
    ensures { Stamped (length serials.old) (has set.0) serial serials.old serials.new }
{
    let mut rest = set.0;
    for own in serials.iter_mut() {
        *own = pick(rest, serial, *own);
        rest /= 2;
    }
}

// The same from the serials of other nodes: those of the set take the serial, the others that of the node of the same number, or 0 where there is none.
pub fn hand_on(serials: &[u32], set: NodeSet, serial: u32, out: &mut [u32])
    ensures { Stamped (length out.old) (has set.0) serial serials.now out.new }
{
    // no `copy_from_slice`, for the reason that blocks::copy_block gives
    for (at, own) in out.iter_mut().enumerate() {
        *own = serials.get(at).copied().unwrap_or(0);
    }
    stamp(out, set, serial);
}

// The highest serial of the set's nodes, 0 where it has none.
pub fn highest(serials: &[u32], set: NodeSet) -> u32
    ensures { result ≡ highest (has set.0) serials.now (length serials.now) }
{
    let mut rest = set.0;
    let mut most: u32 = 0;
    for own in serials {
        most = most.max(pick(rest, *own, 0));
        rest /= 2;
    }
    most
}

// The first number if the set's lowest bit is 1, else the second.
fn pick(set: u32, first: u32, second: u32) -> u32
    ensures { result ≡ cond (eqb (set % 2) 1) first second }
{
    if set % 2 == 1 { first } else { second }
}
