// Document 01's difference and change: what a change of the message adds to the blocks of the nodes that it writes, so that the others keep theirs. Each is its
// gate, and then a private core: a small matrix of coefficients is found once, and one product adds what the change makes to the blocks that it goes to.
#![tactic(auto)]

ghost use Rattle.std.specs.Prelude.{◌*◌, ◌≤◌, length};
ghost use Rattle.gates.specs.Refusals.{answer};
ghost use Rattle.code.specs.Calls.{DeltaPost, UpdatePost};
ghost use Rattle.updates.specs.Spreading.{Spread, Spreadable};

use block_numbers::{in_order, places_of};
use blocks::clear;
use gates::{Refusal, delta_gate, update_gate};
use kernels::add_product;
use node_rows::extending_rows;
use params::{NodeSet, Params};
use serials::{stamp, takers};

// The differences that the change makes at the nodes of `to`, in rising order of the nodes. A refusal leaves out as it was.
pub fn delta(a: Params, change: &[u8], to: NodeSet, out: &mut [u8]) -> Result<(), Refusal>
    ensures { DeltaPost a change.now to.0 out.old (answer result) out.new }
{
    delta_gate(a, change.len(), out.len(), to)?;
    let w = a.w;
    let order = in_order();
    clear(out);
    spread(a, change, to, to, &order[..w], out);
    Ok(())
}

// One send of a change: the nodes of `to` that are reached and have a lower serial add the same differences to their blocks and take the serial. A refusal leaves
// codeword and serials as they were.
pub fn update(
    a: Params,
    codeword: &mut [u8],
    serials: &mut [u32],
    change: &[u8],
    to: NodeSet,
    serial: u32,
    reached: NodeSet,
) -> Result<(), Refusal>
    ensures { UpdatePost a change.now to.0 serial reached.0 codeword.old serials.old (answer result) codeword.new serials.new }
{
    update_gate(a, codeword.len(), serials.len(), change.len(), to, serial)?;
    let taking = takers(to, reached, serials, serial);
    let count = taking.size();
    let mut places = [0u8; 32];
    places_of(taking, &mut places);
    spread(a, change, to, taking, &places[..count], codeword);
    stamp(serials, taking, serial);
    Ok(())
}

// What a change that vanishes at the nodes outside `to` makes of the block of each of the takers is added to the block of out that targets names for it. Room
// for the rows is of about the size that is wanted, since it is cleared at each call.
// (A ladder of its own: a function over any closure would have to state for it what this contract says in its own words.)
fn spread(a: Params, change: &[u8], to: NodeSet, takers: NodeSet, targets: &[u8], out: &mut [u8])
    requires { Spreadable a (length change.now) to.0 takers.0 targets.now (length out.old) }
    ensures { Spread a change.now to.0 takers.0 targets.now out.old out.new }
{
    if targets.len() * a.n <= 128 {
        spread_in::<128>(a, change, to, takers, targets, out);
    } else {
        spread_in::<1024>(a, change, to, takers, targets, out);
    }
}

// The same, with room for the rows that take the change, and the values at the nodes outside `to`, to the values at the takers. The values outside are all
// 00, so that the leading rows alone are applied. What the product reads is lent anew, for the reason that encode_within of crate encoding gives. Kept apart, so
// that a call takes stack for its own rooms alone.
#[inline(never)]
fn spread_in<const ROOM: usize>(
    a: Params,
    change: &[u8],
    to: NodeSet,
    takers: NodeSet,
    targets: &[u8],
    out: &mut [u8],
)
    requires spreadable { Spreadable a (length change.now) to.0 takers.0 targets.now (length out.old) }
    requires room { length targets.now * a.n ≤ ROOM }
    requires small { ROOM ≤ 32768 }
    ensures { Spread a change.now to.0 takers.0 targets.now out.old out.new }
{
    let m = targets.len();
    let k = a.k;
    let b = a.b;
    let l = a.slack_parts();
    let leading_area = m * k;
    let gains_area = m * l;
    let outside = to.outside(a.n);
    let mut leading = [0u8; ROOM];
    let mut gains = [0u8; ROOM];
    extending_rows(
        k,
        outside,
        takers,
        &mut leading[..leading_area],
        &mut gains[..gains_area],
    );
    let order = in_order();
    let size = change.len();
    add_product(
        out,
        &targets[..m],
        b,
        &change[..size],
        &order[..k],
        &leading[..leading_area],
        k,
    );
}
