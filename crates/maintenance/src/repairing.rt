// Rebuild: the blocks of lost nodes, from the blocks of others.
ghost use Rattle.std.specs.Prelude.{◌*◌, ◌≤◌, length};
ghost use Rattle.params.specs.Nodes.{size};
ghost use Rattle.gates.specs.Refusals.{answer};
ghost use Rattle.code.specs.Calls.{RepairPost};
ghost use Rattle.maintenance.specs.Cores.{Rebuildable, Rebuilt};

use extension::recompute;
use gates::{Refusal, repair_gate};
use params::{NodeSet, Params};
use placing::put_blocks;
use serials::{highest, stamp};

// The blocks of lost become those of the pair of the blocks of from's q lowest nodes, q the working number, and their serials the highest of all nodes of from. A
// refusal leaves codeword and serials as they were.
pub fn repair(
    a: Params,
    codeword: &mut [u8],
    serials: &mut [u32],
    from: NodeSet,
    lost: NodeSet,
) -> Result<(), Refusal>
    ensures { RepairPost a from.0 lost.0 codeword.old serials.old (answer result) codeword.new serials.new }
{
    repair_gate(a, codeword.len(), serials.len(), from, lost)?;
    let chosen = from.lowest(a.working());
    repair_blocks(a, codeword, chosen, lost);
    let newest = highest(serials, from);
    stamp(serials, lost, newest);
    Ok(())
}

// Makes room for the lost blocks, of about the size that is wanted, since room is cleared at each call.
// (A ladder of its own: a function over any closure would have to state for it what this contract says in its own words.)
fn repair_blocks(a: Params, codeword: &mut [u8], from: NodeSet, lost: NodeSet)
    requires { Rebuildable a from.0 lost.0 (length codeword.old) }
    ensures { Rebuilt a from.0 lost.0 codeword.old codeword.new }
{
    let size = lost.size() * a.b;
    if size <= 128 {
        repair_in::<128>(a, codeword, from, lost);
    } else if size <= 1024 {
        repair_in::<1024>(a, codeword, from, lost);
    } else if size <= 8192 {
        repair_in::<8192>(a, codeword, from, lost);
    } else {
        repair_in::<32768>(a, codeword, from, lost);
    }
}

// The same, with room for them: all are found before any is written. Kept apart, so that a call takes stack for its own room alone.
#[inline(never)]
fn repair_in<const ROOM: usize>(a: Params, codeword: &mut [u8], from: NodeSet, lost: NodeSet)
    requires rebuildable { Rebuildable a from.0 lost.0 (length codeword.old) }
    requires room { size lost.0 * a.b ≤ ROOM }
    requires small { ROOM ≤ 32768 }
    ensures { Rebuilt a from.0 lost.0 codeword.old codeword.new }
{
    let used = lost.size() * a.b;
    let mut fresh = [0u8; ROOM];
    recompute(a, codeword, from, lost, &mut fresh[..used]);
    put_blocks(codeword, lost, &fresh[..used], a.b);
}
