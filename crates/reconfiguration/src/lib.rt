// Document 01's rearrangement: from one shape to another, through a set R and with the blocks of a set W' made new. It is its gate, and then a
// private core, which knows of no gate.
//
// Outside W' the new pair has the old pair's blocks. These and the new message settle it, and so every block that is written. The others are copied.
#![tactic(auto)]

ghost use Rattle.std.specs.Prelude.{◌*◌, ◌≤◌, length};
ghost use Rattle.params.specs.Params.{slack_parts, reshaped};
ghost use Rattle.gates.specs.Refusals.{answer};
ghost use Rattle.code.specs.Calls.{ReconfigurePost};
ghost use Rattle.reconfiguration.specs.Core.{Asks, Writes};

use blocks::copy_block;
use extension::{complete, recompute};
use gates::{Refusal, reconfigure_gate};
use params::{NodeSet, Params, Shape};
use serials::{hand_on, highest};

// Writes the record of the new shape to out, and its serials to numbers. The old record is only read, its pair from the blocks of from's q lowest nodes, q the
// working number. The nodes that are written take the highest serial of all nodes of from. A refusal leaves out and numbers as they were.
pub fn reconfigure(
    a: Params,
    shape: Shape,
    codeword: &[u8],
    serials: &[u32],
    from: NodeSet,
    to: NodeSet,
    message: &[u8],
    out: &mut [u8],
    numbers: &mut [u32],
) -> Result<(), Refusal>
    ensures { ReconfigurePost a shape codeword.now serials.now from.0 to.0 message.now out.old numbers.old (answer result) out.new numbers.new }
{
    reconfigure_gate(
        a,
        shape,
        codeword.len(),
        serials.len(),
        out.len(),
        numbers.len(),
        message.len(),
        from,
        to,
    )?;
    let chosen = from.lowest(a.working());
    let core = Rearrangement {
        a,
        shape,
        codeword,
        from: chosen,
        to,
        message,
    };
    core.write(out);
    let made = to.outside(a.n).outside(shape.n);
    hand_on(serials, made, highest(serials, from), numbers);
    Ok(())
}

// The old record and its parameters, the set that its pair is read from, and the new shape, W' and message.
#[derive(Clone, Copy)]
struct Rearrangement<'a> {
    a: Params,
    shape: Shape,
    codeword: &'a [u8],
    from: NodeSet,
    to: NodeSet,
    message: &'a [u8],
}

impl<'a> Rearrangement<'a> {
    // Makes room for the old pair's blocks outside W', of about the size that is wanted, since room is cleared at each call.
    // (A ladder of its own: a function over any closure would have to state for it what this contract says in its own words.)
    fn write(&self, out: &mut [u8])
        requires { Asks self.now (length out.old) }
        ensures { Writes self.now out.new }
    {
        let size = self.to.outside(self.shape.n).size() * self.a.b;
        if size <= 128 {
            self.write_in::<128>(out);
        } else if size <= 1024 {
            self.write_in::<1024>(out);
        } else {
            self.write_in::<32768>(out);
        }
    }

    // Kept apart, so that a call takes stack for its own room alone.
    #[inline(never)]
    fn write_in<const ROOM: usize>(&self, out: &mut [u8])
        requires asks { Asks self.now (length out.old) }
        requires room { slack_parts (reshaped self.now.a self.now.shape) * self.now.a.b ≤ ROOM }
        requires small { ROOM ≤ 32768 }
        ensures { Writes self.now out.new }
    {
        let mut z = [0u8; ROOM];
        self.write_over(&mut z, out);
    }

    // z: the old pair's blocks at the nodes outside W'. The new pair's blocks in W' and above n then go over a copy of the old record.
    // The room is a slice: with a const parameter in its place the body would stand in the library once for each size of room.
    fn write_over(&self, z: &mut [u8], out: &mut [u8])
        requires asks { Asks self.now (length out.old) }
        requires b_in_bounds { slack_parts (reshaped self.now.a self.now.shape) * self.now.a.b ≤ length z.old }
        ensures { Writes self.now out.new }
    {
        let Rearrangement {
            a,
            shape,
            codeword,
            from,
            to,
            message,
        } = *self;
        let free = to.outside(shape.n);
        let kept = to.outside(a.n);
        let made = kept.outside(shape.n);
        let old = free.size() * a.b;
        recompute(a, codeword, from, free, &mut z[..old]);
        copy_block(out, codeword);
        complete(a.b, shape.k, free, made, message, &z[..old], out);
    }
}
