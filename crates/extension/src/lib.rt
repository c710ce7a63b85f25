// Blocks from parts and blocks: at each byte place, the values of a polynomial at some nodes from its leading coefficients and its values at others. The rows of
// coefficients are found once, for all blocks and byte places.
#![tactic(auto)]

ghost use Rattle.std.specs.Prelude.{◌*◌, ◌≤◌, length};
ghost use Rattle.field.specs.Field.{Bytes};
ghost use Rattle.params.specs.Nodes.{size};
ghost use Rattle.extension.specs.Blocks.{RecomputePost, CompletePost};
ghost use Rattle.extension.specs.Extending.{Asks, Adds};

use base::is_product;
use block_numbers::{in_order, places_of};
use blocks::clear;
use kernels::add_product;
use node_rows::extending_rows;
use params::{NodeSet, Params};
use placing::{clear_blocks, has_blocks};

// fresh := the targets' blocks, in rising order, of the pair that gives from's blocks. Where from has not just as many nodes as message and slack have parts, or
// one above n, or where codeword has not just n blocks, or fresh not just one for each target, nothing is written.
pub fn recompute(a: Params, codeword: &[u8], from: NodeSet, targets: NodeSet, fresh: &mut [u8])
    ensures { RecomputePost a from.0 targets.0 codeword.now fresh.old fresh.new }
{
    let q = from.size();
    let rows = targets.size();
    if q != a.working() {
        return;
    }
    if !from.within(a.n) {
        return;
    }
    if !is_product(codeword.len(), a.n, a.b) {
        return;
    }
    if !is_product(fresh.len(), rows, a.b) {
        return;
    }
    let mut places = [0u8; 32];
    places_of(from, &mut places);
    let order = in_order();
    clear(fresh);
    let wanted = Extension {
        b: a.b,
        e: 0,
        at: from,
        targets,
        message: &codeword[..0usize],
        z: codeword,
        places: &places[..q],
        to: &order[..rows],
    };
    wanted.add_to(fresh);
}

// At each byte place message has the e leading coefficients of a polynomial, and z its values at the nodes of at, in rising order. The targets' blocks of out
// become its values at the targets; the others are as they were. Where e exceeds 32, message has not just e parts, z not just a block for each node of at, or
// out none for one of the targets, nothing is written.
pub fn complete(
    b: usize,
    e: usize,
    at: NodeSet,
    targets: NodeSet,
    message: &[u8],
    z: &[u8],
    out: &mut [u8],
)
    ensures { CompletePost b e at.0 targets.0 message.now z.now out.old out.new }
{
    let q = at.size();
    let rows = targets.size();
    if 32 < e {
        return;
    }
    if !is_product(message.len(), e, b) {
        return;
    }
    if !is_product(z.len(), q, b) {
        return;
    }
    if !has_blocks(out.len(), targets, b) {
        return;
    }
    let mut places = [0u8; 32];
    places_of(targets, &mut places);
    let order = in_order();
    clear_blocks(out, targets, b);
    let wanted = Extension {
        b,
        e,
        at,
        targets,
        message,
        z,
        places: &order[..q],
        to: &places[..rows],
    };
    wanted.add_to(out);
}

// What is wanted: at each byte place message has the e leading coefficients of a polynomial, and z's blocks at the places its values at the nodes of `at`. Its value
// at each target goes to the block that `to` names for it.
#[derive(Clone, Copy)]
struct Extension<'a> {
    b: usize,
    e: usize,
    at: NodeSet,
    targets: NodeSet,
    message: &'a [u8],
    z: &'a [u8],
    places: &'a [u8],
    to: &'a [u8],
}

impl<'a> Extension<'a> {
    // The values at the targets are added to their blocks of out. Room for the rows is of about the size that is wanted, since it is cleared at each call.
    // (A ladder of its own: a function over any closure would have to state for it what this contract says in its own words.)
    fn add_to(&self, out: &mut [u8])
        requires asks { Asks self.now (length out.old) }
        requires bytes { Bytes self.now.message.now }
        ensures { Adds self.now out.old out.new }
    {
        if self.targets.size() * (self.e + self.at.size()) <= 128 {
            self.add_in::<128>(out);
        } else {
            self.add_in::<1024>(out);
        }
    }

    // The same, with room for the rows: leading takes the coefficients to the targets' values, gains the values at the nodes of `at`. Kept apart, so that a call takes
    // stack for its own rooms alone.
    #[inline(never)]
    fn add_in<const ROOM: usize>(&self, out: &mut [u8])
        requires asks { Asks self.now (length out.old) }
        requires bytes { Bytes self.now.message.now }
        requires room { (size self.now.targets.0 * self.now.e ≤ ROOM) × (size self.now.targets.0 * size self.now.at.0 ≤ ROOM) }
        requires small { ROOM ≤ 32768 }
        ensures { Adds self.now out.old out.new }
    {
        let Extension {
            b,
            e,
            at,
            targets,
            message,
            z,
            places,
            to,
        } = *self;
        let rows = targets.size();
        let q = at.size();
        let first = rows * e;
        let second = rows * q;
        let mut leading = [0u8; ROOM];
        let mut gains = [0u8; ROOM];
        let columns = in_order();
        extending_rows(e, at, targets, &mut leading[..first], &mut gains[..second]);
        add_product(out, to, b, message, &columns[..e], &leading[..first], e);
        add_product(out, to, b, z, places, &gains[..second], q);
    }
}
