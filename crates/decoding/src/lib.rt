// Document 01's reading: from the blocks of some nodes back to the message. The call is its gate, and then a private core: a small matrix of coefficients is found
// once and applied to the blocks by one product.
#![tactic(auto)]

ghost use Rattle.std.specs.Prelude.{◌*◌, ◌≤◌, length};
ghost use Rattle.params.specs.Nodes.{size};
ghost use Rattle.gates.specs.Refusals.{answer};
ghost use Rattle.code.specs.Calls.{DecodePost};
ghost use Rattle.decoding.specs.Cores.{Decodable, Recovered};

use block_numbers::{in_order, places_of};
use blocks::clear;
use gates::{Refusal, decode_gate};
use kernels::add_product;
use node_rows::decoding_rows;
use params::{NodeSet, Params};

// Reads the message from the blocks of from's q lowest nodes, q the working number, whichever bytes they and the others hold. A refusal leaves out as it was.
pub fn decode(a: Params, codeword: &[u8], from: NodeSet, out: &mut [u8]) -> Result<(), Refusal>
    ensures { DecodePost a codeword.now from.0 out.old (answer result) out.new }
{
    decode_gate(a, codeword.len(), out.len(), from)?;
    let chosen = from.lowest(a.working());
    decode_parts(a, codeword, chosen, out);
    Ok(())
}

// Reads the message from as many nodes as message and slack have parts. Room for the rows that take their blocks to the message is of about the size that is
// wanted, since it is cleared at each call.
// (A ladder of its own: a function over any closure would have to state for it what this contract says in its own words.)
// (What the three functions from here on ask for is no struct: each is a step of the one before, and the last would take the struct apart again.)
fn decode_parts(a: Params, codeword: &[u8], from: NodeSet, out: &mut [u8])
    requires { Decodable a (length codeword.now) (length out.old) from.0 }
    ensures { Recovered a codeword.now from.0 out.new }
{
    if a.k * from.size() <= 128 {
        decode_in::<128>(a, codeword, from, out);
    } else {
        decode_in::<1024>(a, codeword, from, out);
    }
}

fn decode_in<const ROOM: usize>(a: Params, codeword: &[u8], from: NodeSet, out: &mut [u8])
    requires decodable { Decodable a (length codeword.now) (length out.old) from.0 }
    requires room { a.k * size from.0 ≤ ROOM }
    requires small { ROOM ≤ 32768 }
    ensures { Recovered a codeword.now from.0 out.new }
{
    let mut rows = [0u8; ROOM];
    decode_within(a, codeword, from, &mut rows, out);
}

// The same, with room for the rows. Codeword and rows are lent anew, for the reason that encode_within of crate encoding gives.
// The room is a slice: with a const parameter in its place the body would stand in the library once for each size of room.
fn decode_within(a: Params, codeword: &[u8], from: NodeSet, rows: &mut [u8], out: &mut [u8])
    requires decodable { Decodable a (length codeword.now) (length out.old) from.0 }
    requires from_in_bounds { a.k * size from.0 ≤ length rows.old }
    ensures { Recovered a codeword.now from.0 out.new }
{
    let k = a.k;
    let b = a.b;
    let q = from.size();
    let area = k * q;
    let mut places = [0u8; 32];
    places_of(from, &mut places);
    decoding_rows(k, from, &mut rows[..area]);
    let order = in_order();
    let size = codeword.len();
    clear(out);
    add_product(
        out,
        &order[..k],
        b,
        &codeword[..size],
        &places[..q],
        &rows[..area],
        q,
    );
}
