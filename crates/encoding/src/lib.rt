// Document 01's set-up: from message and slack to the blocks of all nodes, with serials 0. The call is its gate, and then a private core: message and slack are
// laid side by side, so that one product by the powers of the nodes' points gives all blocks.
#![tactic(auto)]

ghost use Rattle.std.specs.Prelude.{◌+◌, ◌*◌, ◌≤◌, length, take, drop};
ghost use Rattle.params.specs.Params.{working};
ghost use Rattle.gates.specs.Refusals.{answer};
ghost use Rattle.code.specs.Calls.{EncodePost, Encoded};
ghost use Rattle.encoding.specs.Cores.{Encodable, Raisable};

use block_numbers::in_order;
use blocks::{clear, copy_block};
use gates::{Refusal, encode_gate};
use kernels::add_product;
use node_rows::encoding_rows;
use params::Params;
use serials::clear_serials;

// Writes the blocks of all nodes for a message and a slack, and serials 0, whatever the buffers held. A refusal leaves both as they were.
pub fn encode(
    a: Params,
    message: &[u8],
    slack: &[u8],
    codeword: &mut [u8],
    serials: &mut [u32],
) -> Result<(), Refusal>
    ensures { EncodePost a message.now slack.now codeword.old serials.old (answer result) codeword.new serials.new }
{
    encode_gate(a, message.len(), slack.len(), codeword.len(), serials.len())?;
    encode_blocks(a, message, slack, codeword);
    clear_serials(serials);
    Ok(())
}

// Makes room for message and slack side by side, about as much as is wanted, since room is cleared at each call.
// (A ladder of its own: a function over any closure would have to state for it what this contract says in its own words.)
// (What the three functions from here on ask for is no struct: each is a step of the one before, and the last would take the struct apart again.)
fn encode_blocks(a: Params, message: &[u8], slack: &[u8], codeword: &mut [u8])
    requires { Encodable a (length message.now) (length slack.now) (length codeword.old) }
    ensures { Encoded a message.now slack.now codeword.new }
{
    let size = message.len() + slack.len();
    if size <= 64 {
        encode_in::<64>(a, message, slack, codeword);
    } else if size <= 1024 {
        encode_in::<1024>(a, message, slack, codeword);
    } else if size <= 10240 {
        encode_in::<10240>(a, message, slack, codeword);
    } else {
        encode_in::<32768>(a, message, slack, codeword);
    }
}

// Kept apart, so that a call takes stack for its own room alone.
#[inline(never)]
fn encode_in<const ROOM: usize>(a: Params, message: &[u8], slack: &[u8], codeword: &mut [u8])
    requires encodable { Encodable a (length message.now) (length slack.now) (length codeword.old) }
    requires room { length message.now + length slack.now ≤ ROOM }
    requires small { ROOM ≤ 32768 }
    ensures { Encoded a message.now slack.now codeword.new }
{
    let mut parts = [0u8; ROOM];
    encode_joined(a, message, slack, &mut parts, codeword);
}

// The same, with room for message and slack.
fn encode_joined(a: Params, message: &[u8], slack: &[u8], parts: &mut [u8], codeword: &mut [u8])
    requires encodable { Encodable a (length message.now) (length slack.now) (length codeword.old) }
    requires slack_in_bounds { length message.now + length slack.now ≤ length parts.old }
    ensures { Encoded a message.now slack.now codeword.new }
{
    let first = message.len();
    let last = first + slack.len();
    copy_block(&mut parts[..first], message);
    copy_block(&mut parts[first..last], slack);
    encode_parts(a, &parts[..last], codeword);
}

// The message is the first k parts, the slack the others. Here room is made for the powers, again about as much as is wanted.
fn encode_parts(a: Params, parts: &[u8], codeword: &mut [u8])
    requires { Raisable a (length parts.now) (length codeword.old) }
    ensures { Encoded a (take (a.k * a.b) parts.now) (drop (a.k * a.b) parts.now) codeword.new }
{
    if a.n * a.working() <= 128 {
        encode_parts_in::<128>(a, parts, codeword);
    } else {
        encode_parts_in::<1024>(a, parts, codeword);
    }
}

fn encode_parts_in<const ROOM: usize>(a: Params, parts: &[u8], codeword: &mut [u8])
    requires raisable { Raisable a (length parts.now) (length codeword.old) }
    requires room { a.n * working a ≤ ROOM }
    requires small { ROOM ≤ 32768 }
    ensures { Encoded a (take (a.k * a.b) parts.now) (drop (a.k * a.b) parts.now) codeword.new }
{
    let mut rows = [0u8; ROOM];
    encode_within(a, parts, &mut rows, codeword);
}

// The same, with room for the powers: a row for each node, a column for each part. Parts and rows are lent anew: a slice that is handed on as it came is copied,
// pointer and length at once, just after these were stored one by one, and such a copy waits for the stores.
// The room is a slice: with a const parameter in its place the body would stand in the library once for each size of room.
fn encode_within(a: Params, parts: &[u8], rows: &mut [u8], codeword: &mut [u8])
    requires raisable { Raisable a (length parts.now) (length codeword.old) }
    requires a_in_bounds { a.n * working a ≤ length rows.old }
    ensures { Encoded a (take (a.k * a.b) parts.now) (drop (a.k * a.b) parts.now) codeword.new }
{
    let n = a.n;
    let q = a.working();
    let area = n * q;
    encoding_rows(n, q, &mut rows[..area]);
    let order = in_order();
    let columns = in_order();
    let size = parts.len();
    clear(codeword);
    add_product(
        codeword,
        &order[..n],
        a.b,
        &parts[..size],
        &columns[..q],
        &rows[..area],
        q,
    );
}
