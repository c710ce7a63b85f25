// The library for C and Rust: each call on plain numbers and slices, under a name of its own. A slice is a pointer and a length there.
// Answers are document 01's numbers. (Numbers, lengths and pointers, and no Params, Option or Result: the C interface.)
#![tactic(auto)]

ghost use Rattle.std.specs.Prelude.{◌≡◌};
ghost use Rattle.gates.specs.Refusals.{answer};
ghost use Rattle.code.specs.Calls.{EncodePost, DecodePost, DeltaPost, UpdatePost, RepairPost, ReconfigurePost};
ghost use Rattle.jirvents.specs.Exports.{params, shape, CheckGave, ViewGave, InvertGave};

use checking::check;
use decoding::decode;
use encoding::encode;
use gates::Refusal;
use maintenance::repair;
use matrix::{Uninvertible, invert};
use params::{Node, NodeSet, Params, Shape};
use reconfiguration::reconfigure;
use updates::{delta, update};
use views::view_status;

// Document 01's number of a call's answer: 0 where it is served.
fn number(r: Result<(), Refusal>) -> u32
    ensures { result ≡ answer r }
{
    match r {
        Ok(()) => 0,
        Err(q) => u32::from(q),
    }
}

// Writes the codeword of a message and a slack, and serials 0.
#[unsafe(no_mangle)]
pub extern "C" fn jirvents_encode(
    k: usize,
    r: usize,
    w: usize,
    n: usize,
    b: usize,
    message: &[u8],
    slack: &[u8],
    codeword: &mut [u8],
    serials: &mut [u32],
) -> u32
    ensures { EncodePost (params k r w n b) message.now slack.now codeword.old serials.old result codeword.new serials.new }
{
    number(encode(Params { k, r, w, n, b }, message, slack, codeword, serials))
}

// Reads the message from the blocks of from's q lowest nodes, q the working number.
#[unsafe(no_mangle)]
pub extern "C" fn jirvents_decode(
    k: usize,
    r: usize,
    w: usize,
    n: usize,
    b: usize,
    codeword: &[u8],
    from: u32,
    out: &mut [u8],
) -> u32
    ensures { DecodePost (params k r w n b) codeword.now from out.old result out.new }
{
    number(decode(Params { k, r, w, n, b }, codeword, NodeSet(from), out))
}

// Writes what a change of the message adds to the blocks of the nodes in to.
#[unsafe(no_mangle)]
pub extern "C" fn jirvents_delta(
    k: usize,
    r: usize,
    w: usize,
    n: usize,
    b: usize,
    change: &[u8],
    to: u32,
    out: &mut [u8],
) -> u32
    ensures { DeltaPost (params k r w n b) change.now to out.old result out.new }
{
    number(delta(Params { k, r, w, n, b }, change, NodeSet(to), out))
}

// Adds a change of the message through the nodes in to: at those that are reached and have a serial below the given one, which they take.
#[unsafe(no_mangle)]
pub extern "C" fn jirvents_update(
    k: usize,
    r: usize,
    w: usize,
    n: usize,
    b: usize,
    codeword: &mut [u8],
    serials: &mut [u32],
    change: &[u8],
    to: u32,
    serial: u32,
    reached: u32,
) -> u32
    ensures { UpdatePost (params k r w n b) change.now to serial reached codeword.old serials.old result codeword.new serials.new }
{
    number(update(
        Params { k, r, w, n, b },
        codeword,
        serials,
        change,
        NodeSet(to),
        serial,
        NodeSet(reached),
    ))
}

// Writes the blocks of lost anew from those of from's q lowest nodes; their serials become the highest of from's.
#[unsafe(no_mangle)]
pub extern "C" fn jirvents_repair(
    k: usize,
    r: usize,
    w: usize,
    n: usize,
    b: usize,
    codeword: &mut [u8],
    serials: &mut [u32],
    from: u32,
    lost: u32,
) -> u32
    ensures { RepairPost (params k r w n b) from lost codeword.old serials.old result codeword.new serials.new }
{
    number(repair(
        Params { k, r, w, n, b },
        codeword,
        serials,
        NodeSet(from),
        NodeSet(lost),
    ))
}

// Writes the codeword of new parameters with a new message, through the blocks of from's q lowest nodes and with those of to made new, and its serials.
#[unsafe(no_mangle)]
pub extern "C" fn jirvents_reconfigure(
    k: usize,
    r: usize,
    w: usize,
    n: usize,
    b: usize,
    k2: usize,
    r2: usize,
    w2: usize,
    n2: usize,
    codeword: &[u8],
    serials: &[u32],
    from: u32,
    to: u32,
    message: &[u8],
    out: &mut [u8],
    numbers: &mut [u32],
) -> u32
    ensures { ReconfigurePost (params k r w n b) (shape k2 r2 w2 n2) codeword.now serials.now from to message.now out.old numbers.old result out.new numbers.new }
{
    let t = Shape {
        k: k2,
        r: r2,
        w: w2,
        n: n2,
    };
    number(reconfigure(
        Params { k, r, w, n, b },
        t,
        codeword,
        serials,
        NodeSet(from),
        NodeSet(to),
        message,
        out,
        numbers,
    ))
}

// Which nodes to blame: where the answer is 0, set becomes nodes without which one pair gives all other blocks, tried how many sets were tried, at most the budget,
// and distance how far the set's size may be above the smallest.
#[unsafe(no_mangle)]
pub extern "C" fn jirvents_check(
    k: usize,
    r: usize,
    w: usize,
    n: usize,
    b: usize,
    codeword: &[u8],
    budget: usize,
    set: &mut u32,
    tried: &mut usize,
    distance: &mut usize,
) -> u32
    ensures { CheckGave (params k r w n b) codeword.now budget set.old tried.old distance.old result set.new tried.new distance.new }
{
    match check(Params { k, r, w, n, b }, codeword, budget) {
        Ok(blame) => {
            *set = blame.set.0;
            *tried = blame.tried;
            *distance = blame.distance;
            0
        }
        Err(refusal) => u32::from(refusal),
    }
}

// Where a node's block begins in the codeword: where the answer is 0, start becomes that place, and the block is the b bytes from there on.
#[unsafe(no_mangle)]
pub extern "C" fn jirvents_view(
    k: usize,
    r: usize,
    w: usize,
    n: usize,
    b: usize,
    codeword: &[u8],
    node: u8,
    start: &mut usize,
) -> u32
    ensures { ViewGave (params k r w n b) codeword.now node start.old result start.new }
{
    match view_status(Params { k, r, w, n, b }, codeword, Node(node)) {
        Ok(()) => {
            *start = (usize::from(node) - 1) * b;
            0
        }
        Err(q) => u32::from(q),
    }
}

// Writes the inverse of the matrix of the given side. Where the answer is 15, column becomes the first column that is a sum of multiples of those before it (a column of 00 counts).
#[unsafe(no_mangle)]
pub extern "C" fn jirvents_invert(
    side: usize,
    matrix: &[u8],
    out: &mut [u8],
    column: &mut usize,
) -> u32
    ensures { InvertGave side matrix.now out.old out.new column.old result column.new }
{
    match invert(side, matrix, out) {
        Ok(()) => 0,
        Err(why) => {
            if let Uninvertible::Singular(found) = why {
                *column = found;
            }
            why.into()
        }
    }
}
