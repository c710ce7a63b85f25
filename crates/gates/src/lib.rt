// Document 01's questions at the gate, one function for each call: it refuses by the first question whose answer is no. It sees numbers, sets and lengths only.
#![tactic(auto)]

ghost use Rattle.std.specs.Prelude.{◌≡◌, [], ◌∷◌, ◌+◌, ◌≤◌, eqb};
ghost use Rattle.base.specs.Gate.{ask, first_no};
ghost use Rattle.params.specs.Nodes.{size, within};
ghost use Rattle.gates.specs.Gates.{shape_asked, params_asked, names_asked, sizes_asked, node_asked};
ghost use Rattle.gates.specs.Gates.{encode_gate, check_gate, decode_gate, delta_gate, update_gate, repair_gate, view_gate, reconfigure_gate, damage_gate};
ghost use Rattle.gates.specs.Refusals.{number, answer};

use params::{Node, NodeSet, Params, Shape};

// Why a call is refused. A variant's discriminant is the documents' number of the question whose answer is no; 15, 16 and 20 to 23 are others'.
#[derive(Clone, Copy, Debug, PartialEq, Eq)]
pub enum Refusal {
    // n is not from 1 to 32
    NodeCount = 1,
    // r or w is above n
    ReadOrWriteCount = 2,
    // k is 0, above r or above w
    MessageParts = 3,
    // r + w is below k + n: a decode and an update may share fewer than k nodes
    SharedNodes = 4,
    // b is not from 1 to 1024
    BlockSize = 5,
    // a slice has not its exact length
    Length = 6,
    // a set names a node above n
    NodeAboveN = 7,
    // a set has not its exact size
    SetSize = 8,
    // a node is both lost and read
    LostIsRead = 9,
    // a node's number is not from 1 to n
    NodeNumber = 10,
    // the first four for new parameters
    NewNodeCount = 11,
    NewReadOrWriteCount = 12,
    NewMessageParts = 13,
    NewSharedNodes = 14,
    // an update's serial is 0
    SerialZero = 24,
}

impl From<Refusal> for u32 {
    ghost from_gives = { λ q n. n ≡ number q };

    fn from(q: Refusal) -> u32 {
        q as u32
    }
}

impl Refusal {
    // Of the first four, what it is for new parameters.
    fn for_new(self) -> Refusal
        ensures { number self ≤ 4 → number result ≡ 10 + number self }
    {
        match self {
            Refusal::NodeCount => Refusal::NewNodeCount,
            Refusal::ReadOrWriteCount => Refusal::NewReadOrWriteCount,
            Refusal::MessageParts => Refusal::NewMessageParts,
            Refusal::SharedNodes => Refusal::NewSharedNodes,
            other => other,
        }
    }
}

// One question: this refusal where the answer is no. (Tests of one question are joined by & and not by &&: all are cheap, and none is a branch of its own.)
fn put(yes: bool, no: Refusal) -> Result<(), Refusal>
    ensures { answer result ≡ first_no (ask yes (number no) ∷ []) }
{
    if yes { Ok(()) } else { Err(no) }
}

// Questions 1 to 4.
fn shape_gate(t: Shape) -> Result<(), Refusal>
    ensures { answer result ≡ first_no (shape_asked 0 t) }
{
    put((1 <= t.n) & (t.n <= 32), Refusal::NodeCount)?;
    put((t.r <= t.n) & (t.w <= t.n), Refusal::ReadOrWriteCount)?;
    put(
        (1 <= t.k) & (t.k <= t.r) & (t.k <= t.w),
        Refusal::MessageParts,
    )?;
    put(t.k + t.n <= t.r + t.w, Refusal::SharedNodes)
}

// Questions 11 to 14: the first four for new parameters.
fn new_shape_gate(t: Shape) -> Result<(), Refusal>
    ensures { answer result ≡ first_no (shape_asked 10 t) }
{
    shape_gate(t).map_err(Refusal::for_new)
}

// Questions 1 to 5.
fn params_gate(a: Params) -> Result<(), Refusal>
    ensures { answer result ≡ first_no (params_asked a) }
{
    shape_gate(a.shape())?;
    put((1 <= a.b) & (a.b <= 1024), Refusal::BlockSize)
}

// Questions 7 and 8 of one set.
fn set_gate(n: usize, set: NodeSet, wanted: usize) -> Result<(), Refusal>
    ensures { answer result ≡ first_no (names_asked (within n set.0) ∷ sizes_asked (eqb (size set.0) wanted) ∷ []) }
{
    put(set.within(n), Refusal::NodeAboveN)?;
    put(set.size() == wanted, Refusal::SetSize)
}

// Set-up, with the lengths of message, slack, record and serials.
pub fn encode_gate(
    a: Params,
    message: usize,
    slack: usize,
    codeword: usize,
    serials: usize,
) -> Result<(), Refusal>
    ensures { answer result ≡ encode_gate a message slack codeword serials }
{
    params_gate(a)?;
    put(
        (serials == a.n)
            & ((message == a.k * a.b) & (slack == a.slack_parts() * a.b) & (codeword == a.n * a.b)),
        Refusal::Length,
    )
}

// Check, with the record's length.
pub fn check_gate(a: Params, codeword: usize) -> Result<(), Refusal>
    ensures { answer result ≡ check_gate a codeword }
{
    params_gate(a)?;
    put(codeword == a.n * a.b, Refusal::Length)
}

// Reading, with the lengths of the record and of the buffer for the message, and R.
pub fn decode_gate(a: Params, codeword: usize, out: usize, from: NodeSet) -> Result<(), Refusal>
    ensures { answer result ≡ decode_gate a codeword out from.0 }
{
    params_gate(a)?;
    put(
        (codeword == a.n * a.b) & (out == a.k * a.b),
        Refusal::Length,
    )?;
    set_gate(a.n, from, a.r)
}

// Difference, with the lengths of d and of the buffer for the differences, and W.
pub fn delta_gate(a: Params, change: usize, out: usize, to: NodeSet) -> Result<(), Refusal>
    ensures { answer result ≡ delta_gate a change out to.0 }
{
    params_gate(a)?;
    put((change == a.k * a.b) & (out == a.w * a.b), Refusal::Length)?;
    set_gate(a.n, to, a.w)
}

// Change, with the lengths of record, serials and d, W and the serial.
pub fn update_gate(
    a: Params,
    codeword: usize,
    serials: usize,
    change: usize,
    to: NodeSet,
    serial: u32,
) -> Result<(), Refusal>
    ensures { answer result ≡ update_gate a codeword serials change to.0 serial }
{
    params_gate(a)?;
    put(
        (serials == a.n) & ((codeword == a.n * a.b) & (change == a.k * a.b)),
        Refusal::Length,
    )?;
    set_gate(a.n, to, a.w)?;
    put(1 <= serial, Refusal::SerialZero)
}

// Rebuild, with the lengths of record and serials, R and L.
pub fn repair_gate(
    a: Params,
    codeword: usize,
    serials: usize,
    from: NodeSet,
    lost: NodeSet,
) -> Result<(), Refusal>
    ensures { answer result ≡ repair_gate a codeword serials from.0 lost.0 }
{
    params_gate(a)?;
    put((serials == a.n) & (codeword == a.n * a.b), Refusal::Length)?;
    put(from.within(a.n) & lost.within(a.n), Refusal::NodeAboveN)?;
    put(from.size() == a.r, Refusal::SetSize)?;
    put(lost.disjoint(from), Refusal::LostIsRead)
}

// Question 10 alone.
fn node_gate(n: usize, node: Node) -> Result<(), Refusal>
    ensures { answer result ≡ first_no (node_asked n node.0 ∷ []) }
{
    let number = usize::from(node.0);
    put((1 <= number) & (number <= n), Refusal::NodeNumber)
}

// View, with the record's length and the trap number.
pub fn view_gate(a: Params, codeword: usize, node: Node) -> Result<(), Refusal>
    ensures { answer result ≡ view_gate a codeword node.0 }
{
    check_gate(a, codeword)?;
    node_gate(a.n, node)
}

// Rearrangement, with the lengths of record and serials, the old and the new ones, and of the new message, R and W'.
pub fn reconfigure_gate(
    a: Params,
    t: Shape,
    old: usize,
    serials: usize,
    new: usize,
    numbers: usize,
    message: usize,
    from: NodeSet,
    to: NodeSet,
) -> Result<(), Refusal>
    ensures { answer result ≡ reconfigure_gate a t old serials new numbers message from.0 to.0 }
{
    params_gate(a).and(new_shape_gate(t))?;
    put(
        ((serials == a.n) & (numbers == t.n))
            & ((old == a.n * a.b) & (new == t.n * a.b) & (message == t.k * a.b)),
        Refusal::Length,
    )?;
    put(from.within(a.n) & to.within(t.n), Refusal::NodeAboveN)?;
    put((from.size() == a.r) & (to.size() == t.w), Refusal::SetSize)
}

// A damage event, with the set of its nodes: question 7 alone.
pub fn damage_gate(n: usize, nodes: NodeSet) -> Result<(), Refusal>
    ensures { answer result ≡ damage_gate n nodes.0 }
{
    put(nodes.within(n), Refusal::NodeAboveN)
}
