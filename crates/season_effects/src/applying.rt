// The effect of an accepted event, by its kind.
//
// InFull, Accepted and Valid are clauses and no struct: InFull and Accepted speak of an event's kind and fields, so each kind would need a struct of its own, for one
// function each, and would be no plainer.
ghost use Rattle.std.specs.Prelude.{◌≡◌, List, ℕ, ◌*◌, length};
ghost use Rattle.params.specs.Nodes.{size};
ghost use Rattle.gates.specs.Valid.{Valid};
ghost use Rattle.season_answers.specs.Answers.{answer_of};
ghost use Rattle.season_file.specs.declared.Event.TheVariants.{Update, Repair, Damage, Decode, Reconfigure};
ghost use Rattle.season_effects.specs.Effects.{Stretch, InFull, Accepted, Taken};

use super::Effect;
use blocks::copy_block;
use decoding::decode;
use maintenance::repair;
use params::{NodeSet, Params};
use placing::put_blocks;
use reconfiguration::reconfigure;
use season_file::{
    DamageFields, DecodeFields, Event, ReconfigureFields, RepairFields, UpdateFields,
};
use serials::hand_on;
use updates::update;

pub(crate) fn apply(
    a: Params,
    input: &[u8],
    serial: u32,
    e: Event,
    codeword: &mut [u8; 32768],
    serials: &mut [u32; 32],
    room: &mut [u8; 32768],
) -> Effect
    requires valid { Valid a }
    requires found { InFull a (length input.now) e }
    requires e_value { answer_of a serial e ≡ 0 }
    ensures { Taken a input.now serial e codeword.old serials.old room.old 0 result codeword.new serials.new room.new }
{
    match e {
        Event::Update(f) => apply_update(a, input, serial, f, codeword, serials),
        Event::Repair(f) => apply_repair(a, f, codeword, serials),
        Event::Damage(f) => apply_damage(a, input, f, codeword),
        Event::Decode(f) => apply_decode(a, f, codeword, room),
        Event::Reconfigure(f) => apply_reconfigure(a, input, f, codeword, serials, room),
    }
}

// All of W is reached.
fn apply_update(
    a: Params,
    input: &[u8],
    serial: u32,
    f: UpdateFields,
    codeword: &mut [u8; 32768],
    serials: &mut [u32; 32],
) -> Effect
    requires valid { Valid a }
    requires stretch { Stretch (length input.now) f.change (a.k * a.b) }
    ensures { (room : List ℕ) → Taken a input.now serial (Update f) codeword.old serials.old room 0 result codeword.new serials.new room }
{
    let nodes = a.n;
    let length = nodes * a.b;
    let at = f.change.at;
    let end = at + f.change.count;
    // the answer is known (`apply`: the event is accepted)
    let _ = update(
        a,
        &mut codeword[..length],
        &mut serials[..nodes],
        &input[at..end],
        f.to,
        serial,
        f.to,
    );
    Effect::silent(a)
}

fn apply_repair(
    a: Params,
    f: RepairFields,
    codeword: &mut [u8; 32768],
    serials: &mut [u32; 32],
) -> Effect
    requires valid { Valid a }
    ensures { (input room : List ℕ) (serial : ℕ) → Taken a input serial (Repair f) codeword.old serials.old room 0 result codeword.new serials.new room }
{
    let nodes = a.n;
    let length = nodes * a.b;
    // the answer is known (`apply`: the event is accepted)
    let _ = repair(
        a,
        &mut codeword[..length],
        &mut serials[..nodes],
        f.from,
        f.lost,
    );
    Effect::silent(a)
}

// The blocks of the set's nodes become those given; their serials stay.
fn apply_damage(a: Params, input: &[u8], f: DamageFields, codeword: &mut [u8; 32768]) -> Effect
    requires valid { Valid a }
    requires stretch { Stretch (length input.now) f.blocks (size f.nodes.0 * a.b) }
    requires accepted { Accepted a (Damage f) }
    ensures { (room serials : List ℕ) (serial : ℕ) → Taken a input.now serial (Damage f) codeword.old serials room 0 result codeword.new serials room }
{
    let length = a.n * a.b;
    let at = f.blocks.at;
    let end = at + f.blocks.count;
    put_blocks(&mut codeword[..length], f.nodes, &input[at..end], a.b);
    Effect::silent(a)
}

// The message read stands at the front of the room.
fn apply_decode(
    a: Params,
    f: DecodeFields,
    codeword: &[u8; 32768],
    room: &mut [u8; 32768],
) -> Effect
    requires valid { Valid a }
    requires accepted { Accepted a (Decode f) }
    ensures { (input serials : List ℕ) (serial : ℕ) → length serials ≡ 32 → Taken a input serial (Decode f) codeword.now serials room.old 0 result codeword.now serials room.new }
{
    let length = a.n * a.b;
    let count = a.k * a.b;
    // the answer is known (`apply`: the event is accepted)
    let _ = decode(a, &codeword[..length], f.from, &mut room[..count]);
    Effect {
        params: a,
        printed: count,
    }
}

// The new record is made in the room and copied over the old one, and so are the new serials in theirs.
fn apply_reconfigure(
    a: Params,
    input: &[u8],
    f: ReconfigureFields,
    codeword: &mut [u8; 32768],
    serials: &mut [u32; 32],
    room: &mut [u8; 32768],
) -> Effect
    requires valid { Valid a }
    requires stretch { Stretch (length input.now) f.message (f.shape.k * a.b) }
    requires accepted { Accepted a (Reconfigure f) }
    ensures { (serial : ℕ) → Taken a input.now serial (Reconfigure f) codeword.old serials.old room.old 0 result codeword.new serials.new room.new }
{
    let shape = f.shape;
    let nodes = a.n;
    let new_nodes = shape.n;
    let old = nodes * a.b;
    let new = new_nodes * a.b;
    let at = f.message.at;
    let end = at + f.message.count;
    let mut numbers = [0u32; 32];
    // the answer is known (`apply`: the event is accepted)
    let _ = reconfigure(
        a,
        shape,
        &codeword[..old],
        &serials[..nodes],
        f.from,
        f.to,
        &input[at..end],
        &mut room[..new],
        &mut numbers[..new_nodes],
    );
    copy_block(codeword, &room[..new]);
    let none = NodeSet(0);
    hand_on(&numbers[..new_nodes], none, 0, &mut serials[..new_nodes]);
    // written out: the one place that makes Params of a Shape
    Effect {
        params: Params {
            k: shape.k,
            r: shape.r,
            w: shape.w,
            n: shape.n,
            b: a.b,
        },
        printed: 0,
    }
}
