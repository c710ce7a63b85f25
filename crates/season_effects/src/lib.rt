// What an event of a season file does to the record in force, which stands at the front of a buffer of 32,768 bytes, and to the serials in force, at the front of
// one of 32 numbers: a call of the code, or damage.
#![tactic(auto)]

mod applying;

ghost use Rattle.std.specs.Prelude.{◌≡◌, length};
ghost use Rattle.base.specs.Decided.{Decided};
ghost use Rattle.season_effects.specs.Effects.{Stretch, Accepted, Ready, EffectPost};

use applying::apply;
use gates::Refusal;
use params::Params;
use season_answers::{answer, record_length};
use season_file::{Event, Span};

// What an event leaves. (A count and no slice for the message: the room is the caller's, who writes the line from it.)
#[derive(Clone, Copy)]
pub struct Effect {
    // the parameters in force
    pub params: Params,
    // how many bytes of the room are the message that it prints
    pub printed: usize,
}

impl Effect {
    // Nothing is printed.
    fn silent(a: Params) -> Effect
        ensures { result ≡ record { params = a; printed = 0 } }
    {
        Effect {
            params: a,
            printed: 0,
        }
    }
}

// The event's effect, with room for a message or a new record, or why it is refused and has none. The serial is the event's number. The room has 32,768
// bytes too; with other lengths, with parameters that no set-up accepts, or where the event's blocks do not stand in the input in full, nothing is done, and the result
// is Ok: `EffectPost` has the answer in either case.
pub fn take_effect(
    a: Params,
    input: &[u8],
    serial: u32,
    e: Event,
    codeword: &mut [u8],
    serials: &mut [u32],
    room: &mut [u8],
) -> Result<Effect, Refusal>
    ensures { EffectPost a input.now serial e codeword.old serials.old room.old result codeword.new serials.new room.new }
{
    answer(a, serial, e)?;
    let Some(codeword) = codeword.as_mut_array() else {
        return Ok(Effect::silent(a));
    };
    let Some(serials) = serials.as_mut_array() else {
        return Ok(Effect::silent(a));
    };
    let Some(room) = room.as_mut_array() else {
        return Ok(Effect::silent(a));
    };
    if is_ready(a, input.len(), e) {
        return Ok(apply(a, input, serial, e, codeword, serials, room));
    }
    Ok(Effect::silent(a))
}

// Whether an accepted event can take effect, in buffers of the lengths that it asks.
fn is_ready(a: Params, input: usize, e: Event) -> bool
    requires { Accepted a e }
    ensures { Decided (Ready a input e 32768 32 32768) result }
{
    if record_length(a).is_none() {
        return false;
    }
    match e {
        Event::Update(f) => is_stretch(input, f.change, a.k * a.b),
        Event::Repair(_) => true,
        Event::Damage(f) => is_stretch(input, f.blocks, f.nodes.size() * a.b),
        Event::Decode(_) => true,
        Event::Reconfigure(f) => is_stretch(input, f.message, f.shape.k * a.b),
    }
}

// Whether a stretch has so many bytes and ends within the input.
fn is_stretch(input: usize, s: Span, count: usize) -> bool
    ensures { Decided (Stretch input s count) result }
{
    if s.count != count {
        return false;
    }
    if input < count {
        return false;
    }
    s.at <= input - count
}
