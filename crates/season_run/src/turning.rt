// One event after the set-up.
ghost use Rattle.std.specs.Prelude.{◌≡◌, List, ℕ, ◌<◌, Ok};
ghost use Rattle.gates.specs.Refusals.{answer};
ghost use Rattle.season_file.specs.File.{item_at};
ghost use Rattle.season_effects.specs.Effects.{effect_of};
ghost use Rattle.season_run.specs.Season.{Goes, place_of, Turned, Standing, TurnPost};

use super::{State, Turn, idle, in_room, last_line};
use gates::Refusal;
use params::Params;
use season_effects::{Effect, take_effect};
use season_file::parsing::parse;
use season_file::{FileFault, Found};
use season_lines::write_line;

// Tries the next event: its line, and the record and the serials as it leaves them, in buffers of the lengths that `begin` asks. After the last event the run ends.
pub fn turn(
    input: &[u8],
    s: State,
    codeword: &mut [u8],
    serials: &mut [u32],
    line: &mut [u8],
) -> Turn
    ensures { TurnPost input.now s codeword.old serials.old line.old result codeword.new serials.new line.new }
{
    in_room(input, Some(s), codeword, serials, line)
}

// The same from a state that a turn can start from.
pub(crate) fn turn_within(
    input: &[u8],
    s: State,
    codeword: &mut [u8; 32768],
    serials: &mut [u32; 32],
    line: &mut [u8; 65600],
) -> Turn
    requires standing { Standing s }
    ensures { Turned (Goes input.now (place_of s codeword.old serials.old)) codeword.old serials.old line.old result codeword.new serials.new line.new }
{
    if s.left == 0 {
        return finish(input, s, line);
    }
    match parse(s.params, input, s.at) {
        Err(f) => last_line(input, line, s.number, f.kind, u32::from(f.fault)),
        Ok(f) => try_event(input, s, f, codeword, serials, line),
    }
}

// No event is left: the bytes that are left over.
fn finish(input: &[u8], s: State, line: &mut [u8; 65600]) -> Turn
    requires left_value { s.left ≡ 0 }
    ensures { (buffer serials : List ℕ) → Turned (Goes input.now (place_of s buffer serials)) buffer serials line.old result buffer serials line.new }
{
    if input.len() <= s.at {
        return idle();
    }
    last_line(input, line, s.number, 0, u32::from(FileFault::LeftOver))
}

// The event is whole: its answer and effect, with room for a message or a new record, and its line. Its number is the serial.
fn try_event(
    input: &[u8],
    s: State,
    found: Found,
    codeword: &mut [u8; 32768],
    serials: &mut [u32; 32],
    line: &mut [u8; 65600],
) -> Turn
    requires standing { Standing s }
    requires left_nonzero { 0 < s.left }
    requires at_value { item_at s.params input.now s.at ≡ Ok found }
    ensures { Turned (Goes input.now (place_of s codeword.old serials.old)) codeword.old serials.old line.old result codeword.new serials.new line.new }
{
    let mut room = [0u8; 32768];
    let event = found.event;
    let serial = s.number as u32;
    let taken = take_effect(s.params, input, serial, event, codeword, serials, &mut room);
    let (answer, effect) = told(s.params, taken);
    let written = write_line(
        line,
        s.number,
        u8::from(event.kind()),
        answer,
        &room[..effect.printed],
    );
    Turn {
        written,
        next: Some(State {
            params: effect.params,
            number: s.number + 1,
            left: s.left - 1,
            at: found.next,
        }),
    }
}

// The answer that an event's line tells, a number (`LinePost`), and what the event leaves: where it is refused, the parameters in force.
fn told(a: Params, taken: Result<Effect, Refusal>) -> (u32, Effect)
    ensures { (result.0 ≡ answer taken) × (result.1 ≡ effect_of a taken) }
{
    match taken {
        Ok(effect) => (0, effect),
        Err(q) => (
            u32::from(q),
            Effect {
                params: a,
                printed: 0,
            },
        ),
    }
}
