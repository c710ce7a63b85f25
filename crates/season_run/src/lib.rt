// A season's run (document 01, "The season program"), one event at a time: the record in force stands in a buffer that the caller lends, and so do the serials and
// the line that a turn prints.
#![tactic(auto)]

pub mod beginning;
pub mod turning;

ghost use Rattle.std.specs.Prelude.{◌≡◌, None, MatchOption};
ghost use Rattle.base.specs.Decided.{Decided};
ghost use Rattle.season_run.specs.Season.{Standing, BeginPost, TurnPost};
ghost use Rattle.season_run.specs.Turning.{Ended};

use beginning::begin_within;
use params::Params;
use season_answers::record_length;
use season_lines::write_line;
use turning::turn_within;

// Where a run stands between two events. Standing is no ghost field of it: `turn` takes any state, and is idle from one that is not standing (TurnPost).
#[derive(Clone, Copy)]
pub struct State {
    // the parameters in force
    pub params: Params,
    // the next event's number, which is the serial of a change
    pub number: usize,
    // events that are left, by the file's count
    pub left: usize,
    // where the next event begins in the input
    pub at: usize,
}

impl State {
    // Whether a turn can start from here: valid parameters in force, and an event number that can be counted on.
    fn is_standing(self) -> bool
        ensures { Decided (Standing self) result }
    {
        record_length(self.params).is_some() && self.number <= 65536
    }
}

// What a turn gives back: how many bytes of the line it wrote, and from where the run goes on, if it does. (A count and no slice: the line's buffer is lent again for
// the next turn.)
#[derive(Clone, Copy)]
pub struct Turn {
    pub written: usize,
    pub next: Option<State>,
}

// Nothing is printed, and the run ends.
fn idle() -> Turn
    ensures { result ≡ record { written = 0; next = None } }
{
    Turn {
        written: 0,
        next: None,
    }
}

// The run ends after a line without message.
fn last_line(input: &[u8], line: &mut [u8; 65600], number: usize, kind: u8, answer: u32) -> Turn
    ensures { Ended number kind answer line.old result line.new }
{
    let written = write_line(line, number, kind, answer, &input[..0]);
    Turn {
        written,
        next: None,
    }
}

// The set-up, or an event from a state, in buffers of the lengths that they ask, which are arrays from here on. With other lengths, or from a state that no turn
// can start from, nothing is done. (The three buffers are no struct: `BeginPost` and `TurnPost` name each before and after, and `begin` and `turn` take slices.)
fn in_room(
    input: &[u8],
    from: Option<State>,
    codeword: &mut [u8],
    serials: &mut [u32],
    line: &mut [u8],
) -> Turn
    ensures { MatchOption from
        (BeginPost input.now codeword.old serials.old line.old result codeword.new serials.new line.new)
        (λ s. TurnPost input.now s codeword.old serials.old line.old result codeword.new serials.new line.new) }
{
    let Some(codeword) = codeword.as_mut_array() else {
        return idle();
    };
    let Some(serials) = serials.as_mut_array() else {
        return idle();
    };
    let Some(line) = line.as_mut_array() else {
        return idle();
    };
    match from {
        None => begin_within(input, codeword, serials, line),
        Some(s) if s.is_standing() => turn_within(input, s, codeword, serials, line),
        Some(_) => idle(),
    }
}
