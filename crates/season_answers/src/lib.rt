// What a line tells of an event of a season file: the answer, which is the gate of its call on the lengths that a run lends. And how long the record in force is.
// No field arithmetic.
#![tactic(auto)]

ghost use Rattle.std.specs.Prelude.{◌≡◌, ℕ};
ghost use Rattle.gates.specs.Refusals.{answer};
ghost use Rattle.season_file.specs.declared.Event.TheVariants.{Reconfigure};
ghost use Rattle.season_answers.specs.Answers.{answer_of};
ghost use Rattle.season_answers.specs.Records.{RecordLength};

use gates::{
    Refusal, check_gate, damage_gate, decode_gate, reconfigure_gate, repair_gate, update_gate,
};
use params::Params;
use season_file::{Event, ReconfigureFields};

// The answer to the event under the parameters in force, with the serial that a change carries. Where valid parameters have no blocks of such a length a gate
// refuses those parameters before it looks at the length.
pub fn answer(a: Params, serial: u32, e: Event) -> Result<(), Refusal>
    ensures { answer result ≡ answer_of a serial e }
{
    let codeword = a.n.saturating_mul(a.b);
    let message = a.k.saturating_mul(a.b);
    match e {
        Event::Update(f) => update_gate(a, codeword, a.n, message, f.to, serial),
        Event::Repair(f) => repair_gate(a, codeword, a.n, f.from, f.lost),
        Event::Damage(f) => damage_gate(a.n, f.nodes),
        Event::Decode(f) => decode_gate(a, codeword, message, f.from),
        Event::Reconfigure(f) => reconfigure_answer(a, f),
    }
}

// A rearrangement's. It carries no serial.
fn reconfigure_answer(a: Params, f: ReconfigureFields) -> Result<(), Refusal>
    ensures { (serial : ℕ) → answer result ≡ answer_of a serial (Reconfigure f) }
{
    let shape = f.shape;
    let codeword = a.n.saturating_mul(a.b);
    let new = shape.n.saturating_mul(a.b);
    let message = shape.k.saturating_mul(a.b);
    reconfigure_gate(a, shape, codeword, a.n, new, shape.n, message, f.from, f.to)
}

// The length of a record, if a set-up accepts its parameters. (By `is_err` and not by `?`: two must-fail edits stand on this test.)
pub fn record_length(a: Params) -> Option<usize>
    ensures { RecordLength a result }
{
    let length = a.n.saturating_mul(a.b);
    if check_gate(a, length).is_err() {
        return None;
    }
    Some(length)
}
