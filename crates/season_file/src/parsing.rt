// What the bytes of a season file say.
ghost use Rattle.std.specs.Prelude.{◌≡◌, ◌+◌, ◌≤◌, ◌<◌, ◌^◌, length, MatchResult};
ghost use Rattle.season_file.specs.File.{number_at, choice_at, params_of, opening_of, code_of, fixed, following, event_at, fields_at, item_at};
ghost use Rattle.season_file.specs.Lengths.{capped};
ghost use Rattle.season_file.specs.declared.FileFault.TheVariants.{EndsEarly};
ghost use Rattle.season_file.specs.declared.Event.TheVariants.{Reconfigure};
ghost use Rattle.params.specs.declared.Params.{Params};

use super::{
    DamageFields, DecodeFields, Event, Fault, FileFault, Found, Header, Kind, ReconfigureFields,
    RepairFields, Span, UpdateFields,
};
use params::{NodeSet, Params, Shape};

// A number of two bytes, highest byte first.
fn number_at(input: &[u8], at: usize) -> usize
    requires { at + 2 ≤ length input.now }
    ensures { (result ≡ number_at input.now at) × (result < 65536) }
{
    usize::from(u16::from_be_bytes([input[at], input[at + 1]]))
}

// A choice of four bytes, highest byte first.
fn set_at(input: &[u8], at: usize) -> NodeSet
    requires { at + 4 ≤ length input.now }
    ensures { result.0 ≡ choice_at input.now at }
{
    NodeSet(u32::from_be_bytes([input[at], input[at + 1], input[at + 2], input[at + 3]]))
}

// The first three sections and the four counts. The first count is tested before anything after it is read.
pub fn open(input: &[u8]) -> Result<Header, FileFault>
    ensures { result ≡ opening_of input.now }
{
    if count_at(input, 0)? != 5 {
        return Err(FileFault::FirstCount);
    }
    let message = count_at(input, 12)?;
    let slack_at = 14 + message;
    let slack = count_at(input, slack_at)?;
    let events_at = slack_at + 2 + slack;
    let events = count_at(input, events_at)?;
    Ok(Header {
        params: params_at(input),
        message: Span {
            at: 14,
            count: message,
        },
        slack: Span {
            at: slack_at + 2,
            count: slack,
        },
        events,
        at: events_at + 2,
    })
}

// A number that the input may be too short for.
fn count_at(input: &[u8], at: usize) -> Result<usize, FileFault>
    requires { at < 2 ^ 32 }
    ensures { MatchResult result (λ count. (at + 2 ≤ length input.now) × (count ≡ number_at input.now at) × (count < 65536)) (λ fault. (fault ≡ EndsEarly) × (length input.now < at + 2)) }
{
    if input.len() < at + 2 {
        return Err(FileFault::EndsEarly);
    }
    Ok(number_at(input, at))
}

// The arrangement of the first section.
fn params_at(input: &[u8]) -> Params
    requires { 12 ≤ length input.now }
    ensures { result ≡ params_of input.now }
{
    Params {
        k: number_at(input, 2),
        r: number_at(input, 4),
        w: number_at(input, 6),
        n: number_at(input, 8),
        b: number_at(input, 10),
    }
}

// What stands at a place where an event is to begin: the kind and all its fields, or a fault.
pub fn parse(a: Params, input: &[u8], at: usize) -> Result<Found, Fault>
    ensures { result ≡ item_at a input.now at }
{
    if input.len() <= at {
        return Err(Fault {
            kind: 0,
            fault: FileFault::EndsEarly,
        });
    }
    let kind = Kind::try_from(input[at])?;
    fields_at(a, input, at + 1, kind)
}

// The event of a kind whose fields begin at `at`, or a fault if the bytes end before they do.
fn fields_at(a: Params, input: &[u8], at: usize, kind: Kind) -> Result<Found, Fault>
    requires { (1 ≤ at) × (at ≤ length input.now) }
    ensures { result ≡ fields_at a input.now at (code_of kind) }
{
    let early = Fault {
        kind: u8::from(kind),
        fault: FileFault::EndsEarly,
    };
    let count = fixed(kind);
    if input.len() - at < count {
        return Err(early);
    }
    let start = at + count;
    let blocks = following(a, input, at, kind);
    if input.len() - start < blocks {
        return Err(early);
    }
    Ok(Found {
        event: event_at(input, at, kind, blocks),
        next: start + blocks,
    })
}

// How many bytes the fields before the block bytes have.
fn fixed(kind: Kind) -> usize
    ensures { result ≡ fixed (code_of kind) }
{
    match kind {
        Kind::Update | Kind::Damage | Kind::Decode => 4,
        Kind::Repair => 8,
        Kind::Reconfigure => 16,
    }
}

// How many block bytes follow those fields, the largest usize where there are more: by the arrangement in force, for damage by the size of its set, whichever
// nodes are in it, for a rearrangement by the new k.
fn following(a: Params, input: &[u8], at: usize, kind: Kind) -> usize
    requires { at + fixed (code_of kind) ≤ length input.now }
    ensures { result ≡ capped (following a input.now at (code_of kind)) }
{
    match kind {
        Kind::Update => a.k.saturating_mul(a.b),
        Kind::Damage => {
            let nodes = set_at(input, at);
            nodes.size().saturating_mul(a.b)
        }
        Kind::Reconfigure => {
            let k = number_at(input, at + 4);
            k.saturating_mul(a.b)
        }
        Kind::Repair | Kind::Decode => 0,
    }
}

// The event of a kind whose fields begin at `at`, with `count` block bytes.
fn event_at(input: &[u8], at: usize, kind: Kind, count: usize) -> Event
    requires { at + fixed (code_of kind) ≤ length input.now }
    ensures { (a : Params) → count ≡ following a input.now at (code_of kind) → result ≡ event_at a input.now at (code_of kind) }
{
    match kind {
        Kind::Update => Event::Update(UpdateFields {
            to: set_at(input, at),
            change: Span { at: at + 4, count },
        }),
        Kind::Repair => Event::Repair(RepairFields {
            from: set_at(input, at),
            lost: set_at(input, at + 4),
        }),
        Kind::Damage => Event::Damage(DamageFields {
            nodes: set_at(input, at),
            blocks: Span { at: at + 4, count },
        }),
        Kind::Decode => Event::Decode(DecodeFields {
            from: set_at(input, at),
        }),
        Kind::Reconfigure => Event::Reconfigure(reconfigure_at(input, at, count)),
    }
}

// A rearrangement's fields.
fn reconfigure_at(input: &[u8], at: usize, count: usize) -> ReconfigureFields
    requires { at + 16 ≤ length input.now }
    ensures { (a : Params) → count ≡ following a input.now at 5 → Reconfigure result ≡ event_at a input.now at 5 }
{
    ReconfigureFields {
        from: set_at(input, at),
        shape: Shape {
            k: number_at(input, at + 4),
            r: number_at(input, at + 6),
            w: number_at(input, at + 8),
            n: number_at(input, at + 10),
        },
        to: set_at(input, at + 12),
        message: Span { at: at + 16, count },
    }
}
