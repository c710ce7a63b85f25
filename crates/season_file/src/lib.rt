// The season file of document 01 ("The season program"), with damage as in document 02, 2026-04: what its bytes say. Blocks stay in the lent input: an event tells where they begin
// and how many bytes they have.
#![tactic(auto)]

pub mod parsing;

ghost use Rattle.std.specs.Prelude.{◌≡◌};
ghost use Rattle.season_file.specs.File.{code_of, number_of, kind_of, fault_of, Decodes};
ghost use Rattle.season_file.specs.declared.FileFault.TheVariants.{KindUnknown};

use params::{NodeSet, Params, Shape};

// A stretch of the input. A place and a count, and no slice: document 01 ("Forms we want to see") asks for an event enum whose cases carry structs of choices,
// arrangement numbers and input offsets, with the blocks left in the lent input.
#[derive(Clone, Copy)]
pub struct Span {
    pub at: usize,
    pub count: usize,
}

// Kind 1, document 01's change.
#[derive(Clone, Copy)]
pub struct UpdateFields {
    pub to: NodeSet,
    pub change: Span,
}

// Kind 2, rebuild.
#[derive(Clone, Copy)]
pub struct RepairFields {
    pub from: NodeSet,
    pub lost: NodeSet,
}

// Kind 3, damage.
#[derive(Clone, Copy)]
pub struct DamageFields {
    pub nodes: NodeSet,
    // a block for each of them, in rising order
    pub blocks: Span,
}

// Kind 4, reading.
#[derive(Clone, Copy)]
pub struct DecodeFields {
    pub from: NodeSet,
}

// Kind 5, rearrangement.
#[derive(Clone, Copy)]
pub struct ReconfigureFields {
    pub from: NodeSet,
    pub shape: Shape,
    pub to: NodeSet,
    pub message: Span,
}

// An event and its fields.
#[derive(Clone, Copy)]
pub enum Event {
    Update(UpdateFields),
    Repair(RepairFields),
    Damage(DamageFields),
    Decode(DecodeFields),
    Reconfigure(ReconfigureFields),
}

impl Event {
    // Its kind, whatever its fields are.
    pub fn kind(self) -> Kind
        ensures { code_of result ≡ kind_of self }
    {
        match self {
            Event::Update(_) => Kind::Update,
            Event::Repair(_) => Kind::Repair,
            Event::Damage(_) => Kind::Damage,
            Event::Decode(_) => Kind::Decode,
            Event::Reconfigure(_) => Kind::Reconfigure,
        }
    }
}

// The kinds of events, by the byte that each has in the file.
#[derive(Clone, Copy, PartialEq, Eq)]
pub enum Kind {
    Update = 1,
    Repair,
    Damage,
    Decode,
    Reconfigure,
}

// A byte that is no event's kind.
#[derive(Clone, Copy, Debug, PartialEq, Eq)]
pub struct UnknownKind(pub u8);

impl TryFrom<u8> for Kind {
    type Error = UnknownKind;

    ghost try_from_gives = { Decodes };

    fn try_from(byte: u8) -> Result<Self, UnknownKind> {
        match byte {
            1 => Ok(Kind::Update),
            2 => Ok(Kind::Repair),
            3 => Ok(Kind::Damage),
            4 => Ok(Kind::Decode),
            5 => Ok(Kind::Reconfigure),
            _ => Err(UnknownKind(byte)),
        }
    }
}

impl From<Kind> for u8 {
    ghost from_gives = { λ kind byte. byte ≡ code_of kind };

    fn from(kind: Kind) -> u8 {
        kind as u8
    }
}

// An event, and where the next one begins.
#[derive(Clone, Copy)]
pub struct Found {
    pub event: Event,
    pub next: usize,
}

// What ends a run at a file, by the number that its line tells.
#[derive(Clone, Copy, Debug, PartialEq, Eq)]
pub enum FileFault {
    FirstCount = 20,
    EndsEarly,
    KindUnknown,
    LeftOver,
}

impl From<FileFault> for u32 {
    ghost from_gives = { λ fault number. number ≡ number_of fault };

    fn from(fault: FileFault) -> u32 {
        fault as u32
    }
}

// A file fault at an event, and the event's kind as its line tells it: its byte, or 0 if that is unread. (A byte and no Option<Kind>: an unknown kind is told by its byte.)
#[derive(Clone, Copy, Debug, PartialEq, Eq)]
pub struct Fault {
    pub kind: u8,
    pub fault: FileFault,
}

impl From<UnknownKind> for Fault {
    ghost from_gives = { λ unknown fault. fault ≡ fault_of unknown.0 KindUnknown };

    fn from(unknown: UnknownKind) -> Fault {
        Fault {
            kind: unknown.0,
            fault: FileFault::KindUnknown,
        }
    }
}

// The first three sections and the count of events. (Spans here too, as in an Event: the header holds no reference to the input.)
#[derive(Clone, Copy)]
pub struct Header {
    pub params: Params,
    pub message: Span,
    pub slack: Span,
    pub events: usize,
    // where the first event begins
    pub at: usize,
}
