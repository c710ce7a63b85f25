// The call that mends a record (document 01): rebuild. It is its gate, and then a private core, which knows of no gate.
#![tactic(auto)]

mod repairing;

pub use repairing::repair;
