// Probes: byte places at which some set has failed. Most sets that fail do so at one of these, so that it is known from a few bytes of each block. Each function
// holds for slices of any lengths.
#![tactic(auto)]

mod at_places;

ghost use Rattle.std.specs.Prelude.{◌≡◌, true, List, ℕ, ◌*◌, ◌≤◌, length, take};
ghost use Rattle.base.specs.Decided.{Decided};
ghost use Rattle.params.specs.declared.Params.{Params};
ghost use Rattle.code.specs.Calls.{Serves};
ghost use Rattle.consistency.specs.Tested.{Testable};
ghost use Rattle.probes.specs.Probes.{Trial, Probeable, Probed, probe, probes_then};

use at_places::pick;
use base::is_product;
use consistency::{other_node, place_of};
use params::{NodeSet, Params};

// What trying a set tells.
#[derive(Clone, Copy)]
pub enum Outcome {
    Serves,
    // how many probes there are then
    Fails(usize),
}

// The first places are the probes; at the front of picked are, for each node, the bytes of its block there, one node after the other.
#[derive(Clone, Copy)]
pub struct Probes {
    count: usize,
    places: [usize; 32],
    picked: [u8; 1024],
    ghost few: { count ≤ 32 },
}

impl Probes {
    ghost use Rattle.probes.specs.Held.{Held};

    pub fn new() -> Self
        ensures { (a : Params) (codeword : List ℕ) → Held a codeword result }
    {
        Probes {
            count: 0,
            places: [0; 32],
            picked: [0; 1024],
        }
    }

    // What try_set does, with these probes.
    pub fn try_set(&mut self, a: Params, codeword: &[u8], set: NodeSet, fresh: &mut [u8]) -> bool
        ensures told { Testable a set.0 (length codeword.now) (length fresh.old) → Held a codeword.now self.old → Decided (Serves a codeword.now set.0) result }
        ensures probed { Held a codeword.now self.old → Held a codeword.now self.new }
    {
        match try_set(
            a,
            codeword,
            set,
            self.count,
            fresh,
            &mut self.places,
            &mut self.picked,
        ) {
            Outcome::Serves => true,
            Outcome::Fails(count) => {
                self.count = count;
                false
            }
        }
    }

    // What add_probe does, with these probes.
    pub fn add(&mut self, a: Params, codeword: &[u8], place: usize)
        ensures { Held a codeword.now self.old → Held a codeword.now self.new }
    {
        self.count = add_probe(
            a,
            codeword,
            place,
            self.count,
            &mut self.places,
            &mut self.picked,
        );
    }
}

// Whether the set serves: at the probes first; where it passes there, all bytes tell, and a place where it fails becomes a probe.
pub fn try_set(
    a: Params,
    codeword: &[u8],
    set: NodeSet,
    probes: usize,
    fresh: &mut [u8],
    places: &mut [usize],
    picked: &mut [u8],
) -> Outcome
    ensures told { Testable a set.0 (length codeword.now) (length fresh.old) → Probed a codeword.now probes places.old picked.old → Trial a set.0 codeword.now places.new picked.new result }
    ensures probed { Probed a codeword.now probes places.old picked.old → Probed a codeword.now (probes_then probes result) places.new picked.new }
    ensures few { probes ≤ 32 → probes_then probes result ≤ 32 }
{
    if fails_at(a, set, probes, picked, fresh) {
        return Outcome::Fails(probes);
    }
    let Some(node) = other_node(a, codeword, set, 32, fresh) else {
        return Outcome::Serves;
    };
    let Some(place) = place_of(a, codeword, set, node, fresh) else {
        return Outcome::Fails(probes);
    };
    Outcome::Fails(add_probe(a, codeword, place, probes, places, picked))
}

// Whether the set fails for the bytes at the probes: the lowest node behind the q that make the pair is compared first, since most sets fail there.
fn fails_at(a: Params, set: NodeSet, probes: usize, picked: &[u8], fresh: &mut [u8]) -> bool
    ensures { Probeable a set.0 probes (length fresh.old) → result ≡ true → Serves (probe a probes) (take (a.n * probes) picked.now) set.0 → ⊥ }
{
    if probes < 1 || 32 < probes || 32 < a.n || picked.len() < a.n * probes {
        return false;
    }
    let p = Params { b: probes, ..a };
    let bytes = &picked[..a.n * probes];
    other_node(p, bytes, set, 1, fresh).is_some() || other_node(p, bytes, set, 32, fresh).is_some()
}

// One probe more, at the place; the answer is how many there are then. Where that is no place of a block, where there is no room, or codeword has not just n blocks,
// there are as many as before.
pub fn add_probe(
    a: Params,
    codeword: &[u8],
    place: usize,
    probes: usize,
    places: &mut [usize],
    picked: &mut [u8],
) -> usize
    ensures probed { Probed a codeword.now probes places.old picked.old → Probed a codeword.now result places.new picked.new }
    ensures few { probes ≤ 32 → result ≤ 32 }
{
    if a.b <= place || 32 < a.n || !is_product(codeword.len(), a.n, a.b) {
        return probes;
    }
    if a.b <= probes || 32 <= probes || places.len() != 32 || picked.len() != 1024 {
        return probes;
    }
    places[probes] = place;
    let count = probes + 1;
    pick(a, codeword, &places[..count], picked);
    count
}
