// The bytes at byte places.
ghost use Rattle.std.specs.Prelude.{◌*◌, length};
ghost use Rattle.base.specs.Parts.{Filled};
ghost use Rattle.probes.specs.Probes.{PickAsks, PlacesIn, picked_byte};

use params::Params;

// For each node, the bytes of its block at the places go to the front of picked, one node after the other, as long as the places are places of a block.
pub(crate) fn pick(a: Params, codeword: &[u8], places: &[usize], picked: &mut [u8])
    requires { PickAsks a (length codeword.now) (length places.now) (length picked.old) }
    ensures { PlacesIn a.b places.now → Filled (picked_byte a codeword.now places.now) (a.n * length places.now) picked.old picked.new }
{
    let count = places.len();
    // by one range: node and place are at / count and at % count in any form, and what goes through a zip of chunks_exact_mut, no proof knows afterwards
    for at in 0..a.n * count {
        let place = places[at % count];
        if a.b <= place {
            return;
        }
        picked[at] = codeword[at / count * a.b + place];
    }
}
