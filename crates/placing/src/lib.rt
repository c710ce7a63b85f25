// The blocks of a set's nodes within a codeword: put, cleared, compared. Node i's block is block i - 1. Each function holds for slices of any lengths.
#![tactic(auto)]

ghost use Rattle.base.specs.Decided.{Decided};
ghost use Rattle.placing.specs.Placed.{BlocksIn, PutPost, ClearPost, ComparePost};

use base::is_product;
use block_numbers::places_of;
use blocks::{clear, copy_block, differs};
use params::{Node, NodeSet};

// Whether a slice of this length has the block of each of the set's nodes. It has no blocks of 0 bytes.
pub fn has_blocks(length: usize, set: NodeSet, b: usize) -> bool
    ensures { Decided (BlocksIn b set.0 length) result }
{
    if b == 0 {
        return false;
    }
    set.within(length / b)
}

// (The walks of this file begin alike, but each test has its own answer where it fails, and the room for the places has to stand in the function that uses it.)

// The blocks of the set's nodes, in rising order, become fresh's. Where codeword has no block for one of them, or fresh has not just one for each, nothing is
// written.
pub fn put_blocks(codeword: &mut [u8], set: NodeSet, fresh: &[u8], b: usize)
    ensures { PutPost b set.0 fresh.now codeword.old codeword.new }
{
    let count = set.size();
    if !is_product(fresh.len(), count, b) {
        return;
    }
    if !has_blocks(codeword.len(), set, b) {
        return;
    }
    let mut places = [0u8; 32];
    places_of(set, &mut places);
    for (place, block) in places.iter().zip(fresh.chunks_exact(b)) {
        let at = usize::from(*place) * b;
        copy_block(&mut codeword[at..at + b], block);
    }
}

// The blocks of the set's nodes become 00. Where codeword has no block for one of them, nothing is written.
pub fn clear_blocks(codeword: &mut [u8], set: NodeSet, b: usize)
    ensures { ClearPost b set.0 codeword.old codeword.new }
{
    let count = set.size();
    if !has_blocks(codeword.len(), set, b) {
        return;
    }
    let mut places = [0u8; 32];
    places_of(set, &mut places);
    for place in &places[..count] {
        let at = usize::from(*place) * b;
        clear(&mut codeword[at..at + b]);
    }
}

// The set's lowest node whose block is not fresh's, which has them in rising order. There is none where codeword has no block for one of the nodes, or fresh has
// not just one for each.
pub fn first_other(codeword: &[u8], set: NodeSet, fresh: &[u8], b: usize) -> Option<Node>
    ensures { ComparePost b set.0 codeword.now fresh.now result }
{
    let count = set.size();
    if !is_product(fresh.len(), count, b) {
        return None;
    }
    if !has_blocks(codeword.len(), set, b) {
        return None;
    }
    let mut places = [0u8; 32];
    places_of(set, &mut places);
    for (place, block) in places.iter().zip(fresh.chunks_exact(b)) {
        let at = usize::from(*place) * b;
        if differs(block, &codeword[at..at + b]) {
            return Some(Node(*place + 1));
        }
    }
    None
}
