// Eight bytes as one word, and a block added to another a word at a time.
#![tactic(auto)]

ghost use Rattle.std.specs.Prelude.{◌≡◌, ◌<◌, length};
ghost use Rattle.field.specs.Field.{plus};
ghost use Rattle.words.specs.Words.{word_of, low_bytes};

use blocks::add_block;

// dst += src by words of eight bytes, and then what is left, up to seven bytes. A byte that src does not have counts as 00.
pub fn add_words(dst: &mut [u8], src: &[u8])
    ensures { dst.new ≡ plus dst.old src.now }
{
    let count = dst.len().min(src.len());
    let words = count / 8;
    // by a range: what goes through chunks_exact_mut, no proof knows afterwards
    for word in 0..words {
        let p = 8 * word;
        add_word(&mut dst[p..p + 8], &src[p..p + 8]);
    }
    let done = 8 * words;
    add_tail(&mut dst[done..count], &src[done..count]);
}

// The bytes that no word takes: at most seven += those of src.
fn add_tail(dst: &mut [u8], src: &[u8])
    requires { length dst.old < 8 }
    ensures { dst.new ≡ plus dst.old src.now }
{
    add_block(dst, src);
}

// Eight bytes += eight others, as one word: exclusive or has no carry from byte to byte.
fn add_word(dst: &mut [u8], src: &[u8])
    requires { (length dst.old ≡ 8) × (length src.now ≡ 8) }
    ensures { dst.new ≡ plus dst.old src.now }
{
    let x = word_of(dst);
    let y = word_of(src);
    put_word(dst, x ^ y);
}

// Eight bytes as a word, the first the lowest.
fn word_of(bytes: &[u8]) -> u64
    requires { length bytes.now ≡ 8 }
    ensures { result ≡ word_of bytes.now }
{
    u64::from_le_bytes([
        bytes[0], bytes[1], bytes[2], bytes[3], bytes[4], bytes[5], bytes[6], bytes[7],
    ])
}

// bytes := those of a word, the lowest first: as many as there is room for, and 00 behind all eight.
// (Not by to_le_bytes: `low_bytes` is promised for a slice of any length, also one of more than eight bytes.)
pub fn put_word(bytes: &mut [u8], word: u64)
    ensures { bytes.new ≡ low_bytes (length bytes.old) word }
{
    let mut rest = word;
    for byte in bytes.iter_mut() {
        *byte = (rest % 256) as u8;
        rest /= 256;
    }
}
