// What slots say, added up a word at a time: a word has four records, each in its lane.
// No branch depends on a slot, so that the compiler takes several words at once. Each kind has its own function: its lanes have a width, and sums, of their own.
ghost use Rattle.std.specs.Prelude.{◌≡◌, ℕ, ◌+◌, ◌*◌, ◌^◌, ◌<◌, ◌≤◌, length};
ghost use Rattle.loc_leaf.specs.declared.Kind.TheVariants.{Paired, Single};
ghost use Rattle.loc_total.specs.Slots.{Two, SlotTotal};

use crate::Total;
use loc_leaf::Kind;
use loc_leaf::loc_simd::{BYTES, WORDS, even_full, full, strides_total};
use loc_window::rows::word_at;

// Paired: the bytes of 256 words fit lanes of sixteen bits.
fn pair_words(bytes: &[u8], n: usize) -> Total
    requires { (n ≤ 256) × (8 * n ≤ length bytes.now) }
    ensures { SlotTotal Paired bytes.now (4 * n) result }
{
    let mut x: u64 = 0;
    let mut y: u64 = 0;
    let mut z: u64 = 0;
    for i in 0..n {
        let w = word_at(bytes, 8 * i);
        x += w & BYTES;
        y += (w >> 8) & BYTES;
        z += full(w) >> 8;
    }
    let strides = strides_total(x, 0);
    let spans = strides_total(y, 0);
    let lacking = 4 * n as u64 - strides_total(z, 0);
    Total {
        strides,
        spans,
        lacking,
    }
}

// The sum of two lanes of thirty-two bits.
fn two_total(x: u64) -> u64
    ensures { (u s : ℕ) → Two u x s → u < 2 ^ 32 → result ≡ s }
{
    x / 0x1_0000_0000 + x % 0x1_0000_0000
}

// Single: sixteen bits of each record, in lanes of thirty-two.
fn single_words(bytes: &[u8], n: usize) -> Total
    requires { (n ≤ 256) × (8 * n ≤ length bytes.now) }
    ensures { SlotTotal Single bytes.now (4 * n) result }
{
    let mut x: u64 = 0;
    let mut z: u64 = 0;
    for i in 0..n {
        let w = word_at(bytes, 8 * i);
        x += (w & WORDS) + ((w >> 16) & WORDS);
        z += even_full(w) + even_full(w >> 16);
    }
    let strides = two_total(x);
    let lacking = 4 * n as u64 - two_total(z) / 0x1_0000;
    Total {
        strides,
        spans: 0,
        lacking,
    }
}

// The records of n words.
pub fn words(kind: Kind, bytes: &[u8], n: usize) -> Total
    requires { (n ≤ 256) × (8 * n ≤ length bytes.now) }
    ensures { SlotTotal kind bytes.now (4 * n) result }
{
    match kind {
        Kind::Paired => pair_words(bytes, n),
        Kind::Single => single_words(bytes, n),
    }
}
