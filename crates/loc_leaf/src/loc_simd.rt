// One block: sixteen bytes, taken as two 64-bit words and parted by shifts and masks (loc_simd.rs).
// A block is eight records of two bytes, which are the bytes of the two words, lowest first.
ghost use Rattle.std.specs.Prelude.{◌≡◌, true, ◌++◌, ◌+◌, ◌*◌, ◌^◌, ◌<◌};
ghost use Rattle.loc_leaf.specs.declared.Kind.TheVariants.{Paired, Single};
ghost use Rattle.loc_leaf.specs.Bytes.{bytes};
ghost use Rattle.loc_leaf.specs.Block.{firsts, row_bit, row_mask, inline_strides, inline_spans, running, lowest, lanes_of, SumsOf};

use crate::Kind;

// The low byte of each of four lanes of sixteen bits.
pub const BYTES: u64 = 0x00ff_00ff_00ff_00ff;

// The bit above that byte.
const CARRIES: u64 = 0x0100_0100_0100_0100;

// The low sixteen bits of each of two lanes of thirty-two.
pub const WORDS: u64 = 0x0000_ffff_0000_ffff;

// The bit above them.
const WORD_CARRIES: u64 = 0x0001_0000_0001_0000;

// The lowest record that a mask names, 8 where it names none.
pub fn lowest_record(mask: u8) -> u32
    ensures { result ≡ lowest 8 mask }
{
    u8::trailing_zeros(mask)
}

// Where a function stands for each kind, from here on, no constant tells the two apart: paired, a word has four lanes of a byte twice, single, two lanes of sixteen bits twice,
// and other steps put them together.

// The carry of each of a word's records of which no byte is 0: a byte that is not 0, with 255 added, reaches the bit above it.
pub fn full(w: u64) -> u64
    ensures { result + 2 ^ 8 * row_bit Paired (bytes 8 w) 0 + 2 ^ 24 * row_bit Paired (bytes 8 w) 1 + 2 ^ 40 * row_bit Paired (bytes 8 w) 2 + 2 ^ 56 * row_bit Paired (bytes 8 w) 3 ≡ 0x0100_0100_0100_0100 }
{
    ((w & BYTES) + BYTES) & (((w >> 8) & BYTES) + BYTES) & CARRIES
}

// The carry of a word's records 0 and 2 where their sixteen bits are not all 0.
pub fn even_full(w: u64) -> u64
    ensures { result + 2 ^ 16 * row_bit Single (bytes 8 w) 0 + 2 ^ 48 * row_bit Single (bytes 8 w) 2 ≡ 0x0001_0000_0001_0000 }
{
    ((w & WORDS) + WORDS) & WORD_CARRIES
}

// Whether no record of the block holds a 0 byte.
pub fn none_zero(lo: u64, hi: u64) -> bool
    ensures { result ≡ true → row_mask Paired (bytes 8 lo ++ bytes 8 hi) 0 8 ≡ 0 }
{
    full(lo) & full(hi) == CARRIES
}

// Whether no record of the block is all 0.
pub fn none_empty(lo: u64, hi: u64) -> bool
    ensures { result ≡ true → row_mask Single (bytes 8 lo ++ bytes 8 hi) 0 8 ≡ 0 }
{
    even_full(lo) & even_full(lo >> 16) & even_full(hi) & even_full(hi >> 16) == WORD_CARRIES
}

// Which of a word's four records hold a 0: four bits, put side by side.
fn zero_nibble(w: u64) -> u64
    ensures { (result ≡ row_mask Paired (bytes 8 w) 0 4) × (result < 16) }
{
    let z = (CARRIES - full(w)) >> 8;
    (z + (z >> 15) + (z >> 30) + (z >> 45)) & 15
}

// Which of a word's four records are all 0: two lanes of two bits, put side by side.
fn empty_nibble(w: u64) -> u64
    ensures { (result ≡ row_mask Single (bytes 8 w) 0 4) × (result < 16) }
{
    let z = ((WORD_CARRIES - even_full(w)) >> 16) + ((WORD_CARRIES - even_full(w >> 16)) >> 15);
    (z + (z >> 30)) & 15
}

// Which of a word's four records need a row.
fn nibble(kind: Kind, w: u64) -> u64
    ensures { (result ≡ row_mask kind (bytes 8 w) 0 4) × (result < 16) }
{
    match kind {
        Kind::Paired => zero_nibble(w),
        Kind::Single => empty_nibble(w),
    }
}

// Bit k is set where record k of the block needs a row: paired, where it holds a 0.
pub fn row_mask(kind: Kind, lo: u64, hi: u64) -> u64
    ensures { (result ≡ row_mask kind (bytes 8 lo ++ bytes 8 hi) 0 8) × (result < 256) }
{
    nibble(kind, lo) + 16 * nibble(kind, hi)
}

// The sum of a block's first bytes: the last of the lanes' running sums stands in the highest lane.
pub fn first_total(lo: u64, hi: u64) -> u64
    ensures { (result ≡ inline_strides Paired (bytes 8 lo ++ bytes 8 hi) 0 8) × (result < 2048) }
{
    let e = (lo & BYTES) + (hi & BYTES);
    let t = e + (e << 16);
    (t + (t << 32)) >> 48
}

// The sum of its second bytes.
pub fn second_total(lo: u64, hi: u64) -> u64
    ensures { (result ≡ inline_spans Paired (bytes 8 lo ++ bytes 8 hi) 0 8) × (result < 2048) }
{
    first_total(lo >> 8, hi >> 8)
}

// The sum of its records' sixteen bits: those of each of two lanes, then both lanes.
pub fn strides_total(lo: u64, hi: u64) -> u64
    ensures { (result ≡ inline_strides Single (bytes 8 lo ++ bytes 8 hi) 0 8) × (result < 2 ^ 19) }
{
    let e = (lo & WORDS) + ((lo >> 16) & WORDS) + (hi & WORDS) + ((hi >> 16) & WORDS);
    (e >> 32) + (e & 0xffff_ffff)
}

// The running sums of a word's first bytes × 8, each in its lane; no lane reaches 2^16.
fn lane_sums(w: u64) -> u64
    ensures { result ≡ lanes_of (running 0 (firsts (bytes 8 w))) }
{
    let e = (w & BYTES) << 3;
    let s = e + (e << 16);
    s + (s << 32)
}

fn first_sums(lo: u64, hi: u64) -> [u32; 8]
    ensures { result ≡ running 0 (firsts (bytes 8 lo ++ bytes 8 hi)) }
{
    let a = lane_sums(lo);
    let b = lane_sums(hi);
    let t = (a >> 48) as u32;
    [
        (a & 65535) as u32,
        ((a >> 16) & 65535) as u32,
        ((a >> 32) & 65535) as u32,
        t,
        t + (b & 65535) as u32,
        t + ((b >> 16) & 65535) as u32,
        t + ((b >> 32) & 65535) as u32,
        t + (b >> 48) as u32,
    ]
}

#[derive(Clone, Copy)]
pub struct Sums {
    pub tx: [u32; 8],
    pub sp: [u32; 8],
}

// The running sums of a block's first bytes × 8, and of its second bytes × 8.
pub fn inclusive_u8x8_times_8(lo: u64, hi: u64) -> Sums
    ensures { SumsOf (bytes 8 lo ++ bytes 8 hi) result.tx result.sp }
{
    let tx = first_sums(lo, hi);
    let sp = first_sums(lo >> 8, hi >> 8);
    Sums { tx, sp }
}
