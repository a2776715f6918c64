// Little-endian numbers in an area, and its published length (file.rs, length only).
// A byte past the end counts as 0 when it is read, and is not stored.
ghost use Rattle.std.specs.Prelude.{ℕ, ◌≡◌, ◌≤◌, ◌<◌, length, drop};
ghost use Rattle.loc_leaf.specs.Bytes.{byte, bytes, number_at, store};
ghost use Rattle.loc_leaf.specs.Area.{counted, store_length, InPieces};

// Where the published bytes of an area begin.
pub const FILE_HEADER_LEN: usize = 16;

pub fn byte_at(s: &[u8], at: usize) -> u8
    ensures { result ≡ byte at s.now }
{
    s.get(at).copied().unwrap_or(0)
}

// N bytes from a place on.
fn bytes_at<const N: usize>(s: &[u8], at: usize) -> [u8; N]
    ensures { (i : ℕ) → i < N → byte i result ≡ byte i (drop at s.now) }
{
    let part = &s[at.min(s.len())..];
    if let Some(bytes) = part.first_chunk() {
        return *bytes;
    }
    let mut bytes = [0; N];
    bytes[..part.len()].copy_from_slice(part);
    bytes
}

// One line for each width, over that function: each has a type of its own.
pub fn u16_at(s: &[u8], at: usize) -> u16
    ensures { result ≡ number_at 2 at s.now }
{
    u16::from_le_bytes(bytes_at(s, at))
}

pub fn u32_at(s: &[u8], at: usize) -> u32
    ensures { result ≡ number_at 4 at s.now }
{
    u32::from_le_bytes(bytes_at(s, at))
}

pub fn u64_at(s: &[u8], at: usize) -> u64
    ensures { result ≡ number_at 8 at s.now }
{
    u64::from_le_bytes(bytes_at(s, at))
}

// The n lowest bytes of v at a place and after it.
pub fn put_le(s: &mut [u8], at: usize, n: usize, v: u64)
    ensures { s.new ≡ store at (bytes n v) s.old }
{
    let mut rest = v;
    for to in at..at.saturating_add(n).min(s.len()) {
        s[to] = (rest % 256) as u8;
        rest /= 256;
    }
}

// The published length as it counts.
#[tactic(auto, unfolding(crate::specs::Area::counted))]
pub fn logical_len(area: &[u8]) -> usize
    ensures { (result ≡ counted area.now) × (result ≤ length area.now) }
{
    u64_at(area, 8).max(16).min(area.len() as u64) as usize
}

// What an area publishes in pieces of a width: up to which place, how many whole ones, and how many bytes are left over.
#[derive(Clone, Copy)]
pub struct Pieces {
    pub end: usize,
    pub count: usize,
    pub left: usize,
}

pub fn published(area: &[u8], width: usize) -> Pieces
    ensures { InPieces width area.now result }
{
    let end = logical_len(area);
    let bytes = end.saturating_sub(FILE_HEADER_LEN);
    Pieces {
        end,
        count: bytes.checked_div(width).unwrap_or(0),
        left: bytes.checked_rem(width).unwrap_or(bytes),
    }
}

pub fn store_len(area: &mut [u8], len: u64)
    ensures { area.new ≡ store_length len area.old }
{
    put_le(area, 8, 8, len);
}
