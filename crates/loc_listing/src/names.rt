// The line of names, with which a listing begins: put into a buffer, and looked for in a text.
// It has 53 bytes.
ghost use Rattle.std.specs.Prelude.{◌≡◌, ◌≤◌, length};
ghost use Rattle.loc_listing.specs.Text.{names, begins, names_text, Put};

use crate::put_bytes;

const NAMES: &[u8] = b"record body_start body_len span_start span_len spans\n";

// The answer is how many bytes are put: 53, or 0 where the buffer is too short.
pub fn names_text(out: &mut [u8]) -> usize
    ensures { Put out.old 0 (names_text (length out.old)) out.new result × (result ≤ length out.old) × (result ≤ 53) }
{
    if out.len() < NAMES.len() {
        return 0;
    }
    put_bytes(NAMES, out)
}

pub fn has_names(text: &[u8]) -> bool
    ensures { result ≡ begins names text.now }
{
    text.starts_with(NAMES)
}
