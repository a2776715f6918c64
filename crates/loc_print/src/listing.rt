// The whole listing of a paired index, window after window.
// Nothing of the index is changed.
ghost use Rattle.std.specs.Prelude.{◌≡◌, ◌+◌, ◌*◌, ◌≤◌, ◌<◌, ◌^◌, length, eqb};
ghost use Rattle.loc_leaf.specs.Area.{fill};
ghost use Rattle.loc_calls.specs.Lent.{seen};
ghost use Rattle.loc_listing.specs.Text.{Put};
ghost use Rattle.loc_print.specs.Printed.{window_refusal, window_lines, printed, listing_text};

use crate::window::Window;
use loc_calls::Areas;
use loc_leaf::file::published;
use loc_listing::names::names_text;
use loc_listing::refused_text;

// What is put of a window: its lines, or the line of its refusal. The answer is how many bytes these are, and whether the windows after it are listed.
fn put_window(window: &mut Window, a: Areas, done: u64, n: usize, out: &mut [u8]) -> (usize, bool)
    requires { (0 < n) × (n ≤ 1024) × (126 * n ≤ length out.old) × (done + 1 + n < 2 ^ 64) }
    ensures text { Put out.old 0 (window_lines (seen a.entry) done n) out.new result.0 × (result.0 ≤ 126 * n) }
    ensures goes_on { result.1 ≡ eqb (window_refusal (seen a.entry) done n) 0 }
{
    match window.put(a, done, n, out) {
        Ok(bytes) => (bytes, true),
        Err(refusal) => (refused_text(u64::from(refusal), out), false),
    }
}

// The line of names, then the windows of all `count` records, or of those before a refusal and its line.
fn put_windows(a: Areas, count: u64, out: &mut [u8]) -> usize
    requires { (count ≡ fill 2 a.slots.now) × (53 + 126 * count ≤ length out.old) }
    ensures { Put out.old 0 (printed (seen a.entry)) out.new result × (result ≤ length out.old) }
{
    let mut window = Window::new();
    let mut at = names_text(out);
    for done in (0..count).step_by(1024) {
        let n = (count - done).min(1024);
        let (bytes, goes_on) = put_window(&mut window, a, done, n as usize, &mut out[at..]);
        at += bytes;
        if !goes_on {
            return at;
        }
    }
    at
}

// The text that is printed of an index; the answer is how many bytes it has. It surely fits where the buffer has 53 bytes and 126 for each record.
pub fn listing_text(a: Areas, out: &mut [u8]) -> usize
    ensures { Put out.old 0 (listing_text (seen a.entry) (length out.old)) out.new result × (result ≤ length out.old) }
{
    let count = published(a.slots, 2).count;
    if out.len() < 53 || (out.len() - 53) / 126 < count {
        return 0;
    }
    put_windows(a, count as u64, out)
}
