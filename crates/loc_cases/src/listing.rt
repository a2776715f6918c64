// The listing that a line's numbers spell: how many bytes are left out at its end, its first record number, then the six words of a reading for each record.
// With no words it is the line of names.
use crate::script::Numbers;
use loc_listing::names::names_text;
use loc_listing::window_text;

fn spell(first: u64, words: &[u64], out: &mut [u8]) -> usize {
    let at = names_text(out);
    let bytes = window_text(first, words, words.len() / 6, &mut out[at..]);
    at + bytes
}

// How many bytes of the buffer are its text.
pub fn put_listing(numbers: &Numbers, out: &mut [u8]) -> usize {
    let all = spell(numbers.at(1), numbers.after(2), out);
    all.saturating_sub(numbers.at(0) as usize)
}
