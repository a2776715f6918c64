// What the programs that run the public calls have in common: parts of arrays, as calls are lent them, batches, calls that store, and answers as two numbers.
// Nothing is promised here but that every call is made on what is handed over.
#![tactic(auto)]

pub mod lists;
pub mod storing;

use loc_leaf::refusal::Refusal;

// The first n elements. A part that would be longer than the array is the array.
pub fn first<T>(list: &[T], n: usize) -> &[T] {
    &list[..n.min(list.len())]
}

// The same, to be stored to: an area, or an answer buffer.
pub fn first_mut<T>(list: &mut [T], n: usize) -> &mut [T] {
    let m = n.min(list.len());
    &mut list[..m]
}

// All but the first n elements.
pub fn rest<T>(list: &[T], n: usize) -> &[T] {
    &list[n.min(list.len())..]
}

// The N bytes from a place on. What lies past the end counts as 0.
pub fn copied<const N: usize>(all: &[u8], at: usize) -> [u8; N] {
    let mut bytes = [0; N];
    store(&mut bytes, 0, rest(all, at));
    bytes
}

// Bytes to a place and after it. What lies past the end is not stored.
pub fn store(all: &mut [u8], at: usize, bytes: &[u8]) {
    for (to, byte) in all.iter_mut().skip(at).zip(bytes) {
        *to = *byte;
    }
}

// 0 and the value, or the refusal's number and 0.
pub fn number_and_value(answer: Result<u64, Refusal>) -> (u64, u64) {
    match answer {
        Ok(value) => (0, value),
        Err(refusal) => (u64::from(refusal), 0),
    }
}
