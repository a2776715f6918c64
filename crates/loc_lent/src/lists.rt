// The four lists of a batch, stored record by record.
// They have room for N records.
use crate::first;
use loc_calls::Batch;

#[derive(Clone, Copy)]
pub struct Lists<const N: usize> {
    starts: [u64; N],
    lens: [u64; N],
    span_starts: [u64; N],
    span_counts: [u32; N],
}

impl<const N: usize> Lists<N> {
    pub fn new() -> Self {
        Lists {
            starts: [0; N],
            lens: [0; N],
            span_starts: [0; N],
            span_counts: [0; N],
        }
    }

    // One record. Where there is no room, nothing is stored.
    pub fn put(&mut self, i: usize, start: u64, len: u64, span_start: u64, span_count: u32) {
        if i < N {
            self.starts[i] = start;
            self.lens[i] = len;
            self.span_starts[i] = span_start;
            self.span_counts[i] = span_count;
        }
    }

    // The first so many of each, where they may differ in length.
    pub fn batch(&self, starts: usize, lens: usize, spans: usize) -> Batch<'_> {
        Batch {
            starts: first(&self.starts, starts),
            lens: first(&self.lens, lens),
            span_starts: first(&self.span_starts, spans),
            span_counts: first(&self.span_counts, spans),
        }
    }
}
