// The four lists of a batch of at most 1,024 records, as a text fills them.
// Clauses see the batch.
ghost use Rattle.std.specs.Prelude.{◌≡◌, ◌+◌, ◌≤◌, ◌<◌, ◌^◌, length};
ghost use Rattle.loc_calls.specs.Lent.{lists};
ghost use Rattle.loc_calls.specs.Table.{Batch};
ghost use Rattle.loc_parse.specs.Lines.{added, empty, parsed};
ghost use Rattle.loc_parse.specs.Lists.{firsts, Filled};

use crate::Fields;
use crate::lines::parse;
use loc_calls::Batch;
use loc_leaf::refusal::Refusal;
use std::marker::Model;

#[derive(Drop)]
pub struct Lists {
    starts: [u64; 1024],
    lens: [u64; 1024],
    span_starts: [u64; 1024],
    span_counts: [u32; 1024],
    records: usize,
}

impl Model for Lists {
    ghost Value = { Batch };

    ghost view = { λ l. firsts l.records l.starts l.lens l.span_starts l.span_counts };

    ghost invariant = { λ l. l.records ≤ 1024 };
}

impl Lists {
    pub fn new() -> Self
        ensures { result ≡ empty }
    {
        Lists {
            starts: [0; 1024],
            lens: [0; 1024],
            span_starts: [0; 1024],
            span_counts: [0; 1024],
            records: 0,
        }
    }

    // A record more, from a line's numbers, for a caller that reads line by line: `parse` stores in slices.
    pub fn push(&mut self, f: Fields)
        requires { length self.old.starts < 1024 }
        ensures { self.new ≡ added self.old f }
    {
        self.starts[self.records] = f.start;
        self.lens[self.records] = f.len;
        self.span_starts[self.records] = f.span_start;
        self.span_counts[self.records] = f.spans;
        self.records += 1;
    }

    // A whole text for an index of `count` records: 18, 19 or 20, or its batch.
    pub fn parse(&mut self, count: u64, text: &[u8]) -> Result<(), Refusal>
        requires { count + 1025 < 2 ^ 64 }
        ensures { Filled (parsed count text.now) result self.new }
    {
        let taken = parse(
            count,
            text,
            &mut self.starts,
            &mut self.lens,
            &mut self.span_starts,
            &mut self.span_counts,
        );
        match taken {
            Ok(records) => {
                self.records = records;
                Ok(())
            }
            Err(refused) => {
                self.records = refused.records;
                Err(refused.refusal)
            }
        }
    }

    pub fn batch(&self) -> Batch<'_>
        ensures { lists result ≡ self.now }
    {
        Batch {
            starts: &self.starts[..self.records],
            lens: &self.lens[..self.records],
            span_starts: &self.span_starts[..self.records],
            span_counts: &self.span_counts[..self.records],
        }
    }
}
