// The calls of documents 01 and 02 as definitions on lists (specs/) and their laws (proofs/), for both kinds at once.
// The crates above prove their code against these definitions. Here is what a call is lent, and the crossing that it may give.
#![tactic(auto)]

ghost use Rattle.std.specs.Prelude.{◌≡◌};
ghost use Rattle.loc_calls.specs.Lent.{seen, held};

// The three areas of an index, to be read.
#[derive(Clone, Copy)]
pub struct Areas<'a> {
    pub slots: &'a [u8],
    pub rows: &'a [u8],
    pub checkpoints: &'a [u8],
}

// The three areas, to be stored to.
#[derive(Drop)]
pub struct AreasMut<'a> {
    pub slots: &'a mut [u8],
    pub rows: &'a mut [u8],
    pub checkpoints: &'a mut [u8],
}

impl<'a> AreasMut<'a> {
    pub fn shared(&self) -> Areas<'_>
        ensures { seen result ≡ held self.now }
    {
        Areas {
            slots: self.slots,
            rows: self.rows,
            checkpoints: self.checkpoints,
        }
    }
}

// The four lists of a batch, an entry of each for a record. A single index looks at the first two alone.
#[derive(Clone, Copy)]
pub struct Batch<'a> {
    pub starts: &'a [u64],
    pub lens: &'a [u64],
    pub span_starts: &'a [u64],
    pub span_counts: &'a [u32],
}

// The record whose span range holds an address, the index of the span in it, and the remainder.
#[derive(Clone, Copy)]
pub struct SpanAt {
    pub record: u64,
    pub index: u64,
    pub remainder: u64,
}
