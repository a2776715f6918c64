// Create, open, truncate and the check of number 6 on three lent areas, for both kinds.
// An inner crate: its calls ask nothing, but functions below them may have a `requires`.
#![tactic(auto)]

ghost use Rattle.std.specs.Prelude.{◌≡◌};

pub mod check;
pub mod create;
pub mod open;
pub mod plan;
pub mod store;
pub mod truncate;

use loc_leaf::file::Pieces;
use loc_leaf::refusal::Refusal;

// The published lengths of the three areas.
#[derive(Clone, Copy)]
pub struct Lengths {
    pub slots: u64,
    pub rows: u64,
    pub checkpoints: u64,
}

// What the three areas publish, each in pieces of its own width.
#[derive(Clone, Copy)]
pub struct Published {
    pub slots: Pieces,
    pub rows: Pieces,
    pub checkpoints: Pieces,
}

impl Published {
    // Up to where the areas publish.
    pub fn ends(self) -> Lengths
        ensures { (result.slots ≡ self.slots.end) × (result.rows ≡ self.rows.end) × (result.checkpoints ≡ self.checkpoints.end) }
    {
        Lengths {
            slots: self.slots.end as u64,
            rows: self.rows.end as u64,
            checkpoints: self.checkpoints.end as u64,
        }
    }
}

// What the check of a call finds of the areas: how many records and rows are published, and up to where.
#[derive(Clone, Copy)]
pub struct Checked {
    pub count: u64,
    pub row_count: usize,
    pub ends: Lengths,
}

// Areas that the check refuses: what is found of them all the same, and by what.
// In this order what is found stands at one place of a `Result`, whichever it is; else the compiler puts the count together by bytes.
#[derive(Clone, Copy)]
pub struct Refused {
    pub found: Checked,
    pub refusal: Refusal,
}

// A call that hands it on by `?` gives the refusal.
impl From<Refused> for Refusal {
    ghost from_gives = { λ e r. r ≡ e.refusal };

    fn from(e: Refused) -> Refusal {
        e.refusal
    }
}

// The lengths of an opening's two truncations: by the checkpoint rule, then by the cut rule.
#[derive(Clone, Copy)]
pub struct Rules {
    pub checkpoint: Lengths,
    pub cut: Lengths,
}
