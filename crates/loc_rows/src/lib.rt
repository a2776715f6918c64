// One reader over the row area, carrying the next row's place: what opening and audit go through the rows with.
// An inner crate. The width of a row is a number, so that both kinds are read by one code.
#![tactic(auto)]

ghost use Rattle.std.specs.Prelude.{◌≡◌, ◌+◌, ◌<◌, ◌≤◌, ◌^◌};
ghost use Rattle.loc_leaf.specs.Rows.{row_list, ascending};
ghost use Rattle.loc_rows.specs.Reader.{row_at, rows_from};

use loc_leaf::Kind;
use loc_leaf::delta_loc::{ROW_SPANS, ROW_STRIDES, row_width};
use loc_leaf::file::{FILE_HEADER_LEN, logical_len, u32_at, u64_at};

// A row as it is read. One of 12 bytes has no spans.
#[derive(Clone, Copy)]
pub struct Row {
    pub number: u64,
    pub strides: u32,
    pub spans: u32,
}

// The published rows, the place of the next one, and the width of each.
// No iterator: audit looks at the row at its place until the record of that row comes.
#[derive(Clone, Copy)]
pub struct RowReader<'a> {
    pub rows: &'a [u8],
    pub at: usize,
    pub width: usize,
}

impl<'a> RowReader<'a> {
    pub fn new(rows: &'a [u8], at: usize, width: usize) -> RowReader<'a>
        ensures { (result.rows ≡ rows.entry) × (result.at ≡ at) × (result.width ≡ width) }
    {
        RowReader { rows, at, width }
    }

    // The row that stands at the reader's place, if a whole one does. Its bytes are taken as one part, whose length is the width,
    // so that no read tests a bound of its own.
    pub fn here(self) -> Option<Row>
        ensures { result ≡ row_at self.entry.width self.entry.rows.now self.entry.at }
    {
        if self.rows.len() < self.width || self.rows.len() - self.width < self.at {
            return None;
        }
        let end = self.at + self.width;
        let row = &self.rows[self.at..end];
        Some(Row {
            number: u64_at(row, 0),
            strides: u32_at(row, ROW_STRIDES),
            spans: u32_at(row, ROW_SPANS),
        })
    }

    // The reader at the next row's place.
    pub fn onward(self) -> RowReader<'a>
        requires { self.at + self.width < 2 ^ 64 }
        ensures { (result.rows ≡ self.entry.rows) × (result.at ≡ self.entry.at + self.entry.width) × (result.width ≡ self.entry.width) }
    {
        RowReader::new(self.rows, self.at + self.width, self.width)
    }

    // Whether the rows from here on are numbered from 1 on, each above the one before. The reader goes from row to row.
    fn ascend(mut self) -> bool
        requires { 12 ≤ self.width }
        ensures { result ≡ ascending 0 (rows_from self.entry.width self.entry.rows.now self.entry.at) }
    {
        let mut last: u64 = 0;
        while let Some(row) = self.here() {
            if row.number <= last {
                return false;
            }
            last = row.number;
            self = self.onward();
        }
        true
    }
}

// Whether the rows are numbered from 1 on, each above the one before.
pub fn rows_ascend(kind: Kind, rows: &[u8]) -> bool
    ensures { result ≡ ascending 0 (row_list kind rows.now) }
{
    let end = logical_len(rows);
    RowReader::new(&rows[..end], FILE_HEADER_LEN, row_width(kind)).ascend()
}
