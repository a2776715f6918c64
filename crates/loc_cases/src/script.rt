// The script's text. A line: for which kinds, a command, the words of a case, numbers; each after one space.
// Lines end with a line feed.
use loc_leaf::Kind;
use loc_leaf::file::byte_at;
use loc_lent::{first, rest};

// Where a byte stands, at the latest where the line ends.
fn found(text: &[u8], byte: u8) -> usize {
    text.iter()
        .position(|here| *here == byte || *here == b'\n')
        .unwrap_or(text.len())
}

// What follows the first line.
pub fn after_line(text: &[u8]) -> &[u8] {
    rest(rest(text, found(text, b'\n')), 1)
}

// Whether a section ends with this line, or with the script.
pub fn ends(text: &[u8]) -> bool {
    matches!(byte_at(text, 0), b'=' | 0)
}

// Whether a line is for this kind: for paired, single or both, by its first letter.
pub fn meant(text: &[u8], kind: Kind) -> bool {
    match byte_at(text, 0) {
        b'b' => true,
        b'p' => matches!(kind, Kind::Paired),
        b's' => matches!(kind, Kind::Single),
        _ => false,
    }
}

// The command's first letter, the first two letters of the case's words, the words with the space before each, and the
// numbers with the space before each. They begin where a digit follows a space.
#[derive(Clone, Copy)]
pub struct Line<'a> {
    pub command: u8,
    pub first: u8,
    pub second: u8,
    pub words: &'a [u8],
    pub numbers: &'a [u8],
}

impl<'a> Line<'a> {
    // The first line of a text. What a line lacks is read from the next one: the program's behaviour on any input is kept.
    pub fn of(text: &'a [u8]) -> Line<'a> {
        let command = rest(rest(text, found(text, b' ')), 1);
        let case = rest(command, found(command, b' '));
        let line = first(case, found(case, b'\n'));
        let end = line
            .windows(2)
            .position(|two| matches!(two, [b' ', b'0'..=b'9']))
            .unwrap_or(line.len());
        Line {
            command: byte_at(command, 0),
            first: byte_at(case, 1),
            second: byte_at(case, 2),
            words: first(line, end),
            numbers: rest(line, end),
        }
    }
}

// A digit more. A number that would not fit 64 bits is 0, and so is one after a byte that is no digit.
fn with_digit(n: u64, byte: u8) -> u64 {
    match byte {
        b'0'..=b'9' => n
            .checked_mul(10)
            .and_then(|tens| tens.checked_add(u64::from(byte - b'0')))
            .unwrap_or(0),
        _ => 0,
    }
}

// The numbers of a section's latest line. Behind them those of earlier lines stay.
#[derive(Clone, Copy)]
pub struct Numbers {
    list: [u64; 1040],
    count: usize,
}

impl Numbers {
    pub fn new() -> Self {
        Numbers {
            list: [0; 1040],
            count: 0,
        }
    }

    // A line's numbers. Those past the list's end are counted and left out.
    pub fn read(&mut self, numbers: &[u8]) {
        for (to, piece) in self
            .list
            .iter_mut()
            .zip(numbers.split(|byte| *byte == b' ').skip(1))
        {
            *to = piece.iter().fold(0, |n, byte| with_digit(n, *byte));
        }
        self.count = numbers.iter().filter(|byte| **byte == b' ').count();
    }

    // How many the line has.
    pub fn count(&self) -> usize {
        self.count
    }

    // One by its place. Where the line has none there, it is that of an earlier line: the program's behaviour on any input is kept.
    pub fn at(&self, place: usize) -> u64 {
        self.list.get(place).copied().unwrap_or(0)
    }

    // Those of the line that the list holds.
    pub fn held(&self) -> &[u64] {
        first(&self.list, self.count)
    }

    // All but the first n, and none where the list does not hold all: the program's behaviour on any input is kept.
    pub fn after(&self, n: usize) -> &[u64] {
        if self.list.len() < self.count {
            return &[];
        }
        rest(self.held(), n)
    }
}

// The number of a line that has it alone, as a count: of 1,030 and more, none.
pub fn counted(n: u64) -> u64 {
    if n < 1030 { n } else { 0 }
}
