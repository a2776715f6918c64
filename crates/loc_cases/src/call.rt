// A call on areas, with a line's numbers: the records of a batch, or the count of a truncation.
// A reading has the words of its answer buffer and then the wanted numbers; parts has these words, the record and then the pairs.
use crate::areas::OwnAreas;
use crate::batch::{batch, lists};
use crate::listing::put_listing;
use crate::pairs::Pairs;
use crate::script::{Line, Numbers};
use loc_calls::{Areas, AreasMut};
use loc_leaf::Kind;
use loc_leaf::refusal::Refusal;
use loc_lent::{first, first_mut, storing};

// Those that store at several places are made whole, or as the run at some of them.
#[derive(Clone, Copy)]
pub enum Call {
    Create,
    Open(Option<u64>),
    Append(Option<u64>),
    Listing(Option<u64>),
    Truncate(Option<u64>),
    Read,
    Parts,
    Audit,
    Withheld,
}

// A call's letter: its first, for audit its second.
fn letter(line: &Line) -> u8 {
    if line.second == b'u' {
        b'u'
    } else {
        line.first
    }
}

impl Call {
    // The call that a line names. An upper-case letter and any other name a run that stores at no place: the program's behaviour on any input is kept.
    pub fn named(line: &Line) -> Call {
        match letter(line) {
            b'c' => Call::Create,
            b'o' => Call::Open(None),
            b'O' => Call::Open(Some(0)),
            b'a' => Call::Append(None),
            b'A' => Call::Append(Some(0)),
            b'l' => Call::Listing(None),
            b'L' => Call::Listing(Some(0)),
            b't' => Call::Truncate(None),
            b'r' => Call::Read,
            b'p' => Call::Parts,
            b'u' => Call::Audit,
            b'w' => Call::Withheld,
            _ => Call::Truncate(Some(0)),
        }
    }

    // Its run at some places.
    pub fn run_named(line: &Line, places: u64) -> Call {
        match letter(line) {
            b'o' => Call::Open(Some(places)),
            b'a' => Call::Append(Some(places)),
            b'l' => Call::Listing(Some(places)),
            _ => Call::Truncate(Some(places)),
        }
    }

    // How many places the call has that a line names.
    pub fn places(line: &Line) -> u64 {
        match letter(line) {
            b'o' => 6,
            b'a' | b'l' => 4,
            _ => 3,
        }
    }

    // Whether it is lent an answer buffer.
    pub fn answers(self) -> bool {
        matches!(self, Call::Read | Call::Parts)
    }
}

fn append(
    kind: Kind,
    areas: &mut AreasMut,
    numbers: &Numbers,
    places: Option<u64>,
) -> Result<u64, Refusal> {
    let lists = lists(numbers);
    storing::append(kind, areas, batch(&lists, numbers), places)
}

fn append_listing(
    areas: &mut AreasMut,
    numbers: &Numbers,
    places: Option<u64>,
) -> Result<u64, Refusal> {
    let mut text = [0u8; 512];
    let n = put_listing(numbers, &mut text);
    storing::append_listing(areas, first(&text, n), places)
}

fn parts(a: Areas, numbers: &Numbers, answers: &mut [u64]) -> Result<u64, Refusal> {
    let pairs = Pairs::of(numbers);
    loc_index::parts(
        a,
        pairs.composites(),
        pairs.components(),
        numbers.at(1),
        answers,
    )
}

impl Call {
    fn made_on(
        self,
        kind: Kind,
        areas: &mut AreasMut,
        numbers: &Numbers,
        answers: &mut [u64],
    ) -> Result<u64, Refusal> {
        let count = numbers.at(0);
        let answers = first_mut(answers, count as usize);
        match self {
            Call::Create => loc_index::create(areas),
            Call::Open(places) => storing::open(kind, areas, places),
            Call::Append(places) => append(kind, areas, numbers, places),
            Call::Listing(places) => append_listing(areas, numbers, places),
            Call::Truncate(places) => storing::truncate(kind, areas, count, places),
            Call::Read => loc_index::range_batch(kind, areas.shared(), numbers.after(1), answers),
            Call::Parts => parts(areas.shared(), numbers, answers),
            Call::Audit => loc_index::audit(kind, areas.shared()),
            Call::Withheld => loc_index::withheld_ovf_limit(kind, areas.shared(), count),
        }
    }

    pub fn made(
        self,
        kind: Kind,
        areas: &mut OwnAreas,
        numbers: &Numbers,
        answers: &mut [u64],
    ) -> Result<u64, Refusal> {
        let mut copies = areas.copies();
        let answer = self.made_on(kind, &mut copies.lend(), numbers, answers);
        areas.put_back(&copies);
        answer
    }
}
