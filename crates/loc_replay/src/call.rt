// A call from the tape on areas that are lent, with the arguments that stand behind its code.
// 7: create, 8: open, 9: append, 10: truncate, 11: a reading, 12: an audit, 13: how many records are durable.
use crate::tape::Tape;
use loc_calls::{Areas, AreasMut};
use loc_leaf::Kind;
use loc_leaf::refusal::Refusal;
use loc_lent::lists::Lists;
use loc_lent::{first, first_mut, number_and_value, storing};

// The place after n records. Past 2^24 it is the lists' first again: the program's behaviour on any input is kept.
fn place_after(from: usize, n: usize) -> usize {
    if from < 0x100_0000 {
        from.saturating_add(n)
    } else {
        0
    }
}

// A run: how many (2 bytes), start (8), length (8), span start (8), span count (4). Its records' starts follow each other.
// The answer is the place after it.
fn put_run(tape: &mut Tape, lists: &mut Lists<1200>, from: usize) -> usize {
    let n = tape.half();
    let mut start = tape.word();
    let len = tape.word();
    let mut span_start = tape.word();
    let span_count = tape.count();
    for i in 0..n {
        lists.put(place_after(from, i), start, len, span_start, span_count);
        start = start.saturating_add(len);
        span_start = span_start.saturating_add(8 * u64::from(span_count));
    }
    place_after(from, n)
}

// Places, how many records, how many lengths, how many runs; the runs.
fn append(kind: Kind, tape: &mut Tape, areas: &mut AreasMut) -> Result<u64, Refusal> {
    let places = tape.places();
    let n = tape.half();
    let lens = tape.half();
    let runs = tape.half();
    let mut lists = Lists::new();
    let mut at = 0;
    for _ in 0..runs {
        at = put_run(tape, &mut lists, at);
    }
    storing::append(kind, areas, lists.batch(n, lens, n), places)
}

// Places, the count.
fn truncate(kind: Kind, tape: &mut Tape, areas: &mut AreasMut) -> Result<u64, Refusal> {
    let places = tape.places();
    storing::truncate(kind, areas, tape.word(), places)
}

// The words of n answers. Of more than 64 none has a word: the program's behaviour on any input is kept.
fn words_of(kind: Kind, n: usize) -> usize {
    if 64 < n {
        return 0;
    }
    match kind {
        Kind::Paired => 6 * n,
        Kind::Single => 3 * n,
    }
}

// How many numbers; the numbers; what it has to answer, and where that is accepted its words.
// The buffer is two words longer than asked and filled with 7, so that words stored past the answers show.
fn reading_agrees(kind: Kind, tape: &mut Tape, a: Areas) -> bool {
    let n = usize::from(tape.byte());
    let asked = words_of(kind, n);
    let mut numbers = [0u64; 255];
    tape.words(first_mut(&mut numbers, n));
    let mut answers = [7u64; 386];
    let answer = loc_index::range_batch(
        kind,
        a,
        first(&numbers, n.min(64)),
        first_mut(&mut answers, asked.saturating_add(2)),
    );
    let told = tape.answer();
    let mut words = [7u64; 386];
    if told.0 == 0 {
        tape.words(first_mut(&mut words, asked));
    }
    number_and_value(answer) == told && answers == words
}

// Whether a call gives what the tape has behind its arguments.
pub fn agrees(kind: Kind, code: u8, tape: &mut Tape, areas: &mut AreasMut) -> bool {
    let answer = match code {
        7 => loc_index::create(areas),
        8 => storing::open(kind, areas, tape.places()),
        9 => append(kind, tape, areas),
        10 => truncate(kind, tape, areas),
        11 => return reading_agrees(kind, tape, areas.shared()),
        12 => loc_index::audit(kind, areas.shared()),
        13 => loc_index::withheld_ovf_limit(kind, areas.shared(), tape.word()),
        // Any other code truncates, by bytes that the tape then has as the answer too: the program's behaviour on any input is kept.
        _ => {
            let mut ahead = *tape;
            truncate(kind, &mut ahead, areas)
        }
    };
    number_and_value(answer) == tape.answer()
}
