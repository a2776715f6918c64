// The script's commands. A section ends with a line of `=`; it is run for the paired kind, then for the single one.
// A call that is made to see its answer has a buffer filled with 9, so that words that are not stored show.
use crate::areas::{CHECKPOINTS, OwnAreas, ROWS, SLOTS};
use crate::call::Call;
use crate::print;
use crate::script::{Line, Numbers, after_line, ends, meant};
use loc_leaf::Kind;
use loc_leaf::refusal::Refusal;
use loc_lent::{first, number_and_value, rest};
use std::io;

// A line at one kind.
#[derive(Clone, Copy)]
struct Case<'a> {
    kind: Kind,
    line: Line<'a>,
    numbers: &'a Numbers,
}

impl<'a> Case<'a> {
    fn call(&self, call: Call, areas: &mut OwnAreas, answers: &mut [u64]) -> Result<u64, Refusal> {
        call.made(self.kind, areas, self.numbers, answers)
    }

    // The call that the line names.
    fn named(&self) -> Call {
        Call::named(&self.line)
    }

    fn print_begin<P: Print>(&self, rt: &P) -> io::Result<()> {
        rt.print(print::kind(self.kind))?;
        rt.write_all(self.line.words)
    }

    // kept: number, value, and whether every byte of the areas and every word of the buffer stayed as it was.
    fn kept<P: Print>(&self, rt: &P, areas: &mut OwnAreas) -> io::Result<()> {
        let before = *areas;
        let mut answers = [9u64; 32];
        let answer = self.call(self.named(), areas, &mut answers);
        let same = *areas == before && answers == [9u64; 32];
        self.print_begin(rt)?;
        print::answer(rt, answer)?;
        let kept = if same { "same" } else { "changed" };
        println!(rt; " {kept}")
    }

    // answer: number, value, and every word of the buffer that a reading or parts is lent.
    fn answer<P: Print>(&self, rt: &P, areas: &mut OwnAreas) -> io::Result<()> {
        let mut answers = [9u64; 32];
        let call = self.named();
        let answer = self.call(call, areas, &mut answers);
        self.print_begin(rt)?;
        print::answer(rt, answer)?;
        if call.answers() {
            print::numbers(rt, first(&answers, self.numbers.at(0) as usize))?;
        }
        println!(rt;)
    }

    // list: records 1 and 2, a line for each, without the word that says that they were found.
    fn list<P: Print>(&self, rt: &P, areas: &mut OwnAreas) -> io::Result<()> {
        let mut answers = [9u64; 32];
        let _ = self.call(Call::Read, areas, &mut answers);
        let width = match self.kind {
            Kind::Paired => 6,
            Kind::Single => 3,
        };
        for (i, words) in answers.chunks_exact(width).take(2).enumerate() {
            print!(rt; "{}", i + 1)?;
            print::numbers(rt, rest(words, 1))?;
            println!(rt;)?;
        }
        Ok(())
    }

    // torn: at every number of places below all: places, count before; number, value and lengths after the tear and after the opening.
    fn torn<P: Print>(&self, rt: &P, areas: &OwnAreas) -> io::Result<()> {
        for places in 0..Call::places(&self.line) {
            let count = self.count(areas);
            self.print_begin(rt)?;
            print!(rt; " {places} {count}")?;
            self.tear(rt, places, areas)?;
            println!(rt;)?;
        }
        Ok(())
    }

    // An opening that stores at no place answers the count.
    fn count(&self, areas: &OwnAreas) -> u64 {
        let mut copy = *areas;
        let (_, count) = number_and_value(self.call(Call::Open(Some(0)), &mut copy, &mut []));
        count
    }

    // A tear on a copy of the areas, and the opening that follows it.
    fn tear<P: Print>(&self, rt: &P, places: u64, areas: &OwnAreas) -> io::Result<()> {
        let mut copy = *areas;
        let run = Call::run_named(&self.line, places);
        let torn = self.call(run, &mut copy, &mut []);
        print_left(rt, "torn", torn, &copy)?;
        let opened = self.call(Call::Open(None), &mut copy, &mut []);
        print_left(rt, "opened", opened, &copy)
    }

    // find: number, record, index and remainder of an address.
    fn find<P: Print>(&self, rt: &P, areas: &OwnAreas) -> io::Result<()> {
        let address = self.numbers.at(0);
        let mut copies = areas.copies();
        let found = loc_index::span_at(copies.lend().shared(), address);
        self.print_begin(rt)?;
        print!(rt; " {address}")?;
        match found {
            Ok(at) => print::numbers(rt, &[0, at.record, at.index, at.remainder])?,
            Err(refusal) => print::numbers(rt, &[u64::from(refusal), 0, 0, 0])?,
        }
        println!(rt;)
    }

    // Commands that change the areas by hand, then those that make a call, each by its first letter. Any other prints its words.
    fn run<P: Print>(&self, rt: &P, areas: &mut OwnAreas) -> io::Result<()> {
        match self.line.command {
            b'n' => *areas = OwnAreas::sized(self.numbers),
            b's' => areas.fill(SLOTS, self.numbers),
            b'r' => areas.fill(ROWS, self.numbers),
            b'c' => areas.fill(CHECKPOINTS, self.numbers),
            b'm' => {
                let _ = self.call(self.named(), areas, &mut [9u64; 32]);
            }
            b'k' => self.kept(rt, areas)?,
            b'a' => self.answer(rt, areas)?,
            b'l' => self.list(rt, areas)?,
            b't' => self.torn(rt, areas)?,
            b'f' => self.find(rt, areas)?,
            _ => {
                rt.write_all(rest(self.line.words, 1))?;
                println!(rt;)?;
            }
        }
        Ok(())
    }
}

fn print_left<P: Print>(
    rt: &P,
    name: &str,
    answer: Result<u64, Refusal>,
    areas: &OwnAreas,
) -> io::Result<()> {
    print!(rt; " {name}")?;
    print::answer(rt, answer)?;
    print::numbers(
        rt,
        &[
            areas.counted(SLOTS),
            areas.counted(ROWS),
            areas.counted(CHECKPOINTS),
        ],
    )
}

// One section for one kind, of at most 1,000 lines: what follows it.
fn section<'a, P: Print>(rt: &P, script: &'a [u8], kind: Kind) -> io::Result<&'a [u8]> {
    let mut areas = OwnAreas::new();
    let mut numbers = Numbers::new();
    let mut left = script;
    for _ in 0..1000 {
        let text = left;
        left = after_line(text);
        if ends(text) {
            break;
        }
        if meant(text, kind) {
            let line = Line::of(text);
            numbers.read(line.numbers);
            let case = Case {
                kind,
                line,
                numbers: &numbers,
            };
            case.run(rt, &mut areas)?;
        }
    }
    Ok(left)
}

// At most 100 sections.
pub fn run<P: Print>(rt: &P, script: &[u8]) -> io::Result<()> {
    let mut left = script;
    for _ in 0..100 {
        if left.is_empty() {
            break;
        }
        section(rt, left, Kind::Paired)?;
        left = section(rt, left, Kind::Single)?;
    }
    Ok(())
}
