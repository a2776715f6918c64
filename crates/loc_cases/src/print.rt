// What stands in a line on standard output: the kind, an answer, numbers.
// Fields are parted by a space.
use loc_leaf::Kind;
use loc_leaf::refusal::Refusal;
use loc_lent::number_and_value;
use std::io;

// The first word of a case.
pub fn kind(k: Kind) -> &'static str {
    match k {
        Kind::Paired => "paired",
        Kind::Single => "single",
    }
}

pub fn answer<P: Print>(rt: &P, a: Result<u64, Refusal>) -> io::Result<()> {
    let (number, value) = number_and_value(a);
    print!(rt; " {number} {value}")
}

pub fn numbers<P: Print>(rt: &P, list: &[u64]) -> io::Result<()> {
    for n in list {
        print!(rt; " {n}")?;
    }
    Ok(())
}
