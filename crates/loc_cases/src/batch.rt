// The batch that a line's numbers spell: start, length, span start and span count of each record.
// One number alone is a count: so many records of 8 bytes with 1 span from 16 on. A start that is left over has no length.
use crate::script::{Numbers, counted};
use loc_calls::Batch;
use loc_lent::lists::Lists;

fn field(record: &[u64], at: usize) -> u64 {
    record.get(at).copied().unwrap_or(0)
}

// The fields that are left over count as 0 here.
pub fn lists(numbers: &Numbers) -> Lists<1030> {
    let mut lists = Lists::new();
    if numbers.count() == 1 {
        for i in 0..1030 {
            let start = 16 + 8 * i as u64;
            lists.put(i, start, 8, start, 1);
        }
        return lists;
    }
    for (i, record) in numbers.held().chunks(4).enumerate() {
        lists.put(
            i,
            field(record, 0),
            field(record, 1),
            field(record, 2),
            (field(record, 3) & 0xffff_ffff) as u32,
        );
    }
    lists
}

// As many of them as the numbers spell. A line that fills the list or has more has no start: the program's behaviour on any input is kept.
pub fn batch<'a>(lists: &'a Lists<1030>, numbers: &Numbers) -> Batch<'a> {
    let n = numbers.count();
    if n == 1 {
        let n = counted(numbers.at(0)) as usize;
        return lists.batch(n, n, n);
    }
    let starts = if n < 1040 { n.div_ceil(4) } else { 0 };
    lists.batch(starts, n / 4, n / 4)
}
