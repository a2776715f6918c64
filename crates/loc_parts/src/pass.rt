// The pass over the pairs, from the record's last one down to the first: a pair with a mark counts, and marks the last pair
// before it of its own composite and of its component. What the pairs that count have as components is sorted, each kept one time.
ghost use Rattle.std.specs.Prelude.{◌≡◌, ℕ, ◌+◌, ◌≤◌, ◌<◌, length, take, drop};
ghost use Rattle.loc_calls.specs.Parts.{InOrder, Fit, needed};
ghost use Rattle.loc_order.specs.Order.{sorted};
ghost use Rattle.loc_parts.specs.Pass.{composites_to, PairsEnd, marked, Marked, Entered, Walking, Cleared, distinct};

use crate::Pairs;
use loc_order::sort_keys;

// How many of the composites before `end` are at most y: by quarters, and no branch depends on a composite.
fn composites_to(composites: &[u64], end: usize, y: u64) -> usize
    requires { InOrder composites.now × (end ≤ length composites.now) }
    ensures { result ≡ composites_to composites.now y end }
{
    let mut at = 0;
    let mut left = end;
    // no count: three quarters of what is left are passed or dropped at once
    while 3 <= left {
        let quarter = (left + 1) / 4;
        let one = usize::from(composites[at + quarter - 1] <= y);
        let two = usize::from(composites[at + 2 * quarter - 1] <= y);
        let three = usize::from(composites[at + 3 * quarter - 1] <= y);
        at += (one + two + three) * quarter;
        left -= 3 * quarter;
    }
    for _ in 0..left {
        at += usize::from(composites[at] <= y);
    }
    at
}

// One past the last pair before `end` that has composite y; 0 where there is none.
// A number and no Option: it is the end of a range, and the pass goes down from it.
fn pairs_end(composites: &[u64], end: usize, y: u64) -> usize
    requires { InOrder composites.now × (end ≤ length composites.now) }
    ensures { PairsEnd composites.now end y result }
{
    if end == 0 {
        return 0;
    }
    let last = composites[end - 1];
    if last == y {
        return end;
    }
    if last < y || y < composites[0] {
        return 0;
    }
    let r = composites_to(composites, end, y);
    if composites[r - 1] == y { r } else { 0 }
}

// Marks the last pair before `end` that has composite y, if there is one; whether it had its mark.
fn mark_last(composites: &[u64], end: usize, y: u64, marks: &mut [bool]) -> bool
    requires { InOrder composites.now × (end ≤ length composites.now) × (length composites.now ≤ length marks.old) }
    ensures { Marked composites.now end y marks.old marks.new result }
{
    let r = pairs_end(composites, end, y);
    if r == 0 {
        return false;
    }
    let before = marks[r - 1];
    marks[r - 1] = true;
    before
}

// Where a number stands in a table of 64 or of 1,024 words. Numbers that follow each other, or that lie a step apart, are spread.
fn place_in(words: usize, p: u64) -> usize
    requires { 64 ≤ words }
    ensures { result < words }
{
    let spread = p % 0x1_0000_0000 * 0x9e37_79b9 / 0x40_0000;
    if words < 1024 {
        return (spread % 64) as usize;
    }
    (spread % 1024) as usize
}

// Whether p is new to the table, in which it stands afterwards. Another number with its place takes that,
// so a component may be taken for new again: the table only saves work.
fn enter(seen: &mut [u64], p: u64) -> bool
    requires { 64 ≤ length seen.old }
    ensures { Entered p seen.old seen.new result }
{
    let h = place_in(seen.len(), p);
    if seen[h] == p {
        return false;
    }
    seen[h] = p;
    true
}

// Takes the component of the pair at i, which has a mark; the answer is where the stage's components then begin.
fn take_pair(
    pairs: Pairs,
    i: usize,
    marks: &mut [bool],
    seen: &mut [u64],
    stage: &mut [u64],
    s: usize,
) -> usize
    requires { Fit pairs.composites.now pairs.components.now × (i < length pairs.composites.now) × (length pairs.composites.now ≤ length marks.old) × marked marks.old i × (64 ≤ length seen.old) × (i < s) × (s ≤ length stage.old) }
    ensures { (i ≤ result) × (result ≤ length stage.new)
        × ((x : ℕ) → Walking pairs.entry.composites.now pairs.entry.components.now x marks.old seen.old (drop s stage.old) (i + 1)
        → Walking pairs.entry.composites.now pairs.entry.components.now x marks.new seen.new (drop result stage.new) i) }
{
    mark_last(pairs.composites, i, pairs.composites[i], marks);
    let p = pairs.components[i];
    if enter(seen, p) {
        if mark_last(pairs.composites, i, p, marks) {
            return s;
        }
        stage[s - 1] = p;
        return s - 1;
    }
    s
}

// The components of the pairs that count, at the end of the stage; the answer is where they begin.
fn walk(pairs: Pairs, record: u64, marks: &mut [bool], seen: &mut [u64], stage: &mut [u64]) -> usize
    requires { Fit pairs.composites.now pairs.components.now × Cleared (length pairs.composites.now) marks.old stage.old seen.old }
    ensures { (result ≤ length stage.new) × Walking pairs.entry.composites.now pairs.entry.components.now «record» marks.new seen.new (drop result stage.new) 0 }
{
    let end = pairs_end(pairs.composites, pairs.composites.len(), record);
    mark_last(pairs.composites, end, record, marks);
    let mut s = stage.len();
    for i in (0..end).rev() {
        if marks[i] {
            s = take_pair(pairs, i, marks, seen, stage, s);
        }
    }
    s
}

// Of a list in order, each number one time; the answer is how many. 0 is left out.
fn keep_distinct(src: &[u64], out: &mut [u64]) -> usize
    requires { length src.now ≤ length out.old }
    ensures { (result ≤ length src.now) × (take result out.new ≡ distinct 0 src.now) }
{
    let mut r = 0;
    let mut last = 0;
    for &y in src {
        if y != last {
            out[r] = y;
            r += 1;
            last = y;
        }
    }
    r
}

// The numbers sorted, each one time, at the front of `out`; the answer is how many. Numbers that come in order,
// as the components of one composite or of one chain do, stay as they are.
fn sort_distinct(numbers: &mut [u64], out: &mut [u64]) -> usize
    requires { length numbers.old ≤ length out.old }
    ensures { (result ≤ length numbers.old) × (take result out.new ≡ distinct 0 (sorted numbers.old)) }
{
    sort_keys(numbers, out);
    keep_distinct(numbers, out)
}

// The records that a record needs, at the front of `list`; the answer is how many.
pub fn needed_records(
    pairs: Pairs,
    record: u64,
    marks: &mut [bool],
    stage: &mut [u64],
    list: &mut [u64],
) -> usize
    requires { Fit pairs.composites.now pairs.components.now × Cleared (length pairs.composites.now) marks.old stage.old list.old }
    ensures { (result ≤ length list.old) × (take result list.new ≡ needed pairs.entry.composites.now pairs.entry.components.now «record») }
{
    let s = walk(pairs, record, marks, list, stage);
    sort_distinct(&mut stage[s..], list)
}
