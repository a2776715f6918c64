// The single calls with C linkage: the number is returned, the value stored through `value`.
// A slice is a pointer and a length in elements.
ghost use Rattle.std.specs.Prelude.{[], ◌≡◌};
ghost use Rattle.loc_leaf.specs.declared.Kind.TheVariants.{Single};
ghost use Rattle.loc_calls.specs.Areas.{areas};
ghost use Rattle.loc_calls.specs.Table.{batch, opening, append, truncate, read};
ghost use Rattle.loc_calls.specs.Calls.{call, create, audit};
ghost use Rattle.loc_calls.specs.Withheld.{withheld};
ghost use Rattle.loc_calls.specs.Promises.{Stored, Read};
ghost use Rattle.loc_exports.specs.Given.{given};

use crate::give;
use loc_calls::{Areas, AreasMut, Batch};
use loc_leaf::Kind;

// Creation: 1.
#[unsafe(no_mangle)]
pub extern "C" fn delta_loc_create(
    slots: &mut [u8],
    rows: &mut [u8],
    checkpoints: &mut [u8],
    value: &mut u64,
) -> u64
    ensures { Stored (create (areas slots.old rows.old checkpoints.old))
        (given result value.new) (areas slots.new rows.new checkpoints.new) }
{
    let mut areas = AreasMut {
        slots,
        rows,
        checkpoints,
    };
    give(loc_index::create(&mut areas), value)
}

// Opening: 1; 2 to 5.
#[unsafe(no_mangle)]
pub extern "C" fn delta_loc_open(
    slots: &mut [u8],
    rows: &mut [u8],
    checkpoints: &mut [u8],
    value: &mut u64,
) -> u64
    ensures { Stored (call Single 6 opening (areas slots.old rows.old checkpoints.old))
        (given result value.new) (areas slots.new rows.new checkpoints.new) }
{
    let mut areas = AreasMut {
        slots,
        rows,
        checkpoints,
    };
    give(loc_index::open(Kind::Single, &mut areas), value)
}

// Opening, its first places only.
#[unsafe(no_mangle)]
pub extern "C" fn delta_loc_open_run(
    slots: &mut [u8],
    rows: &mut [u8],
    checkpoints: &mut [u8],
    places: u64,
    value: &mut u64,
) -> u64
    ensures { Stored (call Single places opening (areas slots.old rows.old checkpoints.old))
        (given result value.new) (areas slots.new rows.new checkpoints.new) }
{
    let mut areas = AreasMut {
        slots,
        rows,
        checkpoints,
    };
    give(loc_index::open_run(Kind::Single, &mut areas, places), value)
}

// Append: 1, 6; 7, 9 to 11, 13, 17, 22 and 23.
#[unsafe(no_mangle)]
pub extern "C" fn delta_loc_append(
    slots: &mut [u8],
    rows: &mut [u8],
    checkpoints: &mut [u8],
    starts: &[u64],
    lens: &[u64],
    value: &mut u64,
) -> u64
    ensures { Stored (call Single 4 (append (batch starts.now lens.now [] [])) (areas slots.old rows.old checkpoints.old))
        (given result value.new) (areas slots.new rows.new checkpoints.new) }
{
    let mut areas = AreasMut {
        slots,
        rows,
        checkpoints,
    };
    let batch = Batch {
        starts,
        lens,
        span_starts: &[],
        span_counts: &[],
    };
    give(loc_index::append(Kind::Single, &mut areas, batch), value)
}

// Append, its first places only.
#[unsafe(no_mangle)]
pub extern "C" fn delta_loc_append_run(
    slots: &mut [u8],
    rows: &mut [u8],
    checkpoints: &mut [u8],
    starts: &[u64],
    lens: &[u64],
    places: u64,
    value: &mut u64,
) -> u64
    ensures { Stored (call Single places (append (batch starts.now lens.now [] [])) (areas slots.old rows.old checkpoints.old))
        (given result value.new) (areas slots.new rows.new checkpoints.new) }
{
    let mut areas = AreasMut {
        slots,
        rows,
        checkpoints,
    };
    let batch = Batch {
        starts,
        lens,
        span_starts: &[],
        span_counts: &[],
    };
    give(
        loc_index::append_run(Kind::Single, &mut areas, batch, places),
        value,
    )
}

// Truncation: 1, 6; 14.
#[unsafe(no_mangle)]
pub extern "C" fn delta_loc_truncate(
    slots: &mut [u8],
    rows: &mut [u8],
    checkpoints: &mut [u8],
    count: u64,
    value: &mut u64,
) -> u64
    ensures { Stored (call Single 3 (truncate count) (areas slots.old rows.old checkpoints.old))
        (given result value.new) (areas slots.new rows.new checkpoints.new) }
{
    let mut areas = AreasMut {
        slots,
        rows,
        checkpoints,
    };
    give(
        loc_index::truncate_to_count(Kind::Single, &mut areas, count),
        value,
    )
}

// Truncation, its first places only.
#[unsafe(no_mangle)]
pub extern "C" fn delta_loc_truncate_run(
    slots: &mut [u8],
    rows: &mut [u8],
    checkpoints: &mut [u8],
    count: u64,
    places: u64,
    value: &mut u64,
) -> u64
    ensures { Stored (call Single places (truncate count) (areas slots.old rows.old checkpoints.old))
        (given result value.new) (areas slots.new rows.new checkpoints.new) }
{
    let mut areas = AreasMut {
        slots,
        rows,
        checkpoints,
    };
    give(
        loc_index::truncate_to_count_run(Kind::Single, &mut areas, count, places),
        value,
    )
}

// Reading: 1, 6; 15, 16, 17.
#[unsafe(no_mangle)]
pub extern "C" fn delta_loc_read(
    slots: &[u8],
    rows: &[u8],
    checkpoints: &[u8],
    wanted: &[u64],
    answers: &mut [u64],
    value: &mut u64,
) -> u64
    ensures { Read (call Single 0 (read wanted.now answers.old) (areas slots.now rows.now checkpoints.now))
        (given result value.new) answers.new }
{
    let areas = Areas {
        slots,
        rows,
        checkpoints,
    };
    give(
        loc_index::range_batch(Kind::Single, areas, wanted, answers),
        value,
    )
}

// Audit: 1, 6.
#[unsafe(no_mangle)]
pub extern "C" fn delta_loc_audit(
    slots: &[u8],
    rows: &[u8],
    checkpoints: &[u8],
    value: &mut u64,
) -> u64
    ensures { given result value.new ≡ (audit Single (areas slots.now rows.now checkpoints.now)).answer }
{
    let areas = Areas {
        slots,
        rows,
        checkpoints,
    };
    give(loc_index::audit(Kind::Single, areas), value)
}

// How many records are durable: 1, 6.
#[unsafe(no_mangle)]
pub extern "C" fn delta_loc_withheld_ovf_limit(
    slots: &[u8],
    rows: &[u8],
    checkpoints: &[u8],
    durable: u64,
    value: &mut u64,
) -> u64
    ensures { given result value.new ≡ (withheld Single durable (areas slots.now rows.now checkpoints.now)).answer }
{
    let areas = Areas {
        slots,
        rows,
        checkpoints,
    };
    give(
        loc_index::withheld_ovf_limit(Kind::Single, areas, durable),
        value,
    )
}
