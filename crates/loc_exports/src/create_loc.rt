// The paired calls with C linkage: the number is returned, the value stored through `value`.
// A slice is a pointer and a length in elements. Each call stands here once more for the single kind (delta_loc.rt): the C interface has a name for each.
ghost use Rattle.loc_leaf.specs.declared.Kind.TheVariants.{Paired};
ghost use Rattle.std.specs.Prelude.{◌≡◌};
ghost use Rattle.loc_calls.specs.Areas.{areas};
ghost use Rattle.loc_calls.specs.Table.{batch, opening, append, truncate, read};
ghost use Rattle.loc_calls.specs.Calls.{call, create, audit};
ghost use Rattle.loc_calls.specs.SpanAt.{span_at};
ghost use Rattle.loc_calls.specs.Parts.{parts};
ghost use Rattle.loc_calls.specs.Withheld.{withheld};
ghost use Rattle.loc_calls.specs.Promises.{Stored, Read};
ghost use Rattle.loc_parse.specs.Import.{append_listing};
ghost use Rattle.loc_exports.specs.Given.{given, given_span};

use crate::give;
use loc_calls::{Areas, AreasMut, Batch};
use loc_leaf::Kind;

// Creation: 1.
#[unsafe(no_mangle)]
pub extern "C" fn create_loc_create(
    slots: &mut [u8],
    rows: &mut [u8],
    checkpoints: &mut [u8],
    value: &mut u64,
) -> u64
    ensures { Stored (create (areas slots.old rows.old checkpoints.old))
        (given result value.new) (areas slots.new rows.new checkpoints.new) }
{
    let mut areas = AreasMut {
        slots,
        rows,
        checkpoints,
    };
    give(loc_index::create(&mut areas), value)
}

// Opening: 1; 2 to 5.
#[unsafe(no_mangle)]
pub extern "C" fn create_loc_open(
    slots: &mut [u8],
    rows: &mut [u8],
    checkpoints: &mut [u8],
    value: &mut u64,
) -> u64
    ensures { Stored (call Paired 6 opening (areas slots.old rows.old checkpoints.old))
        (given result value.new) (areas slots.new rows.new checkpoints.new) }
{
    let mut areas = AreasMut {
        slots,
        rows,
        checkpoints,
    };
    give(loc_index::open(Kind::Paired, &mut areas), value)
}

// Opening, its first places only.
#[unsafe(no_mangle)]
pub extern "C" fn create_loc_open_run(
    slots: &mut [u8],
    rows: &mut [u8],
    checkpoints: &mut [u8],
    places: u64,
    value: &mut u64,
) -> u64
    ensures { Stored (call Paired places opening (areas slots.old rows.old checkpoints.old))
        (given result value.new) (areas slots.new rows.new checkpoints.new) }
{
    let mut areas = AreasMut {
        slots,
        rows,
        checkpoints,
    };
    give(loc_index::open_run(Kind::Paired, &mut areas, places), value)
}

// Append: 1, 6; 7 to 13, 17 and 22 to 24.
#[unsafe(no_mangle)]
pub extern "C" fn create_loc_append(
    slots: &mut [u8],
    rows: &mut [u8],
    checkpoints: &mut [u8],
    body_starts: &[u64],
    body_lens: &[u64],
    span_starts: &[u64],
    span_counts: &[u32],
    value: &mut u64,
) -> u64
    ensures { Stored (call Paired 4 (append (batch body_starts.now body_lens.now span_starts.now span_counts.now)) (areas slots.old rows.old checkpoints.old))
        (given result value.new) (areas slots.new rows.new checkpoints.new) }
{
    let mut areas = AreasMut {
        slots,
        rows,
        checkpoints,
    };
    let batch = Batch {
        starts: body_starts,
        lens: body_lens,
        span_starts,
        span_counts,
    };
    give(loc_index::append(Kind::Paired, &mut areas, batch), value)
}

// Append, its first places only.
#[unsafe(no_mangle)]
pub extern "C" fn create_loc_append_run(
    slots: &mut [u8],
    rows: &mut [u8],
    checkpoints: &mut [u8],
    body_starts: &[u64],
    body_lens: &[u64],
    span_starts: &[u64],
    span_counts: &[u32],
    places: u64,
    value: &mut u64,
) -> u64
    ensures { Stored (call Paired places (append (batch body_starts.now body_lens.now span_starts.now span_counts.now)) (areas slots.old rows.old checkpoints.old))
        (given result value.new) (areas slots.new rows.new checkpoints.new) }
{
    let mut areas = AreasMut {
        slots,
        rows,
        checkpoints,
    };
    let batch = Batch {
        starts: body_starts,
        lens: body_lens,
        span_starts,
        span_counts,
    };
    give(
        loc_index::append_run(Kind::Paired, &mut areas, batch, places),
        value,
    )
}

// A listing appended: 1, 6; 18 to 20; 8 to 13, 17 and 22 to 24.
#[unsafe(no_mangle)]
pub extern "C" fn create_loc_append_listing(
    slots: &mut [u8],
    rows: &mut [u8],
    checkpoints: &mut [u8],
    text: &[u8],
    value: &mut u64,
) -> u64
    ensures { Stored (append_listing 4 text.now (areas slots.old rows.old checkpoints.old))
        (given result value.new) (areas slots.new rows.new checkpoints.new) }
{
    let mut areas = AreasMut {
        slots,
        rows,
        checkpoints,
    };
    give(loc_index::append_listing(&mut areas, text), value)
}

// A listing appended, its first places only.
#[unsafe(no_mangle)]
pub extern "C" fn create_loc_append_listing_run(
    slots: &mut [u8],
    rows: &mut [u8],
    checkpoints: &mut [u8],
    text: &[u8],
    places: u64,
    value: &mut u64,
) -> u64
    ensures { Stored (append_listing places text.now (areas slots.old rows.old checkpoints.old))
        (given result value.new) (areas slots.new rows.new checkpoints.new) }
{
    let mut areas = AreasMut {
        slots,
        rows,
        checkpoints,
    };
    give(
        loc_index::append_listing_run(&mut areas, text, places),
        value,
    )
}

// Truncation: 1, 6; 14.
#[unsafe(no_mangle)]
pub extern "C" fn create_loc_truncate(
    slots: &mut [u8],
    rows: &mut [u8],
    checkpoints: &mut [u8],
    count: u64,
    value: &mut u64,
) -> u64
    ensures { Stored (call Paired 3 (truncate count) (areas slots.old rows.old checkpoints.old))
        (given result value.new) (areas slots.new rows.new checkpoints.new) }
{
    let mut areas = AreasMut {
        slots,
        rows,
        checkpoints,
    };
    give(
        loc_index::truncate_to_count(Kind::Paired, &mut areas, count),
        value,
    )
}

// Truncation, its first places only.
#[unsafe(no_mangle)]
pub extern "C" fn create_loc_truncate_run(
    slots: &mut [u8],
    rows: &mut [u8],
    checkpoints: &mut [u8],
    count: u64,
    places: u64,
    value: &mut u64,
) -> u64
    ensures { Stored (call Paired places (truncate count) (areas slots.old rows.old checkpoints.old))
        (given result value.new) (areas slots.new rows.new checkpoints.new) }
{
    let mut areas = AreasMut {
        slots,
        rows,
        checkpoints,
    };
    give(
        loc_index::truncate_to_count_run(Kind::Paired, &mut areas, count, places),
        value,
    )
}

// Reading: 1, 6; 15, 16, 17.
#[unsafe(no_mangle)]
pub extern "C" fn create_loc_read(
    slots: &[u8],
    rows: &[u8],
    checkpoints: &[u8],
    wanted: &[u64],
    answers: &mut [u64],
    value: &mut u64,
) -> u64
    ensures { Read (call Paired 0 (read wanted.now answers.old) (areas slots.now rows.now checkpoints.now))
        (given result value.new) answers.new }
{
    let areas = Areas {
        slots,
        rows,
        checkpoints,
    };
    give(
        loc_index::range_batch(Kind::Paired, areas, wanted, answers),
        value,
    )
}

// Audit: 1, 6.
#[unsafe(no_mangle)]
pub extern "C" fn create_loc_audit(
    slots: &[u8],
    rows: &[u8],
    checkpoints: &[u8],
    value: &mut u64,
) -> u64
    ensures { given result value.new ≡ (audit Paired (areas slots.now rows.now checkpoints.now)).answer }
{
    let areas = Areas {
        slots,
        rows,
        checkpoints,
    };
    give(loc_index::audit(Kind::Paired, areas), value)
}

// How many records are durable: 1, 6.
#[unsafe(no_mangle)]
pub extern "C" fn create_loc_withheld_ovf_limit(
    slots: &[u8],
    rows: &[u8],
    checkpoints: &[u8],
    durable: u64,
    value: &mut u64,
) -> u64
    ensures { given result value.new ≡ (withheld Paired durable (areas slots.now rows.now checkpoints.now)).answer }
{
    let areas = Areas {
        slots,
        rows,
        checkpoints,
    };
    give(
        loc_index::withheld_ovf_limit(Kind::Paired, areas, durable),
        value,
    )
}

// Whose crossing is at an address: 1, 6; 17, 21.
#[unsafe(no_mangle)]
pub extern "C" fn create_loc_span_at(
    slots: &[u8],
    rows: &[u8],
    checkpoints: &[u8],
    address: u64,
    record: &mut u64,
    index: &mut u64,
    remainder: &mut u64,
) -> u64
    ensures { given_span result «record».new index.new remainder.new ≡ span_at (areas slots.now rows.now checkpoints.now) address }
{
    let areas = Areas {
        slots,
        rows,
        checkpoints,
    };
    let found = loc_index::span_at(areas, address);
    match found {
        Ok(at) => {
            *record = at.record;
            *index = at.index;
            *remainder = at.remainder;
            0
        }
        Err(r) => {
            *record = 0;
            *index = 0;
            *remainder = 0;
            u64::from(r)
        }
    }
}

// What a record needs by pairs: 1, 6; 7, 15; 27, 28, 29; 16.
#[unsafe(no_mangle)]
pub extern "C" fn create_loc_parts(
    slots: &[u8],
    rows: &[u8],
    checkpoints: &[u8],
    composites: &[u64],
    components: &[u64],
    record: u64,
    answers: &mut [u64],
    value: &mut u64,
) -> u64
    ensures { Read (parts composites.now components.now «record» answers.old (areas slots.now rows.now checkpoints.now)) (given result value.new) answers.new }
{
    let areas = Areas {
        slots,
        rows,
        checkpoints,
    };
    give(
        loc_index::parts(areas, composites, components, record, answers),
        value,
    )
}
