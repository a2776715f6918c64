// The public calls of the index: paired, with a body and spans for each record (create_loc.rs), or single, with a body alone (delta_loc.rs).
// Every call takes areas, lists and buffers of any length and content, and tests what it refuses.
#![tactic(auto)]

ghost use Rattle.std.specs.Prelude.{◌≡◌};
ghost use Rattle.loc_leaf.specs.declared.Kind.TheVariants.{Paired};
ghost use Rattle.loc_leaf.specs.Answers.{answer_of};
ghost use Rattle.loc_calls.specs.Table.{opening, append, truncate, read};
ghost use Rattle.loc_calls.specs.Calls.{create, call, audit};
ghost use Rattle.loc_calls.specs.SpanAt.{span_at, crossing_of};
ghost use Rattle.loc_calls.specs.Parts.{parts};
ghost use Rattle.loc_calls.specs.Withheld.{withheld};
ghost use Rattle.loc_calls.specs.Lent.{seen, held, lists, SameLenders};
ghost use Rattle.loc_calls.specs.Promises.{Stored, Read};
ghost use Rattle.loc_parse.specs.Import.{append_listing};

use loc_calls::{Areas, AreasMut, Batch, SpanAt};
use loc_leaf::Kind;
use loc_leaf::refusal::Refusal;

// Refuses by 1. The value is 0.
pub fn create(areas: &mut AreasMut) -> Result<u64, Refusal>
    ensures { Stored (create (held areas.old)) (answer_of result) (held areas.new) × SameLenders areas.old areas.new }
{
    loc_store::create::create_areas(areas)
}

// Refuses by 1; 2, 3, 4, 5. The value is the count that the areas then hold.
// `places` of a `*_run` is how many of the call's places are stored; the other calls store all.
pub fn open_run(kind: Kind, areas: &mut AreasMut, places: u64) -> Result<u64, Refusal>
    ensures { Stored (call kind places opening (held areas.old)) (answer_of result) (held areas.new) × SameLenders areas.old areas.new }
{
    loc_store::open::open_run(kind, areas, places)
}

// Refuses by 1; 2, 3, 4, 5. The value is the count.
pub fn open(kind: Kind, areas: &mut AreasMut) -> Result<u64, Refusal>
    ensures { Stored (call kind 6 opening (held areas.old)) (answer_of result) (held areas.new) × SameLenders areas.old areas.new }
{
    open_run(kind, areas, 6)
}

// Refuses by 1, 6; 7; 17, 23, 24; record by record 8, 22, 9, 10, 11, 12; 13; a single index never by 8, 12, 24. The value is the count that the areas then hold.
pub fn append_run(
    kind: Kind,
    areas: &mut AreasMut,
    batch: Batch,
    places: u64,
) -> Result<u64, Refusal>
    ensures { Stored (call kind places (append (lists batch.entry)) (held areas.old)) (answer_of result) (held areas.new) × SameLenders areas.old areas.new }
{
    loc_append::run::append_run(kind, areas, batch, places)
}

// Refuses as `append_run`. The value is the count.
pub fn append(kind: Kind, areas: &mut AreasMut, batch: Batch) -> Result<u64, Refusal>
    ensures { Stored (call kind 4 (append (lists batch.entry)) (held areas.old)) (answer_of result) (held areas.new) × SameLenders areas.old areas.new }
{
    append_run(kind, areas, batch, 4)
}

// A listing, appended to a paired index. Refuses by 1, 6; line by line 18, 19, 20; then as append. The value is the count that the areas then hold.
pub fn append_listing_run(areas: &mut AreasMut, text: &[u8], places: u64) -> Result<u64, Refusal>
    ensures { Stored (append_listing places text.now (held areas.old)) (answer_of result) (held areas.new) × SameLenders areas.old areas.new }
{
    loc_import::append_listing_run(areas, text, places)
}

// Refuses as `append_listing_run`. The value is the count.
pub fn append_listing(areas: &mut AreasMut, text: &[u8]) -> Result<u64, Refusal>
    ensures { Stored (append_listing 4 text.now (held areas.old)) (answer_of result) (held areas.new) × SameLenders areas.old areas.new }
{
    append_listing_run(areas, text, 4)
}

// Refuses by 1, 6; 14. The value is the count that the areas then hold.
pub fn truncate_to_count_run(
    kind: Kind,
    areas: &mut AreasMut,
    count: u64,
    places: u64,
) -> Result<u64, Refusal>
    ensures { Stored (call kind places (truncate count) (held areas.old)) (answer_of result) (held areas.new) × SameLenders areas.old areas.new }
{
    loc_store::truncate::truncate_run(kind, areas, count, places)
}

// Refuses by 1, 6; 14. The value is the count.
pub fn truncate_to_count(kind: Kind, areas: &mut AreasMut, count: u64) -> Result<u64, Refusal>
    ensures { Stored (call kind 3 (truncate count) (held areas.old)) (answer_of result) (held areas.new) × SameLenders areas.old areas.new }
{
    truncate_to_count_run(kind, areas, count, 3)
}

// Refuses by 1, 6; 15, 16, 17. The value is how many of the wanted numbers are found.
pub fn range_batch(
    kind: Kind,
    areas: Areas,
    wanted: &[u64],
    answers: &mut [u64],
) -> Result<u64, Refusal>
    ensures { Read (call kind 0 (read wanted.now answers.old) (seen areas.entry)) (answer_of result) answers.new }
{
    loc_read::read::range_batch(kind, areas, wanted, answers)
}

// Refuses by 1, 6. The value is 1 where the index is sound, else 0.
pub fn audit(kind: Kind, areas: Areas) -> Result<u64, Refusal>
    ensures { answer_of result ≡ (audit kind (seen areas.entry)).answer }
{
    loc_audit::audit::audit_areas(kind, areas)
}

// Refuses by 1, 6. The value is how many records are durable where the rows have reached the length `durable` on the medium.
pub fn withheld_ovf_limit(kind: Kind, areas: Areas, durable: u64) -> Result<u64, Refusal>
    ensures { answer_of result ≡ (withheld kind durable (seen areas.entry)).answer }
{
    loc_withheld::withheld_ovf_limit(kind, areas, durable)
}

// Of a paired index. Refuses by 1, 6; 17 for any slot; 21. The lowest record whose span range holds the address, the index of the span in it, and the remainder.
pub fn span_at(areas: Areas, address: u64) -> Result<SpanAt, Refusal>
    ensures { crossing_of result ≡ span_at (seen areas.entry) address }
{
    loc_span_at::windows::span_at(areas, address)
}

// Of a paired index. Refuses by 1, 6; 7, 15; 27, 28, 29; 16. The records that a record needs by pairs of composite and component; the value is how many.
pub fn parts(
    areas: Areas,
    composites: &[u64],
    components: &[u64],
    record: u64,
    answers: &mut [u64],
) -> Result<u64, Refusal>
    ensures { Read (parts composites.now components.now «record» answers.old (seen areas.entry)) (answer_of result) answers.new }
{
    loc_parts::call::parts(areas, composites, components, record, answers)
}
