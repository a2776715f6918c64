// The public calls that store at several places: each is made whole, or as its run at so many of them.
// How many places a call has stands in document 01.
use loc_calls::{AreasMut, Batch};
use loc_leaf::Kind;
use loc_leaf::refusal::Refusal;

pub fn open(kind: Kind, areas: &mut AreasMut, places: Option<u64>) -> Result<u64, Refusal> {
    match places {
        None => loc_index::open(kind, areas),
        Some(n) => loc_index::open_run(kind, areas, n),
    }
}

pub fn append(
    kind: Kind,
    areas: &mut AreasMut,
    batch: Batch,
    places: Option<u64>,
) -> Result<u64, Refusal> {
    match places {
        None => loc_index::append(kind, areas, batch),
        Some(n) => loc_index::append_run(kind, areas, batch, n),
    }
}

// A listing, which the paired kind alone takes.
pub fn append_listing(
    areas: &mut AreasMut,
    text: &[u8],
    places: Option<u64>,
) -> Result<u64, Refusal> {
    match places {
        None => loc_index::append_listing(areas, text),
        Some(n) => loc_index::append_listing_run(areas, text, n),
    }
}

pub fn truncate(
    kind: Kind,
    areas: &mut AreasMut,
    count: u64,
    places: Option<u64>,
) -> Result<u64, Refusal> {
    match places {
        None => loc_index::truncate_to_count(kind, areas, count),
        Some(n) => loc_index::truncate_to_count_run(kind, areas, count, n),
    }
}
