// Audit: 1, then 6; then 1 where the index is sound, and 0 where it is not.
// The pass goes over the records once, and with them over the rows and the checkpoints.
ghost use Rattle.std.specs.Prelude.{◌≡◌};
ghost use Rattle.loc_leaf.specs.Answers.{answer_of};
ghost use Rattle.loc_leaf.specs.Area.{fill};
ghost use Rattle.loc_calls.specs.Lent.{seen};
ghost use Rattle.loc_calls.specs.Audit.{sound};
ghost use Rattle.loc_calls.specs.Calls.{audit};
ghost use Rattle.loc_audit.specs.Pass.{Auditable};

use crate::Ends;
use crate::pass::{ends_after, own_value};
use loc_calls::Areas;
use loc_leaf::Kind;
use loc_leaf::delta_loc::row_width;
use loc_leaf::file::{FILE_HEADER_LEN, logical_len};
use loc_leaf::refusal::Refusal;
use loc_rows::RowReader;
use loc_store::check::check_areas;

// Whether areas that publish `count` records are sound. The reader goes along: it stands at the first row numbered above the record before,
// and the row at its place is carried too, so each row is read once.
fn areas_sound(kind: Kind, a: Areas, count: u64) -> bool
    requires { Auditable kind (seen a) × (count ≡ fill 2 a.slots.now) }
    ensures { result ≡ sound kind (seen a.entry) }
{
    let end = logical_len(a.rows);
    let mut r = RowReader::new(&a.rows[..end], FILE_HEADER_LEN, row_width(kind));
    let mut row = r.here();
    let mut ends = Ends { body: 16, span: 16 };
    for n in 0..count {
        let own = own_value(row, n + 1);
        let Some(after) = ends_after(kind, a, n + 1, own, ends) else {
            return false;
        };
        ends = after;
        if own.is_some() {
            r = r.onward();
            row = r.here();
        }
    }
    row.is_none()
}

pub fn audit_areas(kind: Kind, a: Areas) -> Result<u64, Refusal>
    ensures { answer_of result ≡ (audit kind (seen a.entry)).answer }
{
    let found = check_areas(kind, a)?;
    Ok(u64::from(areas_sound(kind, a, found.count)))
}
