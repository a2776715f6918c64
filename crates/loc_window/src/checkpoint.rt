// Where a window begins in each stream.
// Its checkpoint is read in place.
ghost use Rattle.std.specs.Prelude.{◌≡◌, ◌+◌, ◌^◌, ◌<◌, ◌≤◌};
ghost use Rattle.loc_leaf.specs.Bytes.{Bytes};
ghost use Rattle.loc_leaf.specs.Kind.{checkpoint_width};
ghost use Rattle.loc_calls.specs.Areas.{areas};
ghost use Rattle.loc_calls.specs.Reading.{window_end};

use loc_leaf::Kind;
use loc_leaf::delta_loc::checkpoint_width;
use loc_leaf::file::{FILE_HEADER_LEN, u64_at};

// Where the bodies of a window begin, or at 8 its spans: 16 in window 0, else as its checkpoint says.
pub fn window_end(kind: Kind, checkpoints: &[u8], at: usize, w: u64) -> u64
    requires { (at ≤ 8) × (w < 2 ^ 56) }
    ensures { (s t : Bytes) → at + 8 ≤ checkpoint_width kind → result ≡ window_end kind (areas s t checkpoints.now) at w }
{
    if w == 0 {
        return 16;
    }
    let width = checkpoint_width(kind);
    u64_at(checkpoints, FILE_HEADER_LEN + width * (w - 1) as usize + at)
}
