// What a program prints after a call: the listing of the index as the call left it, or the line of the refusal alone.
// The areas come back as the call left them.
ghost use Rattle.std.specs.Prelude.{◌≡◌, ◌≤◌, length};
ghost use Rattle.loc_leaf.specs.declared.Kind.TheVariants.{Paired};
ghost use Rattle.loc_calls.specs.Lent.{held, SameLenders};
ghost use Rattle.loc_calls.specs.Table.{opening};
ghost use Rattle.loc_calls.specs.Calls.{call, create};
ghost use Rattle.loc_parse.specs.Import.{append_listing};
ghost use Rattle.loc_listing.specs.Text.{Put};
ghost use Rattle.loc_print.specs.Printed.{shown};

use crate::listing::listing_text;
use loc_calls::AreasMut;
use loc_index::{append_listing, create, open};
use loc_leaf::Kind;
use loc_listing::refused_text;

// The index opened, and its listing.
pub fn open_text(areas: &mut AreasMut, out: &mut [u8]) -> usize
    ensures { (held areas.new ≡ (call Paired 6 opening (held areas.old)).areas)
        × Put out.old 0 (shown (call Paired 6 opening (held areas.old)) (length out.old)) out.new result
        × (result ≤ length out.old) × SameLenders areas.old areas.new }
{
    match open(Kind::Paired, areas) {
        Ok(_) => listing_text(areas.shared(), out),
        Err(refusal) => refused_text(u64::from(refusal), out),
    }
}

// A listing appended to the areas made anew, and the listing of what they then hold.
pub fn import_text(text: &[u8], areas: &mut AreasMut, out: &mut [u8]) -> usize
    ensures { (held areas.new ≡ (append_listing 4 text.now (create (held areas.old)).areas).areas)
        × Put out.old 0 (shown (append_listing 4 text.now (create (held areas.old)).areas) (length out.old)) out.new result
        × (result ≤ length out.old) × SameLenders areas.old areas.new }
{
    // where areas cannot be made, none can be appended to: the append then refuses by the same number
    let _ = create(areas);
    match append_listing(areas, text) {
        Ok(_) => listing_text(areas.shared(), out),
        Err(refusal) => refused_text(u64::from(refusal), out),
    }
}
