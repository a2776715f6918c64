// Elements copied from one slice over another, as far as both reach.
// A loop: the library's copy would need `memmove` from outside where the calls are linked.
ghost use Rattle.std.specs.Prelude.{◌≡◌};
ghost use Rattle.loc_leaf.specs.Slices.{copied};

pub fn copy<T: Copy>(src: &[T], out: &mut [T])
    ensures { out.new ≡ copied src.now out.old }
{
    for i in 0..src.len().min(out.len()) {
        out[i] = src[i];
    }
}
