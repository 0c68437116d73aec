ghost use Rattle.std.specs.Prelude.{◌≡◌, slice_set};

/// Writes at a place; past the end nothing changes.
pub fn poke<T: Copy>(xs: &mut [T], at: usize, value: T)
    ensures { xs.new ≡ slice_set xs.old at value }
{
    // By index: after a write through `get_mut` a proof knows a slice's length alone.
    if at < xs.len() {
        xs[at] = value;
    }
}
