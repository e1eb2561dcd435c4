ghost use Rattle.std.specs.Prelude.{◌≤◌, length};
ghost use Rattle.lytab_c.specs.Block.{IsPut};

/// Writes items to the start of a block that is long enough.
pub(crate) fn put<T: Copy>(items: &[T], block: &mut [T])
    requires { length items.now ≤ length block.old }
    ensures { IsPut items.now block.old block.new }
{
    block[..items.len()].copy_from_slice(items);
}
