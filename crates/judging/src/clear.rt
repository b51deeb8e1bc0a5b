// Clearing a lent slice.
ghost use Rattle.std.specs.Prelude.{◌≡◌, length, replicate};

// Every cell becomes 0.
pub(crate) fn clear(cells: &mut [u32])
    ensures { cells.new ≡ replicate (length cells.old) 0 }
{
    cells.fill(0);
}
