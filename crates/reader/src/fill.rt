// Rows of a file, written into the tables that a caller hands.
ghost use Rattle.std.specs.Prelude.{◌≤◌, length};
ghost use Rattle.rows.specs.Files.{rows_in};
ghost use Rattle.reader.specs.Filling.{Begins, Records};

use crate::bytes::{Row, count, nth_row};

// Writes the rows of a part into the front of a table. The other rows stay.
pub(crate) fn fill<R: Row>(part: &[u8], table: &mut [R])
    requires { Records R.Row.SIZE part.now
        × (length (rows_in R.Row.parsed R.Row.SIZE part.now) ≤ length table.old) }
    ensures { let rows = rows_in R.Row.parsed R.Row.SIZE part.now in
        Begins R.Row.written part.now rows table.old table.new }
{
    for (i, row) in table[..count::<R>(part)].iter_mut().enumerate() {
        *row = nth_row(part, i);
    }
}
