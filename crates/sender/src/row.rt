//! Rows of values.
ghost use Rattle.std.specs.Prelude.{◌≡◌, slice_set};

/// Puts an item at a place of a row; behind the row nothing happens.
pub(crate) fn put<T: Copy>(row: &mut [T], at: usize, item: T)
    ensures { row.new ≡ slice_set row.old at item }
{
    // By its place: what `get_mut` leaves of the other items is not known afterwards.
    if at < row.len() {
        row[at] = item;
    }
}
