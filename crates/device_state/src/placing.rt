ghost use Rattle.std.specs.Prelude.{◌≡◌, ◌+◌, ◌<◌, ◌≤◌, length, vec_len, vec_capacity};
ghost use Rattle.std.specs.Ordering.{nat_cmp};
ghost use Rattle.std.specs.Cmp.Lexicographic.{slice_cmp};
ghost use Rattle.std.specs.List.Sorted.{IsSearchInRange};
ghost use Rattle.device_state.specs.Places.{Ascend, IsPlaceOf, put_by};

use crate::ids::HasId;
use std::cmp::Ordering;

/// The place of the element with this identifier, or where one belongs if there is none.
fn place_of<R: HasId>(rows: &[R], id: &[u8]) -> Result<usize, usize>
    ensures range { IsSearchInRange result (length rows.now) }
    ensures place { Ascend R.id_of rows.now → IsPlaceOf R.id_of rows.now id.now result }
{
    rows.binary_search_by(
        |row: &R| -> Ordering
            ensures { result ≡ slice_cmp nat_cmp (R.id_of row.now) id.entry.now }
        { row.id().cmp(id) },
    )
}

/// Puts an element in the place of that of its identifier, which is dropped, or where it belongs if
/// there is none. There is room for one more, so no memory is taken.
///
/// It takes a search by halves, and moves what stands behind a new one.
pub fn put<R: HasId + Drop>(rows: &mut Vec<R>, row: R)
    requires { vec_len rows.old < vec_capacity rows.old }
    ensures put { Ascend R.id_of rows.old.items → rows.new.items ≡ put_by R.id_of row rows.old.items }
    // They ascend then too.
    ensures ascend { Ascend R.id_of rows.old.items → Ascend R.id_of rows.new.items }
    // One more at most, and as much room as before.
    ensures len { vec_len rows.new ≤ vec_len rows.old + 1 }
    ensures room { vec_capacity rows.old ≤ vec_capacity rows.new }
{
    match place_of(rows.as_slice(), row.id()) {
        Ok(at) => rows[at] = row,
        Err(at) => {
            let Ok(()) = rows.insert(at, row) else {
                unreachable!()
            };
        }
    }
}
