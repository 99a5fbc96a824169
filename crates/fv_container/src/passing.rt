//! Rows of which few elements are wanted, as marks that are set and places that are there: the others are passed over many at once.

ghost use Rattle.std.specs.Prelude.{◌≡◌, ◌≢◌, ◌<◌, ◌≤◌, ℕ, true, false, length, get_or};
ghost use Rattle.fv_container.specs.Passing.{IsAll};

/// How many are passed over at once.
const MANY: usize = 64;

/// Whether a row has one value from a number on, up to another one. It compares all of them, so that the compiler compares several at once.
fn is_all<T: Copy + PartialEq>(row: &[T], value: T, from: usize, end: usize) -> bool
    requires { end ≤ length row.now }
    ensures { result ≡ true → IsAll T.eq row.now value from end }
{
    let mut same = true;
    for k in from..end {
        if row[k] != value {
            same = false;
        }
    }
    same
}

/// A number from one on, up to an end, such that a row has one value in between; many are passed over at once.
fn pass_many<T: Copy + PartialEq>(row: &[T], value: T, from: usize, end: usize) -> usize
    requires ordered { from ≤ end }
    requires within { end ≤ length row.now }
    ensures least { from ≤ result }
    ensures most { result ≤ end }
    ensures passed { IsAll T.eq row.now value from result }
{
    let mut n = from;
    while MANY <= end - n && is_all(row, value, n, n + MANY) {
        n += MANY;
    }
    n
}

/// The least number from one on at which a row has another value, or the end where there is none before it. Costs a step for each number
/// that is passed, of which the compiler compares several at once.
fn next_other<T: Copy + PartialEq>(row: &[T], value: T, from: usize, end: usize) -> usize
    requires ordered { from ≤ end }
    requires within { end ≤ length row.now }
    ensures least { from ≤ result }
    ensures most { result ≤ end }
    ensures passed { IsAll T.eq row.now value from result }
    ensures other { result < end → T.eq (get_or row.now result value) value ≡ false }
{
    for n in pass_many(row, value, from, end)..end {
        if row[n] != value {
            return n;
        }
    }
    end
}

/// The number of the first mark that is set from a number on, or the end where there is none before it.
pub(crate) fn next_mark(marks: &[bool], from: usize, end: usize) -> usize
    requires ordered { from ≤ end }
    requires within { end ≤ length marks.now }
    ensures least { from ≤ result }
    ensures most { result ≤ end }
    ensures clear { (k : ℕ) → from ≤ k → k < result → get_or marks.now k true ≡ false }
    ensures set { result < end → get_or marks.now result false ≡ true }
{
    next_other(marks, false, from, end)
}

/// The number of the first place of a row from a number on, or the row's length where there is none; 0 is none.
pub(crate) fn next_place(places: &[u32], from: usize) -> usize
    requires { from ≤ length places.now }
    ensures least { from ≤ result }
    ensures most { result ≤ length places.now }
    ensures bare { (k : ℕ) → from ≤ k → k < result → get_or places.now k 0 ≡ 0 }
    ensures some { result < length places.now → get_or places.now result 0 ≢ 0 }
{
    next_other(places, 0, from, places.len())
}
