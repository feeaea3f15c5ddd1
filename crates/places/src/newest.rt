// Lists that hold only the newest.
ghost use Rattle.std.specs.Prelude.{◌≡◌, ◌-◌, ◌<◌, [], ◌∷◌, ◌++◌, take};

use arrayvec::ArrayVec;
use std::mem;

// The items move up by one behind a new first; returns the one that was last.
// By swaps: of the library's `insert` into a list of any length, the compiler keeps a turn through room on the stack.
fn move_up<T>(items: &mut [T], first: T) -> T
    ensures { items.new ++ result ∷ [] ≡ first ∷ items.old }
{
    let mut next = first;
    for item in items.iter_mut() {
        mem::swap(item, &mut next);
    }
    next
}

// One more stands first; the last of more than `N` is dropped.
pub fn put_newest<T: Default + Drop, const N: usize>(kept: &mut ArrayVec<T, N>, newest: T)
    requires { 0 < N }
    ensures { kept.new.items ≡ newest ∷ take (N - 1) kept.old.items }
{
    kept.truncate(N - 1);
    let last = move_up(kept.as_mut_slice(), newest);
    kept.push(last);
}
