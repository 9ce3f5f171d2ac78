//! Growth of the room for values, up to a bound.

ghost use Rattle.std.specs.Prelude.{◌≡◌, ◌+◌, ◌<◌, ◌≤◌, max, vec_len, vec_capacity};
ghost use Rattle.std.specs.Bool.{OnTrue, OnFalse};

/// Grows the room twofold, so that growth is rare, but never past the most values and one place more.
#[inline(never)]
fn grow(values: &mut Vec<u64>, more: usize, most: usize) -> bool
    requires { vec_capacity values.old < vec_len values.old + more }
    ensures made { OnTrue result (vec_len values.new + more ≤ vec_capacity values.new) }
    ensures refused { OnFalse result (vec_capacity values.new < vec_len values.new + more) }
    ensures items { values.new.items ≡ values.old.items }
    ensures len { vec_len values.new ≡ vec_len values.old }
    ensures room { vec_capacity values.old ≤ vec_capacity values.new }
    ensures bound { vec_capacity values.new ≤ max (vec_capacity values.old) (most + 1) }
{
    let len = values.len();
    // One place is always spare.
    let limit = most.saturating_add(1);
    let Some(wanted) = len.checked_add(more) else {
        return false;
    };
    if wanted > limit {
        return false;
    }
    let twice = values.capacity().saturating_mul(2).min(limit);
    values.reserve_exact(twice.max(wanted) - len).is_ok()
}

/// Makes room for this many places more, of which one stays spare, if there are no more than the most values then.
#[inline(always)]
pub fn reserve_within(values: &mut Vec<u64>, more: usize, most: usize) -> bool
    ensures made { OnTrue result (vec_len values.new + more ≤ vec_capacity values.new) }
    ensures refused { OnFalse result (vec_capacity values.new < vec_len values.new + more) }
    ensures items { values.new.items ≡ values.old.items }
    ensures len { vec_len values.new ≡ vec_len values.old }
    ensures room { vec_capacity values.old ≤ vec_capacity values.new }
    ensures bound { vec_capacity values.new ≤ max (vec_capacity values.old) (most + 1) }
{
    more <= values.capacity() - values.len() || grow(values, more, most)
}
