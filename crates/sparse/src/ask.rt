// Questions. A set that isn't well formed is refused.
#![tactic(auto, unfolding(crate::specs::Calls::size_of, crate::specs::Calls::is_empty_of, crate::specs::Calls::is_fixed_of, crate::specs::Calls::contains_of, crate::specs::Calls::min_of, crate::specs::Calls::max_of, crate::specs::Calls::first_of, crate::specs::Calls::last_of, crate::specs::Calls::universe_size_of, crate::specs::Calls::min_universe_of, crate::specs::Calls::max_universe_of, crate::specs::Calls::complement_size_of, crate::specs::Calls::use_complement_of, crate::specs::Calls::save_of, sparse_inner::specs::Set::is_held))]

ghost use Rattle.std.specs.Prelude.{◌≡◌};
ghost use Rattle.sparse_inner.specs.Set.{full};
ghost use Rattle.sparse.specs.Calls.{size_of, is_empty_of, is_fixed_of, contains_of, min_of, max_of, first_of, last_of, universe_size_of, min_universe_of, max_universe_of, complement_size_of, use_complement_of, save_of};

use rules::{Refusal, Value};
use sparse_inner::{Sparse, SparseState, granted};

pub fn size(s: Sparse, ind: &[u32], val: &[u32]) -> Result<usize, Refusal>
    ensures { result ≡ size_of (full s ind.now val.now) }
{
    sparse_inner::check(s, ind, val)?;
    Ok(s.size as usize)
}

pub fn is_empty(s: Sparse, ind: &[u32], val: &[u32]) -> Result<bool, Refusal>
    ensures { result ≡ is_empty_of (full s ind.now val.now) }
{
    sparse_inner::check(s, ind, val)?;
    Ok(s.size == 0)
}

pub fn is_fixed(s: Sparse, ind: &[u32], val: &[u32]) -> Result<bool, Refusal>
    ensures { result ≡ is_fixed_of (full s ind.now val.now) }
{
    sparse_inner::check(s, ind, val)?;
    Ok(s.size == 1)
}

pub fn contains(s: Sparse, ind: &[u32], val: &[u32], v: Value) -> Result<bool, Refusal>
    ensures { result ≡ contains_of (full s ind.now val.now) v }
{
    sparse_inner::check(s, ind, val)?;
    Ok(sparse_inner::has(s, ind, v))
}

pub fn min(s: Sparse, ind: &[u32], val: &[u32]) -> Result<Value, Refusal>
    ensures { result ≡ min_of (full s ind.now val.now) }
{
    sparse_inner::check(s, ind, val)?;
    granted(s.size != 0, Refusal::Empty)?;
    Ok(sparse_inner::value(s, s.min))
}

pub fn max(s: Sparse, ind: &[u32], val: &[u32]) -> Result<Value, Refusal>
    ensures { result ≡ max_of (full s ind.now val.now) }
{
    sparse_inner::check(s, ind, val)?;
    granted(s.size != 0, Refusal::Empty)?;
    Ok(sparse_inner::value(s, s.max))
}

// The value in the first held cell.
pub fn first(s: Sparse, ind: &[u32], val: &[u32]) -> Result<Value, Refusal>
    ensures { result ≡ first_of (full s ind.now val.now) }
{
    sparse_inner::check(s, ind, val)?;
    granted(s.size != 0, Refusal::Empty)?;
    Ok(sparse_inner::value(s, val[0]))
}

// The value in the last.
pub fn last(s: Sparse, ind: &[u32], val: &[u32]) -> Result<Value, Refusal>
    ensures { result ≡ last_of (full s ind.now val.now) }
{
    sparse_inner::check(s, ind, val)?;
    granted(s.size != 0, Refusal::Empty)?;
    Ok(sparse_inner::value(s, val[s.size as usize - 1]))
}

pub fn universe_size(s: Sparse, ind: &[u32], val: &[u32]) -> Result<usize, Refusal>
    ensures { result ≡ universe_size_of (full s ind.now val.now) }
{
    sparse_inner::check(s, ind, val)?;
    Ok(s.n as usize)
}

pub fn min_universe_value(s: Sparse, ind: &[u32], val: &[u32]) -> Result<Value, Refusal>
    ensures { result ≡ min_universe_of (full s ind.now val.now) }
{
    sparse_inner::check(s, ind, val)?;
    Ok(Value(s.off))
}

pub fn max_universe_value(s: Sparse, ind: &[u32], val: &[u32]) -> Result<Value, Refusal>
    ensures { result ≡ max_universe_of (full s ind.now val.now) }
{
    sparse_inner::check(s, ind, val)?;
    granted(s.n != 0, Refusal::Empty)?;
    Ok(sparse_inner::value(s, s.n - 1))
}

// How many values of the universe are not held.
pub fn complement_size(s: Sparse, ind: &[u32], val: &[u32]) -> Result<usize, Refusal>
    ensures { result ≡ complement_size_of (full s ind.now val.now) }
{
    sparse_inner::check(s, ind, val)?;
    Ok((s.n - s.size) as usize)
}

// Whether these are fewer than half of those that are.
pub fn should_use_complement(s: Sparse, ind: &[u32], val: &[u32]) -> Result<bool, Refusal>
    ensures { result ≡ use_complement_of (full s ind.now val.now) }
{
    sparse_inner::check(s, ind, val)?;
    Ok(s.n - s.size < s.size / 2)
}

pub fn save_state(s: Sparse, ind: &[u32], val: &[u32]) -> Result<SparseState, Refusal>
    ensures { result ≡ save_of (full s ind.now val.now) }
{
    sparse_inner::check(s, ind, val)?;
    Ok(sparse_inner::state(s))
}

// The same as `size`, by the Rust's other name.
pub fn current_size(s: Sparse, ind: &[u32], val: &[u32]) -> Result<usize, Refusal>
    ensures { result ≡ size_of (full s ind.now val.now) }
{
    size(s, ind, val)
}
