// Questions. A domain that isn't well formed is refused.
#![tactic(auto, unfolding(crate::specs::Calls::is_invalid_of, crate::specs::Calls::contains_of, crate::specs::Calls::size_of, crate::specs::Calls::is_empty_of, crate::specs::Calls::is_fixed_of, crate::specs::Calls::fixed_value_of, crate::specs::Calls::min_of, crate::specs::Calls::max_of, crate::specs::Calls::universe_size_of, crate::specs::Calls::min_universe_of, crate::specs::Calls::max_universe_of))]

ghost use Rattle.std.specs.Prelude.{◌≡◌};
ghost use Rattle.domain.specs.Calls.{is_invalid_of, contains_of, size_of, is_empty_of, is_fixed_of, fixed_value_of, min_of, max_of, universe_size_of, min_universe_of, max_universe_of};

use super::{BitDomain, inner};
use rules::{Refusal, Value};

pub fn is_invalid(d: BitDomain) -> Result<bool, Refusal>
    ensures { result ≡ is_invalid_of d }
{
    inner::check(d)?;
    Ok(d.max < d.min)
}

pub fn contains(d: BitDomain, v: Value) -> Result<bool, Refusal>
    ensures { result ≡ contains_of d v }
{
    inner::check(d)?;
    Ok(inner::holds(d, v))
}

pub fn size(d: BitDomain) -> Result<usize, Refusal>
    ensures { result ≡ size_of d }
{
    inner::check(d)?;
    Ok(mask::count(d.mask))
}

pub fn is_empty(d: BitDomain) -> Result<bool, Refusal>
    ensures { result ≡ is_empty_of d }
{
    inner::check(d)?;
    Ok(mask::is_none(d.mask))
}

pub fn is_fixed(d: BitDomain) -> Result<bool, Refusal>
    ensures { result ≡ is_fixed_of d }
{
    inner::check(d)?;
    Ok(mask::is_one(d.mask))
}

pub fn fixed_value(d: BitDomain) -> Result<Value, Refusal>
    ensures { result ≡ fixed_value_of d }
{
    inner::check(d)?;
    if !mask::is_one(d.mask) {
        return Err(Refusal::Empty);
    }
    Ok(inner::smallest(d))
}

pub fn min(d: BitDomain) -> Result<Value, Refusal>
    ensures { result ≡ min_of d }
{
    inner::check(d)?;
    if mask::is_none(d.mask) {
        return Err(Refusal::Empty);
    }
    Ok(inner::smallest(d))
}

pub fn max(d: BitDomain) -> Result<Value, Refusal>
    ensures { result ≡ max_of d }
{
    inner::check(d)?;
    if mask::is_none(d.mask) {
        return Err(Refusal::Empty);
    }
    Ok(inner::largest(d))
}

// The same as `min`, by the Rust's other name.
pub fn first(d: BitDomain) -> Result<Value, Refusal>
    ensures { result ≡ min_of d }
{
    min(d)
}

// The same as `max`.
pub fn last(d: BitDomain) -> Result<Value, Refusal>
    ensures { result ≡ max_of d }
{
    max(d)
}

pub fn universe_size(d: BitDomain) -> Result<usize, Refusal>
    ensures { result ≡ universe_size_of d }
{
    inner::check(d)?;
    Ok(inner::width(d))
}

pub fn min_universe_value(d: BitDomain) -> Result<Value, Refusal>
    ensures { result ≡ min_universe_of d }
{
    inner::check(d)?;
    Ok(Value(d.min))
}

pub fn max_universe_value(d: BitDomain) -> Result<Value, Refusal>
    ensures { result ≡ max_universe_of d }
{
    inner::check(d)?;
    Ok(Value(d.max))
}
