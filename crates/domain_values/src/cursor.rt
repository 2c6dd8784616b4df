// A walk over the values of a domain, ascending.
#![tactic(auto, unfolding(crate::specs::Calls::iter_of, crate::specs::Calls::next_of, crate::specs::Calls::left_of))]

ghost use Rattle.std.specs.Prelude.{◌≡◌};
ghost use Rattle.domain_values.specs.Calls.{well_cursor, iter_of, next_of, left_of};

use super::{BitCursor, Stepped};
use domain::{BitDomain, inner};
use rules::{Refusal, Value};

// The greatest i32, and the greatest start of a universe from which every mask's values lie within i32.
const LAST: i32 = i32::MAX;

const ROOMY: i32 = LAST - 127;

fn is_well(c: BitCursor) -> bool
    ensures { result ≡ well_cursor c }
{
    c.min <= ROOMY || mask::fits(c.mask, offset::span(c.min, LAST))
}

pub fn iter(d: BitDomain) -> Result<BitCursor, Refusal>
    ensures { result ≡ iter_of d }
{
    inner::check(d)?;
    Ok(BitCursor {
        mask: d.mask,
        min: d.min,
    })
}

pub fn next(c: BitCursor) -> Stepped
    ensures { result ≡ next_of c }
{
    if !is_well(c) {
        return Stepped {
            cursor: c,
            answer: Err(Refusal::Broken),
        };
    }
    if mask::is_none(c.mask) {
        return Stepped {
            cursor: c,
            answer: Ok(None),
        };
    }
    let value = Value(offset::value(c.min, mask::lowest(c.mask)));
    let mask = mask::rest(c.mask);
    Stepped {
        cursor: BitCursor { mask, ..c },
        answer: Ok(Some(value)),
    }
}

// How many values are still to come.
pub fn left(c: BitCursor) -> Result<usize, Refusal>
    ensures { result ≡ left_of c }
{
    if !is_well(c) {
        return Err(Refusal::Broken);
    }
    Ok(mask::count(c.mask))
}
