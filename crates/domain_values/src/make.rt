// Domains made from values, in any order and with repeats: the universe goes from the smallest to the largest.
ghost use Rattle.std.specs.Prelude.{◌≡◌, true};
ghost use Rattle.mask.specs.Val.{val};
ghost use Rattle.domain.specs.Set.{bits_of};
ghost use Rattle.domain.specs.Calls.{narrow};
ghost use Rattle.domain_values.specs.Calls.{nothing, within, among, from_values_of, try_from_values_of};

use domain::BitDomain;
use mask::Mask;
use rules::Refusal;

// The domain of no values: no universe.
fn nothing() -> BitDomain
    ensures { result ≡ nothing }
{
    BitDomain {
        mask: mask::empty(),
        min: 0,
        max: -1,
    }
}

// The offsets of the values, which stand from min to max.
fn offsets_of(values: &[i32], min: i32, max: i32) -> Mask
    requires { (narrow min max ≡ true) × (within min max values.now ≡ true) }
    ensures { val result ≡ bits_of min values.now }
{
    let n = offset::span(min, max);
    let mut m = mask::empty();
    for v in values {
        m = mask::with(m, offset::place(*v, min, n));
    }
    m
}

// The universe from the smallest to the largest value, of which these are held.
fn gathered(values: &[i32], min: i32, max: i32) -> BitDomain
    requires { (narrow min max ≡ true) × (within min max values.now ≡ true) }
    ensures { result ≡ among min max values.now }
{
    BitDomain {
        mask: offsets_of(values, min, max),
        min,
        max,
    }
}

pub fn try_new_from_values(values: &[i32]) -> Result<BitDomain, Refusal>
    ensures { result ≡ try_from_values_of values.now }
{
    if values.is_empty() {
        return Ok(nothing());
    }
    let min = ends::smallest(values);
    let max = ends::largest(values);
    if mask::OFFSETS < offset::span(min, max) {
        return Err(Refusal::TooWide);
    }
    Ok(gathered(values, min, max))
}

pub fn new_from_values(values: &[i32]) -> BitDomain
    ensures { result ≡ from_values_of values.now }
{
    try_new_from_values(values).unwrap_or(domain::new_invalid())
}
