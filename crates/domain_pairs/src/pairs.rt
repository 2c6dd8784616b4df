// Two domains. Unless both are well formed the call is refused. Bounds that differ are refused where the answer is a set, and are a no where it is
// yes or no.
#![tactic(auto, unfolding(crate::specs::Calls::same_bounds, crate::specs::Calls::intersect_mask_of, crate::specs::Calls::intersect_of, crate::specs::Calls::union_of, crate::specs::Calls::is_subset_of, crate::specs::Calls::equals_of, crate::specs::Calls::union_mask_of))]

ghost use Rattle.std.specs.Prelude.{◌≡◌};
ghost use Rattle.domain_pairs.specs.Calls.{check_both, same_bounds, check_universe, intersect_of, union_of, is_subset_of, equals_of, intersect_mask_of, union_mask_of};

use domain::{BitDomain, Narrowed, inner};
use mask::Mask;
use rules::Refusal;

fn check_both(d: BitDomain, e: BitDomain) -> Result<(), Refusal>
    ensures { result ≡ check_both d e }
{
    inner::check(d)?;
    inner::check(e)
}

fn same_bounds(d: BitDomain, e: BitDomain) -> bool
    ensures { result ≡ same_bounds d e }
{
    d.min == e.min && d.max == e.max
}

// Both are well formed, over one universe.
fn check_universe(d: BitDomain, e: BitDomain) -> Result<(), Refusal>
    ensures { result ≡ check_universe d e }
{
    check_both(d, e)?;
    if same_bounds(d, e) {
        return Ok(());
    }
    Err(Refusal::OtherUniverse)
}

// What both hold, and what they hold together, as a mask over their universe.
fn intersect_mask(d: BitDomain, e: BitDomain) -> Result<Mask, Refusal>
    ensures { result ≡ intersect_mask_of d e }
{
    check_universe(d, e)?;
    Ok(mask::and(d.mask, e.mask))
}

pub fn union_mask(d: BitDomain, e: BitDomain) -> Result<Mask, Refusal>
    ensures { result ≡ union_mask_of d e }
{
    check_universe(d, e)?;
    Ok(mask::or(d.mask, e.mask))
}

pub fn intersect_with(d: BitDomain, e: BitDomain) -> Narrowed
    ensures { result ≡ intersect_of d e }
{
    inner::narrowed(d, intersect_mask(d, e).map(|m| inner::with_mask(d, m)))
}

pub fn union_with(d: BitDomain, e: BitDomain) -> Narrowed
    ensures { result ≡ union_of d e }
{
    inner::narrowed(d, union_mask(d, e).map(|m| inner::with_mask(d, m)))
}

pub fn is_subset_of(d: BitDomain, e: BitDomain) -> Result<bool, Refusal>
    ensures { result ≡ is_subset_of d e }
{
    check_both(d, e)?;
    Ok(same_bounds(d, e) && mask::within(d.mask, e.mask))
}

pub fn equals(d: BitDomain, e: BitDomain) -> Result<bool, Refusal>
    ensures { result ≡ equals_of d e }
{
    check_both(d, e)?;
    Ok(same_bounds(d, e) && mask::same(d.mask, e.mask))
}
