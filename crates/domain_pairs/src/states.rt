// A domain's mask taken out and put back.
#![tactic(auto, unfolding(crate::specs::Calls::remove_by_mask_of, crate::specs::Calls::save_state_of, crate::specs::Calls::get_mask_of, crate::specs::Calls::restore_mask_of))]

ghost use Rattle.std.specs.Prelude.{◌≡◌};
ghost use Rattle.domain.specs.Calls.{min_universe_of};
ghost use Rattle.domain_pairs.specs.Calls.{without_mask, remove_by_mask_of, get_mask_of, save_state_of, restored, restore_mask_of, restore_state_of};

use super::BitState;
use domain::{BitDomain, Changed, Narrowed, inner};
use mask::Mask;
use rules::{Refusal, Value};

fn without_mask(d: BitDomain, m: Mask) -> Result<(BitDomain, bool), Refusal>
    ensures { result ≡ without_mask d m }
{
    inner::check(d)?;
    let left = mask::minus(d.mask, m);
    Ok((inner::with_mask(d, left), !mask::same(left, d.mask)))
}

// Bits outside the universe do nothing.
pub fn remove_by_mask(d: BitDomain, m: Mask) -> Changed
    ensures { result ≡ remove_by_mask_of d m }
{
    inner::answered(d, without_mask(d, m))
}

pub fn get_mask(d: BitDomain) -> Result<Mask, Refusal>
    ensures { result ≡ get_mask_of d }
{
    inner::check(d)?;
    Ok(d.mask)
}

// The same as `get_mask`, by the Rust's other name.
pub fn current_mask(d: BitDomain) -> Result<Mask, Refusal>
    ensures { result ≡ get_mask_of d }
{
    get_mask(d)
}

// The universe's smallest value.
pub fn get_min_val(d: BitDomain) -> Result<Value, Refusal>
    ensures { result ≡ min_universe_of d }
{
    domain::min_universe_value(d)
}

pub fn save_state(d: BitDomain) -> Result<BitState, Refusal>
    ensures { result ≡ save_state_of d }
{
    inner::check(d)?;
    Ok(BitState {
        mask: d.mask,
        size: mask::count(d.mask),
    })
}

// A mask with a bit outside the universe is refused.
fn restored(d: BitDomain, m: Mask) -> Result<BitDomain, Refusal>
    ensures { result ≡ restored d m }
{
    inner::check(d)?;
    if mask::fits(m, inner::width(d)) {
        return Ok(inner::with_mask(d, m));
    }
    Err(Refusal::BadState)
}

pub fn restore_mask(d: BitDomain, m: Mask) -> Narrowed
    ensures { result ≡ restore_mask_of d m }
{
    inner::narrowed(d, restored(d, m))
}

// The state's mask says all: its size isn't looked at.
pub fn restore_state(d: BitDomain, s: BitState) -> Narrowed
    ensures { result ≡ restore_state_of d s }
{
    restore_mask(d, s.mask)
}
