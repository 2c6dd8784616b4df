// The calls that make a domain. None is given one, so none refuses it; only the `try_` forms refuse, a universe that is too wide.
#![tactic(auto, unfolding(crate::specs::Calls::new_of, crate::specs::Calls::between_of, crate::specs::Calls::try_between_of, crate::specs::Calls::try_new_of))]

ghost use Rattle.std.specs.Prelude.{◌≡◌, true, false};
ghost use Rattle.domain.specs.Calls.{invalid, narrow, filled, try_between_of, new_of, try_new_of};

use super::BitDomain;
use rules::{Refusal, Value};

pub fn new_invalid() -> BitDomain
    ensures { result ≡ invalid }
{
    BitDomain {
        mask: mask::empty(),
        min: 1,
        max: 0,
    }
}

// Whether a universe has few enough values for a mask.
fn is_narrow(min: i32, max: i32) -> bool
    ensures { result ≡ narrow min max }
{
    offset::span(min, max) <= mask::OFFSETS
}

// A universe of which all is held.
fn full(min: i32, max: i32) -> BitDomain
    requires { narrow min max ≡ true }
    ensures { result ≡ filled true min max }
{
    BitDomain {
        mask: mask::first_n(offset::span(min, max)),
        min,
        max,
    }
}

// A universe of which nothing is held.
fn bare(min: i32, max: i32) -> BitDomain
    ensures { result ≡ filled false min max }
{
    BitDomain {
        mask: mask::empty(),
        min,
        max,
    }
}

// A universe from min to max, all held or nothing, where it is narrow enough.
fn try_between(all: bool, min: i32, max: i32) -> Result<BitDomain, Refusal>
    ensures { result ≡ try_between_of all min max }
{
    if !is_narrow(min, max) {
        return Err(Refusal::TooWide);
    }
    Ok(if all { full(min, max) } else { bare(min, max) })
}

// The bounds in either order.
fn try_new_of(all: bool, a: Value, b: Value) -> Result<BitDomain, Refusal>
    ensures { result ≡ try_new_of all a b }
{
    if b.0 < a.0 {
        return try_between(all, b.0, a.0);
    }
    try_between(all, a.0, b.0)
}

pub fn new(a: Value, b: Value) -> BitDomain
    ensures { result ≡ new_of true a b }
{
    try_new(a, b).unwrap_or(new_invalid())
}

pub fn new_empty(a: Value, b: Value) -> BitDomain
    ensures { result ≡ new_of false a b }
{
    try_new_empty(a, b).unwrap_or(new_invalid())
}

pub fn try_new(a: Value, b: Value) -> Result<BitDomain, Refusal>
    ensures { result ≡ try_new_of true a b }
{
    try_new_of(true, a, b)
}

pub fn try_new_empty(a: Value, b: Value) -> Result<BitDomain, Refusal>
    ensures { result ≡ try_new_of false a b }
{
    try_new_of(false, a, b)
}
