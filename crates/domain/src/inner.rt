// The work of the calls, without their tests: for callers that know the domain to be well formed.
ghost use Rattle.std.specs.Prelude.{◌≡◌, true, not, ◌&&◌, [], ◌<◌, ltb, pos, ◌+ℤ◌};
ghost use Rattle.rules.specs.Sets.{has, keep};
ghost use Rattle.rules.specs.Board.{leaves, remove, assign, below, above};
ghost use Rattle.mask.specs.Val.{val};
ghost use Rattle.domain.specs.Set.{pair, width, universe, place_in, set_of, holding, well};
ghost use Rattle.domain.specs.Calls.{checked, answered, narrowed, at, first_of, last_of, including};

use super::{Answered, BitDomain, Narrowed};
use mask::Mask;
use rules::{Refusal, Value};

// How many values the universe has.
pub fn width(d: BitDomain) -> usize
    ensures { result ≡ width d }
{
    offset::span(d.min, d.max)
}

// The bounds are one of the two pairs that stand for no universe.
fn is_pair(d: BitDomain) -> bool
    ensures { result ≡ pair d.min d.max }
{
    (d.min == 1 && d.max == 0) || (d.min == 0 && d.max == -1)
}

// Every checked call begins with this, so the usual case comes first: a universe of 1 to 128 values, and a mask that ends by its last.
pub fn is_well(d: BitDomain) -> bool
    ensures { result ≡ well d }
{
    let last = offset::gap(d.max, d.min);
    mask::ends_by(d.mask, last) || (last < 0 && is_pair(d) && mask::is_none(d.mask))
}

// Every checked call begins with this: a domain that isn't well formed is refused.
pub fn check(d: BitDomain) -> Result<(), Refusal>
    ensures { result ≡ checked d }
{
    if is_well(d) {
        return Ok(());
    }
    Err(Refusal::Broken)
}

// A refused call hands the domain back as it came.
pub fn answered<T>(d: BitDomain, done: Result<(BitDomain, T), Refusal>) -> Answered<T>
    ensures { result ≡ answered d done }
{
    match done {
        Ok((domain, answer)) => Answered {
            domain,
            answer: Ok(answer),
        },
        Err(why) => Answered {
            domain: d,
            answer: Err(why),
        },
    }
}

// The same of a call that has nothing else to tell.
pub fn narrowed(d: BitDomain, done: Result<BitDomain, Refusal>) -> Narrowed
    ensures { result ≡ narrowed d done }
{
    answered(d, done.map(|next| (next, ())))
}

// Whether the universe has v.
fn spans(d: BitDomain, v: Value) -> bool
    ensures { result ≡ ltb (place_in d v) (width d) }
{
    offset::is_within(v.0, d.min, d.max)
}

// Where a value of the universe stands.
fn place(d: BitDomain, v: Value) -> usize
    requires { place_in d v < width d }
    ensures { result ≡ place_in d v }
{
    offset::from(v.0, d.min)
}

// The value at an offset of the universe.
pub fn value(d: BitDomain, k: usize) -> Value
    requires { k < width d }
    ensures { result.0 ≡ d.min +ℤ pos k }
{
    Value(offset::value(d.min, k))
}

// The same universe with another mask.
pub fn with_mask(d: BitDomain, m: Mask) -> BitDomain
    ensures { (result.mask ≡ m) × (result.min ≡ d.min) × (result.max ≡ d.max) }
{
    BitDomain { mask: m, ..d }
}

// Whether a value is held.
pub fn holds(d: BitDomain, v: Value) -> bool
    requires { well d ≡ true }
    ensures { result ≡ has v.0 (set_of d) }
{
    spans(d, v) && mask::has(d.mask, place(d, v))
}

// With the value v, where the universe has it.
pub fn including(d: BitDomain, v: Value) -> BitDomain
    requires { well d ≡ true }
    ensures { result ≡ holding d (including d v) }
{
    if spans(d, v) {
        return with_mask(d, mask::with(d.mask, place(d, v)));
    }
    d
}

// What the closings by v leave: all but v; v alone; the values from v on; those up to v.
pub fn without(d: BitDomain, v: Value) -> BitDomain
    requires { well d ≡ true }
    ensures { result ≡ holding d (keep (leaves remove v.0) (set_of d)) }
{
    if spans(d, v) {
        return with_mask(d, mask::without(d.mask, place(d, v)));
    }
    d
}

pub fn only(d: BitDomain, v: Value) -> BitDomain
    requires { well d ≡ true }
    ensures { result ≡ holding d (keep (leaves assign v.0) (set_of d)) }
{
    if spans(d, v) {
        return with_mask(d, mask::and(d.mask, mask::only(place(d, v))));
    }
    with_mask(d, mask::empty())
}

pub fn from(d: BitDomain, v: Value) -> BitDomain
    requires { well d ≡ true }
    ensures { result ≡ holding d (keep (leaves below v.0) (set_of d)) }
{
    let k = offset::below(v.0, d.min, width(d));
    with_mask(d, mask::minus(d.mask, mask::first_n(k)))
}

pub fn upto(d: BitDomain, v: Value) -> BitDomain
    requires { well d ≡ true }
    ensures { result ≡ holding d (keep (leaves above v.0) (set_of d)) }
{
    let k = offset::upto(v.0, d.min, width(d));
    with_mask(d, mask::and(d.mask, mask::first_n(k)))
}

// Whether inserting a value would change the domain: it is in the universe and isn't held.
pub fn admits(d: BitDomain, v: Value) -> bool
    requires { well d ≡ true }
    ensures { result ≡ has v.0 (universe d) && not (has v.0 (set_of d)) }
{
    spans(d, v) && !mask::has(d.mask, place(d, v))
}

// Nothing held.
pub fn emptied(d: BitDomain) -> BitDomain
    ensures { result ≡ holding d [] }
{
    with_mask(d, mask::empty())
}

// The smallest held value.
pub fn smallest(d: BitDomain) -> Value
    requires { (well d ≡ true) × (0 < val d.mask) }
    ensures { at result.0 ≡ first_of (set_of d) }
{
    value(d, mask::lowest(d.mask))
}

// The largest held value.
pub fn largest(d: BitDomain) -> Value
    requires { (well d ≡ true) × (0 < val d.mask) }
    ensures { at result.0 ≡ last_of (set_of d) }
{
    value(d, mask::highest(d.mask))
}
