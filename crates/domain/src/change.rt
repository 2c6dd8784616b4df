// The calls that change a domain. One that isn't well formed is refused and handed back as it came.
#![tactic(auto, unfolding(crate::specs::Calls::insert_of, crate::specs::Calls::remove_of, crate::specs::Calls::remove_all_of, crate::specs::Calls::close_of))]

ghost use Rattle.std.specs.Prelude.{◌≡◌};
ghost use Rattle.rules.specs.Board.{assign, below, above};
ghost use Rattle.domain.specs.Calls.{insert_of, remove_of, remove_all_of, close_of};

use super::{BitDomain, Changed, Narrowed, inner};
use rules::Value;

pub fn insert(d: BitDomain, v: Value) -> Changed
    ensures { result ≡ insert_of d v }
{
    let done = inner::check(d).map(|()| (inner::including(d, v), inner::admits(d, v)));
    inner::answered(d, done)
}

pub fn remove(d: BitDomain, v: Value) -> Changed
    ensures { result ≡ remove_of d v }
{
    let done = inner::check(d).map(|()| (inner::without(d, v), inner::holds(d, v)));
    inner::answered(d, done)
}

pub fn remove_all(d: BitDomain) -> Narrowed
    ensures { result ≡ remove_all_of d }
{
    inner::narrowed(d, inner::check(d).map(|()| inner::emptied(d)))
}

pub fn remove_all_but(d: BitDomain, v: Value) -> Narrowed
    ensures { result ≡ close_of assign d v }
{
    inner::narrowed(d, inner::check(d).map(|()| inner::only(d, v)))
}

pub fn remove_below(d: BitDomain, v: Value) -> Narrowed
    ensures { result ≡ close_of below d v }
{
    inner::narrowed(d, inner::check(d).map(|()| inner::from(d, v)))
}

pub fn remove_above(d: BitDomain, v: Value) -> Narrowed
    ensures { result ≡ close_of above d v }
{
    inner::narrowed(d, inner::check(d).map(|()| inner::upto(d, v)))
}
