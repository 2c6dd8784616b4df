// One row closed, for callers that know its domain to be well formed.
ghost use Rattle.std.specs.Prelude.{◌≡◌, true};
ghost use Rattle.closing.specs.Kinds.{kind_of};
ghost use Rattle.domain.specs.Set.{well};
ghost use Rattle.board_close.specs.Close.{left, shut_of};

use super::Shut;
use board::Row;
use closing::Kind;
use domain::BitDomain;
use rules::Value;

// What a closing leaves of a domain.
pub fn narrowed(d: BitDomain, kind: Kind, v: Value) -> BitDomain
    requires { well d ≡ true }
    ensures { result ≡ left (kind_of kind) v.0 d }
{
    match kind {
        Kind::Remove => domain::inner::without(d, v),
        Kind::Assign => domain::inner::only(d, v),
        Kind::Below => domain::inner::from(d, v),
        Kind::Above => domain::inner::upto(d, v),
    }
}

pub fn shut_row(row: Row, kind: Kind, v: Value) -> Shut
    requires { well row.domain ≡ true }
    ensures { result ≡ shut_of (kind_of kind) v.0 row }
{
    let d = row.domain;
    let e = narrowed(d, kind, v);
    let mut next = row;
    next.domain = e;
    Shut {
        row: next,
        yes: !mask::same(e.mask, d.mask),
    }
}
