// What a record leaves and answers, by its call.
ghost use Rattle.std.specs.Prelude.{◌<◌};

use super::call::Call;
use domain::{BitDomain, Changed, Narrowed};
use mask::Mask;
use probe_parts::record::Record;
use probe_parts::regs::{CURSORS, Register, Registers, STATES};
use probe_parts::reply;
use probe_parts::turn::{Turn, after, made, stepped};
use probe_parts::wire::bits;
use rules::Value;

fn changed(c: Changed) -> Turn {
    after(c.domain.into(), c.answer.into())
}

fn narrowed(n: Narrowed) -> Turn {
    after(n.domain.into(), n.answer.into())
}

fn plain(d: BitDomain) -> Turn {
    after(d.into(), reply::none())
}

// A register of a record's own numbers, well formed or not.
pub fn raw(r: Record, bounds: u64) -> Register {
    Register {
        lo: r.lo,
        hi: r.hi,
        bounds,
    }
}

// The listed values from place b up to place b + n.
fn listed(r: Record, regs: &Registers) -> &[i32]
    requires { r.b < 8 }
{
    let end = r.b + r.n.min(152);
    &regs.values[r.b..end]
}

// What is left of domain a. The calls that it doesn't name are on cursors.
pub fn on_domain(call: Call, r: Record, regs: &Registers) -> Turn
    requires { (r.a < 8) × (r.b < 8) }
{
    let old = regs.get(r.a);
    let d = BitDomain::from(old);
    let other = BitDomain::from(regs.get(r.b));
    let state = regs.get(STATES + r.b).into();
    let v = Value(r.v);
    let w = Value(r.w);
    let m = Mask { lo: r.lo, hi: r.hi };
    match call {
        Call::SetDomain => after(raw(r, bits(r.v) | (bits(r.w) << 32)), reply::none()),
        Call::New => plain(domain::new(v, w)),
        Call::NewEmpty => plain(domain::new_empty(v, w)),
        Call::NewInvalid => plain(domain::new_invalid()),
        Call::TryNew => made(domain::try_new(v, w), old),
        Call::TryNewEmpty => made(domain::try_new_empty(v, w), old),
        Call::Copied => plain(other),
        Call::NewFromValues => plain(domain_values::new_from_values(listed(r, regs))),
        Call::TryNewFromValues => made(domain_values::try_new_from_values(listed(r, regs)), old),
        Call::IsInvalid => after(old, domain::is_invalid(d).into()),
        Call::Contains => after(old, domain::contains(d, v).into()),
        Call::Size => after(old, domain::size(d).into()),
        Call::IsEmpty => after(old, domain::is_empty(d).into()),
        Call::IsFixed => after(old, domain::is_fixed(d).into()),
        Call::FixedValue => after(old, domain::fixed_value(d).into()),
        Call::Min => after(old, domain::min(d).into()),
        Call::Max => after(old, domain::max(d).into()),
        Call::First => after(old, domain::first(d).into()),
        Call::Last => after(old, domain::last(d).into()),
        Call::UniverseSize => after(old, domain::universe_size(d).into()),
        Call::MinUniverseValue => after(old, domain::min_universe_value(d).into()),
        Call::MaxUniverseValue => after(old, domain::max_universe_value(d).into()),
        Call::Insert => changed(domain::insert(d, v)),
        Call::Remove => changed(domain::remove(d, v)),
        Call::RemoveAll => narrowed(domain::remove_all(d)),
        Call::RemoveAllBut => narrowed(domain::remove_all_but(d, v)),
        Call::RemoveBelow => narrowed(domain::remove_below(d, v)),
        Call::RemoveAbove => narrowed(domain::remove_above(d, v)),
        Call::IntersectWith => narrowed(domain_pairs::intersect_with(d, other)),
        Call::UnionWith => narrowed(domain_pairs::union_with(d, other)),
        Call::IsSubsetOf => after(old, domain_pairs::is_subset_of(d, other).into()),
        Call::Equals => after(old, domain_pairs::equals(d, other).into()),
        Call::UnionMask => after(old, domain_pairs::union_mask(d, other).into()),
        Call::RemoveByMask => changed(domain_pairs::remove_by_mask(d, m)),
        Call::GetMask => after(old, domain_pairs::get_mask(d).into()),
        Call::CurrentMask => after(old, domain_pairs::current_mask(d).into()),
        Call::GetMinVal => after(old, domain_pairs::get_min_val(d).into()),
        Call::RestoreMask => narrowed(domain_pairs::restore_mask(d, m)),
        Call::SaveState => after(old, domain_pairs::save_state(d).into()),
        Call::RestoreState => narrowed(domain_pairs::restore_state(d, state)),
        _ => after(old, reply::none()),
    }
}

// What is left of cursor b. The calls that it doesn't name are on domains.
pub fn on_cursor(call: Call, r: Record, regs: &Registers) -> Turn
    requires { (r.a < 8) × (r.b < 8) }
{
    let old = regs.get(CURSORS + r.b);
    match call {
        Call::Iter => made(domain_values::iter(regs.get(r.a).into()), old),
        Call::Next => stepped(domain_values::next(old.into())),
        Call::Left => after(old, domain_values::left(old.into()).into()),
        _ => after(raw(r, bits(r.v)), reply::none()),
    }
}

// What is left of state b: the call saves domain a there, which a refusal leaves as it was, or sets it.
pub fn state(call: Call, r: Record, regs: &Registers) -> Register
    requires { (r.a < 8) × (r.b < 8) }
{
    let old = regs.get(STATES + r.b);
    match call {
        Call::SaveState => made(domain_pairs::save_state(regs.get(r.a).into()), old).left,
        _ => raw(r, r.n as u64),
    }
}
