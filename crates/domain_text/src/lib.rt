// The text of a bit domain, put into lent bytes: `[`, the values of the first run, `|`, the others, `]`.
//
// write_text
//
// It counts how long the text is before it writes, so that a call that is refused writes nothing. No text is longer than
// 1538 bytes.
#![tactic(auto)]

ghost use Rattle.std.specs.Prelude.{◌≡◌, ◌+◌, ◌<◌, ◌≤◌, ℤ, length, take, drop};
ghost use Rattle.decimal.specs.Put.{put_of};
ghost use Rattle.domain.specs.Set.{values_of};
ghost use Rattle.domain_text.specs.Text.{listed, first_run, text_of, sizes, write_text_of};

use domain::BitDomain;
use mask::Mask;
use rules::Refusal;

pub mod inner;

// The first run of values: how many it has, and what is left without them.
#[derive(Clone, Copy)]
struct Run {
    count: usize,
    rest: Mask,
}

fn first_run(m: Mask) -> Run
    ensures { (lo : ℤ) → (result.count ≡ first_run (values_of lo m)) × (values_of lo result.rest ≡ drop result.count (values_of lo m)) }
{
    if mask::is_none(m) {
        return Run { count: 0, rest: m };
    }
    let mut last = mask::lowest(m);
    let mut rest = mask::rest(m);
    let mut count: usize = 1;
    while !mask::is_none(rest) && mask::lowest(rest) == last + 1 {
        last += 1;
        rest = mask::rest(rest);
        count += 1;
    }
    Run { count, rest }
}

// How many bytes the values take, commas left out.
fn digits(min: i32, m: Mask) -> usize
    ensures { result ≡ sizes (values_of min m) }
{
    let mut left = m;
    let mut sum: usize = 0;
    while !mask::is_none(left) {
        sum += decimal::size(inner::value(min, mask::lowest(left)));
        left = mask::rest(left);
    }
    sum
}

// How many bytes the text has: the brackets, the bar, the values, and the commas on either side of the bar, one fewer than the values there.
fn text_size(min: i32, m: Mask) -> usize
    ensures { result ≡ length (text_of (values_of min m)) }
{
    let n = mask::count(m);
    let run = first_run(m);
    3 + digits(min, m) + run.count.saturating_sub(1) + (n - run.count).saturating_sub(1)
}

// Puts the n lowest values at `at`, and answers the place after them.
fn put_values(min: i32, m: Mask, n: usize, out: &mut [u8], at: usize) -> usize
    requires { (n ≤ length (values_of min m)) × (at + length (listed (take n (values_of min m))) ≤ length out.old) }
    ensures { record { next = result; cells = out.new } ≡ put_of (listed (take n (values_of min m))) out.old at }
{
    if n == 0 {
        return at;
    }
    let mut e = decimal::put(inner::value(min, mask::lowest(m)), out, at);
    let mut left = mask::rest(m);
    for _ in 1..n {
        out[e] = b',';
        e = decimal::put(inner::value(min, mask::lowest(left)), out, e + 1);
        left = mask::rest(left);
    }
    e
}

// Puts the text at the start.
fn put_text(min: i32, m: Mask, out: &mut [u8])
    requires { length (text_of (values_of min m)) ≤ length out.old }
    ensures { out.new ≡ (put_of (text_of (values_of min m)) out.old 0).cells }
{
    out[0] = b'[';
    let run = first_run(m);
    let bar = put_values(min, m, run.count, out, 1);
    out[bar] = b'|';
    let end = put_values(min, run.rest, mask::count(run.rest), out, bar + 1);
    out[end] = b']';
}

// Puts d's text at the start, and answers how long it is. Broken: d isn't well formed. NoRoom: the text is longer than out.
#[tactic(auto, unfolding(crate::specs::Text::write_text_of))]
pub fn write_text(d: BitDomain, out: &mut [u8]) -> Result<usize, Refusal>
    ensures { record { answer = result; cells = out.new } ≡ write_text_of d out.old }
{
    domain::inner::check(d)?;
    let n = text_size(d.min, d.mask);
    if out.len() < n {
        return Err(Refusal::NoRoom);
    }
    put_text(d.min, d.mask, out);
    Ok(n)
}
