// Where a chute stands in a universe of i32 values, counted from the universe's smallest. The differences are taken in i64,
// so that none wraps, also from one end of i32 to the other.
//
// gap, span; is_within, from; place, below, upto; value
#![tactic(auto)]

ghost use Rattle.std.specs.Prelude.{◌≡◌, true, ltb, pos, ◌+ℤ◌, ◌-ℤ◌};
ghost use Rattle.std.specs.Int.Signed.{le_z};
ghost use Rattle.std.specs.Int.{w32};
ghost use Rattle.std.proofs.Common.{SFits};
ghost use Rattle.offset.specs.Places.{clip, place_of, cut_of, span_of};

// How far a is above b.
pub fn gap(a: i32, b: i32) -> i64
    ensures { result ≡ a -ℤ b }
{
    (a as i64) - (b as i64)
}

// How many values stand from min to max: none where max comes before min.
pub fn span(min: i32, max: i32) -> usize
    ensures { result ≡ span_of min max }
{
    let w = gap(max, min) + 1;
    if w < 0 {
        return 0;
    }
    w as usize
}

// Does v stand in the universe from min to max, and so has an offset there?
pub fn is_within(v: i32, min: i32, max: i32) -> bool
    ensures { result ≡ ltb (place_of (span_of min max) (v -ℤ min)) (span_of min max) }
{
    min <= v && v <= max
}

// The offset of a value that doesn't stand before min.
pub fn from(v: i32, min: i32) -> usize
    requires { le_z min v ≡ true }
    ensures { v ≡ min +ℤ pos result }
{
    gap(v, min) as usize
}

// A distance among n offsets: itself where it is one of them, n past them, and low below them.
fn clip_to(d: i64, low: usize, n: usize) -> usize
    ensures { result ≡ clip low n d }
{
    if d < 0 {
        return low;
    }
    let o = d as usize;
    if o < n { o } else { n }
}

// The offset of v in a universe of n values from min on; n where v is outside.
pub fn place(v: i32, min: i32, n: usize) -> usize
    ensures { result ≡ place_of n (v -ℤ min) }
{
    clip_to(gap(v, min), n, n)
}

// How many of the n offsets from min on stand below t.
pub fn below(t: i32, min: i32, n: usize) -> usize
    ensures { result ≡ cut_of n (t -ℤ min) }
{
    clip_to(gap(t, min), 0, n)
}

// How many of the n offsets from min on stand at t or below it.
pub fn upto(t: i32, min: i32, n: usize) -> usize
    ensures { result ≡ cut_of n ((t -ℤ min) +ℤ pos 1) }
{
    clip_to(gap(t, min) + 1, 0, n)
}

// The value at the offset k.
pub fn value(min: i32, k: usize) -> i32
    requires { SFits w32 (min +ℤ pos k) }
    ensures { result ≡ min +ℤ pos k }
{
    ((min as i64) + (k as i64)) as i32
}
