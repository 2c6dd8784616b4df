// A set of offsets, kept in words of 64 bits. No contract of a `pub fn` says how many words there are: each speaks of `val`,
// the number whose bits are the members, and of `offsets`, how many offsets there is room for.
//
// empty, only, first_n; and, or, minus; with, without, rest; is_none, is_one, has, within, same, fits, ends_by; count, lowest, highest
#![tactic(auto)]

ghost use Rattle.std.specs.Prelude.{◌≡◌, ℕ, ◌+◌, ◌-◌, ◌/◌, ◌^◌, ◌<◌, ◌≤◌, min, ◌&&◌, eqb, ltb, get_or, set};
ghost use Rattle.std.specs.Int.Bits.{bit_and, bit_or};
ghost use Rattle.std.specs.Int.Count.{ones};
ghost use Rattle.std.specs.Int.Signed.{le_z, lt_z};
ghost use Rattle.mask.specs.Bit.{bit, bit_minus, Lowest, Highest};
ghost use Rattle.mask.specs.Words.{FirstWord, LastWord};
ghost use Rattle.mask.specs.Val.{val, offsets, words, words_of};
ghost use Rattle.mask.specs.Ends.{ends_by};

// How many offsets there is room for.
pub const OFFSETS: usize = 128;

#[derive(Clone, Copy, PartialEq, Eq)]
pub struct Mask {
    pub lo: u64,
    pub hi: u64,
}

// The set of none.
pub fn empty() -> Mask
    ensures { val result ≡ 0 }
{
    Mask { lo: 0, hi: 0 }
}

// What is in both; in either; in m and not in n.
pub fn and(m: Mask, n: Mask) -> Mask
    ensures { val result ≡ bit_and (val m) (val n) }
{
    Mask {
        lo: m.lo & n.lo,
        hi: m.hi & n.hi,
    }
}

pub fn or(m: Mask, n: Mask) -> Mask
    ensures { val result ≡ bit_or (val m) (val n) }
{
    Mask {
        lo: m.lo | n.lo,
        hi: m.hi | n.hi,
    }
}

pub fn minus(m: Mask, n: Mask) -> Mask
    ensures { val result ≡ bit_minus (val m) (val n) }
{
    Mask {
        lo: m.lo & !n.lo,
        hi: m.hi & !n.hi,
    }
}

// The word at the offsets from..from+64 of the k lowest offsets.
fn part(k: usize, from: usize) -> u64
    requires { from ≤ 1024 }
    ensures { result ≡ 2 ^ min (k - from) 64 - 1 }
{
    if k <= from {
        return 0;
    }
    if from + 64 <= k {
        return 0xffff_ffff_ffff_ffff;
    }
    let d = k - from;
    (1u64 << d) - 1
}

// The k lowest offsets.
pub fn first_n(k: usize) -> Mask
    requires { k ≤ offsets }
    ensures { val result ≡ 2 ^ k - 1 }
{
    Mask {
        lo: part(k, 0),
        hi: part(k, 64),
    }
}

pub fn is_none(m: Mask) -> bool
    ensures { result ≡ eqb (val m) 0 }
{
    m.lo | m.hi == 0
}

// Is every member of m one of n?
pub fn within(m: Mask, n: Mask) -> bool
    ensures { result ≡ eqb (bit_and (val m) (val n)) (val m) }
{
    is_none(minus(m, n))
}

// What the word w has above its bit j. It is shifted twice, since a shift by 64 is not allowed.
fn above(w: u64, j: usize) -> u64
    requires { j < 64 }
    ensures { result ≡ w / 2 ^ (j + 1) }
{
    (w >> j) >> 1
}

// Both ends in one test, of which LLVM makes one comparison.
fn is_between(k: i64, from: i64, to: i64) -> bool
    ensures { result ≡ le_z from k && lt_z k to }
{
    from <= k && k < to
}

// Is k an offset, and no member above it? Every test of a domain comes here, so the words are tried first and what is no offset last.
pub fn ends_by(m: Mask, k: i64) -> bool
    ensures { result ≡ ends_by m k }
{
    if is_between(k, 0, 64) {
        return above(m.lo, k as usize) | m.hi == 0;
    }
    if is_between(k, 64, 128) {
        return above(m.hi, k as usize - 64) == 0;
    }
    false
}

// Is every member below k?
pub fn fits(m: Mask, k: usize) -> bool
    ensures { result ≡ ltb (val m) (2 ^ k) }
{
    if k == 0 {
        return is_none(m);
    }
    if OFFSETS < k {
        return true;
    }
    ends_by(m, (k - 1) as i64)
}

// The word at place i.
fn word(m: Mask, i: usize) -> u64
    requires { i < words }
    ensures { result ≡ get_or (words_of m) i 0 }
{
    if i == 0 { m.lo } else { m.hi }
}

// m with w as the word at place i.
fn set_word(m: Mask, i: usize, w: u64) -> Mask
    requires { i < words }
    ensures { words_of result ≡ set (words_of m) i w }
{
    if i == 0 {
        Mask { lo: w, hi: m.hi }
    } else {
        Mask { lo: m.lo, hi: w }
    }
}

// Is k a member?
pub fn has(m: Mask, k: usize) -> bool
    requires { k < offsets }
    ensures { result ≡ eqb (bit (val m) k) 1 }
{
    let j = k % 64;
    (word(m, k / 64) >> j) & 1 == 1
}

// m with the bit of k set, in its word.
fn mark(m: Mask, k: usize) -> Mask
    requires { k < offsets }
    ensures { val result ≡ bit_or (val m) (2 ^ k) }
{
    let i = k / 64;
    let j = k % 64;
    let w = word(m, i);
    set_word(m, i, w | (1u64 << j))
}

// k alone; m with k; m without k. Of a set in which much is changed in turn, the words don't wait for the choice of k's word: that is made in
// the set of k alone.
pub fn only(k: usize) -> Mask
    requires { k < offsets }
    ensures { val result ≡ 2 ^ k }
{
    mark(empty(), k)
}

pub fn with(m: Mask, k: usize) -> Mask
    requires { k < offsets }
    ensures { val result ≡ bit_or (val m) (2 ^ k) }
{
    or(m, only(k))
}

pub fn without(m: Mask, k: usize) -> Mask
    requires { k < offsets }
    ensures { val result ≡ bit_minus (val m) (2 ^ k) }
{
    minus(m, only(k))
}

pub fn same(m: Mask, n: Mask) -> bool
    ensures { result ≡ eqb (val m) (val n) }
{
    m == n
}

// How many members.
pub fn count(m: Mask) -> usize
    ensures { (result ≡ ones (val m)) × (result ≤ offsets) }
{
    (u64::count_ones(m.lo) + u64::count_ones(m.hi)) as usize
}

// The first word that is not 0, and the last.
fn first_word(m: Mask) -> usize
    requires { 0 < val m }
    ensures { FirstWord (words_of m) result }
{
    if m.lo != 0 {
        return 0;
    }
    1
}

fn last_word(m: Mask) -> usize
    requires { 0 < val m }
    ensures { LastWord (words_of m) result }
{
    if m.hi != 0 {
        return 1;
    }
    0
}

// The lowest member, and the highest.
pub fn lowest(m: Mask) -> usize
    requires { 0 < val m }
    ensures { (Lowest (val m) result) × (result < offsets) }
{
    let i = first_word(m);
    i * 64 + u64::trailing_zeros(word(m, i)) as usize
}

pub fn highest(m: Mask) -> usize
    requires { 0 < val m }
    ensures { (Highest (val m) result) × (result < offsets) }
{
    let i = last_word(m);
    i * 64 + (63 - u64::leading_zeros(word(m, i)) as usize)
}

// m without its lowest member.
pub fn rest(m: Mask) -> Mask
    requires { 0 < val m }
    ensures { (k : ℕ) → Lowest (val m) k → val result ≡ bit_minus (val m) (2 ^ k) }
{
    let first = first_word(m);
    let w = word(m, first);
    set_word(m, first, w & (w - 1))
}

// Has m just one member? None is left without the lowest.
pub fn is_one(m: Mask) -> bool
    ensures { result ≡ eqb (ones (val m)) 1 }
{
    if is_none(m) {
        return false;
    }
    is_none(rest(m))
}
