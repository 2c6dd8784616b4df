// The wave's text, put into lent bytes: a line for each destination, then one for each list; or the one line of a bad sheet.
//
// put_board, put_refusal
//
// A list was refused for a Reason, which has a number and a place: a Refusal of 01's table, or a Numbered of any two.
// The bytes must have room: no board's text is longer than `most` of specs/Print, which is `wave::MOST`.
#![tactic(auto)]

ghost use Rattle.std.specs.Prelude.{◌≡◌, ◌+◌, ◌≤◌, ◌<◌, ℕ, length};
ghost use Rattle.board.specs.View.{rows_of, held_at};
ghost use Rattle.decimal.specs.Decimal.{natural, decimal};
ghost use Rattle.decimal.specs.Put.{put_of};
ghost use Rattle.domain.specs.Set.{values_of, set_of};
ghost use Rattle.rules.specs.Refusals.{number_of, place_of};
ghost use Rattle.wave_print.specs.Print.{named, spaced, bounds_text, row_text, refused_text, pair_text, bit_text, line_text_by, rows_text, lines_text_by, printed_by};

use board::Row;
use mask::Mask;
use rules::{Pair, Refusal};

// Why a list was refused: a number and a place.
pub trait Reason: Copy {
    ghost number: { Self → ℕ };

    ghost place: { Self → ℕ };

    fn number(self) -> u32
        ensures { result ≡ number self };

    fn place(self) -> usize
        ensures { result ≡ place self };
}

impl Reason for Refusal {
    ghost number = { number_of };

    ghost place = { place_of };

    fn number(self) -> u32 {
        Refusal::number(self)
    }

    fn place(self) -> usize {
        Refusal::place(self)
    }
}

// Any number and any place, one that 01's table lacks too.
#[derive(Clone, Copy, Debug, PartialEq, Eq)]
pub struct Numbered {
    pub number: u32,
    pub place: usize,
}

impl Reason for Numbered {
    ghost number = { λ r. r.number };

    ghost place = { λ r. r.place };

    fn number(self) -> u32 {
        self.number
    }

    fn place(self) -> usize {
        self.place
    }
}

// A space and a number.
fn put_spaced(n: u64, out: &mut [u8], at: usize) -> usize
    requires { at + length (spaced (natural n)) ≤ length out.old }
    ensures { record { next = result; cells = out.new } ≡ put_of (spaced (natural n)) out.old at }
{
    out[at] = b' ';
    decimal::put_natural(n, out, at + 1)
}

// A letter, a space and a number.
fn put_named(letter: u8, n: u64, out: &mut [u8], at: usize) -> usize
    requires { at + length (named letter (natural n)) ≤ length out.old }
    ensures { record { next = result; cells = out.new } ≡ put_of (named letter (natural n)) out.old at }
{
    out[at] = letter;
    put_spaced(n, out, at + 1)
}

// A space and a number that may have a minus.
fn put_signed(x: i64, out: &mut [u8], at: usize) -> usize
    requires { at + length (spaced (decimal x)) ≤ length out.old }
    ensures { record { next = result; cells = out.new } ≡ put_of (spaced (decimal x)) out.old at }
{
    out[at] = b' ';
    decimal::put(x, out, at + 1)
}

fn put_bounds(min: i32, m: Mask, out: &mut [u8], at: usize) -> usize
    requires { at + length (bounds_text (values_of min m)) ≤ length out.old }
    ensures { record { next = result; cells = out.new } ≡ put_of (bounds_text (values_of min m)) out.old at }
{
    if mask::is_none(m) {
        out[at] = b' ';
        out[at + 1] = b'-';
        out[at + 2] = b' ';
        out[at + 3] = b'-';
        return at + 4;
    }
    let low = domain_text::inner::value(min, mask::lowest(m));
    let high = domain_text::inner::value(min, mask::highest(m));
    let next = put_signed(low, out, at);
    put_signed(high, out, next)
}

// A destination's line.
fn put_row(row: Row, out: &mut [u8], at: usize) -> usize
    requires { at + length (row_text row.id.0 (set_of row.domain)) ≤ length out.old }
    ensures { record { next = result; cells = out.new } ≡ put_of (row_text row.id.0 (set_of row.domain)) out.old at }
{
    let d = row.domain;
    let named = put_named(b'D', u64::from(row.id.0), out, at);
    let counted = put_spaced(mask::count(d.mask) as u64, out, named);
    let end = put_bounds(d.min, d.mask, out, counted);
    out[end] = b'\n';
    end + 1
}

// The line of a refusal.
pub fn put_refusal(number: u32, place: usize, out: &mut [u8], at: usize) -> usize
    requires { at + length (refused_text number place) ≤ length out.old }
    ensures { record { next = result; cells = out.new } ≡ put_of (refused_text number place) out.old at }
{
    let named = put_named(b'R', u64::from(number), out, at);
    let end = put_spaced(place as u64, out, named);
    out[end] = b'\n';
    end + 1
}

fn bit(y: bool) -> u8
    ensures { result ≡ bit_text y }
{
    if y { b'1' } else { b'0' }
}

fn put_pair(pair: Pair, out: &mut [u8], at: usize) -> usize
    requires { at + length (pair_text pair.changed pair.consistent) ≤ length out.old }
    ensures { record { next = result; cells = out.new } ≡ put_of (pair_text pair.changed pair.consistent) out.old at }
{
    out[at] = bit(pair.changed);
    out[at + 1] = b' ';
    out[at + 2] = bit(pair.consistent);
    out[at + 3] = b'\n';
    at + 4
}

// A list's line.
fn put_line<R: Reason>(index: usize, l: Result<Pair, R>, out: &mut [u8], at: usize) -> usize
    requires { at + length (line_text_by R.number R.place index l) ≤ length out.old }
    ensures { record { next = result; cells = out.new } ≡ put_of (line_text_by R.number R.place index l) out.old at }
{
    let named = put_named(b'L', index as u64, out, at);
    out[named] = b' ';
    match l {
        Ok(pair) => put_pair(pair, out, named + 1),
        Err(why) => put_refusal(why.number(), why.place(), out, named + 1),
    }
}

// The destinations' lines at the start.
fn put_rows(rows: &[Row], out: &mut [u8]) -> usize
    requires { length (rows_text (rows_of rows.now (length rows.now) (held_at rows.now))) ≤ length out.old }
    ensures { record { next = result; cells = out.new } ≡ put_of (rows_text (rows_of rows.now (length rows.now) (held_at rows.now))) out.old 0 }
{
    let mut at = 0;
    for row in rows {
        at = put_row(*row, out, at);
    }
    at
}

// The lists' lines from `start` on.
fn put_lines<R: Reason>(lines: &[Result<Pair, R>], out: &mut [u8], start: usize) -> usize
    requires { start + length (lines_text_by R.number R.place 0 lines.now) ≤ length out.old }
    ensures { record { next = result; cells = out.new } ≡ put_of (lines_text_by R.number R.place 0 lines.now) out.old start }
{
    let mut at = start;
    for (i, line) in lines.iter().enumerate() {
        at = put_line(i, *line, out, at);
    }
    at
}

// The board's text at the start, and how long it is.
pub fn put_board<R: Reason>(rows: &[Row], lines: &[Result<Pair, R>], out: &mut [u8]) -> usize
    requires { length (printed_by R.number R.place (rows_of rows.now (length rows.now) (held_at rows.now)) lines.now) ≤ length out.old }
    ensures { record { next = result; cells = out.new } ≡ put_of (printed_by R.number R.place (rows_of rows.now (length rows.now) (held_at rows.now)) lines.now) out.old 0 }
{
    let at = put_rows(rows, out);
    put_lines(lines, out, at)
}
