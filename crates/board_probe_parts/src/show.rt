// What shows a whole board: one number over all that it holds, rows past the count and masks of no open mark among it, and all
// of it as bytes.
ghost use Rattle.std.specs.Prelude.{◌≡◌, ◌+◌, ◌≤◌, length};

use board::{Board, Row};
use probe_parts::regs::Register;
use probe_parts::{regs, wire};

// How many bytes `dump` writes.
pub const SIZE: usize = 10264;

// The next number, for a word more. Each step can be undone, so that a word that differs shows in the end.
fn mixed(h: u64, w: u64) -> u64 {
    let sum = h.rotate_left(13).wrapping_add(w);
    sum ^ (sum >> 29)
}

// A row as words: its mask, its bounds and its id.
fn words(row: Row) -> [u64; 4] {
    let d = row.domain;
    [d.mask.lo, d.mask.hi, regs::bounds(d), row.id.0 as u64]
}

// The number over more words.
fn over(h: u64, words: &[u64]) -> u64 {
    words.iter().fold(h, |h, w| mixed(h, *w))
}

fn digest(b: Board) -> u64 {
    let rows = b.rows.iter().fold(0u64, |h, row| over(h, &words(*row)));
    let saved = over(rows, &b.saved);
    over(
        saved,
        &[b.count as u64, b.marks as u64, u64::from(b.changed)],
    )
}

// The board after a call: the number over it, its count, and its open marks with the flag as the highest bit.
pub fn left(b: Board) -> Register {
    Register {
        lo: digest(b),
        hi: b.count as u64,
        bounds: b.marks as u64 | (u64::from(b.changed) << 63),
    }
}

// The masks of the rows.
pub fn put_masks(rows: [Row; 64], out: &mut [u8], at: usize)
    requires { at + 1024 ≤ length out.old }
    ensures { length out.new ≡ length out.old }
{
    for (i, row) in rows.iter().enumerate() {
        let m = row.domain.mask;
        wire::put_words(&[m.lo, m.hi], out, at + 16 * i);
    }
}

// The rows, a mask, bounds and id each; the saved words; the count, the marks and the flag.
pub fn dump(b: Board, out: &mut [u8])
    requires { 10264 ≤ length out.old }
    ensures { length out.new ≡ length out.old }
{
    for (i, row) in b.rows.iter().enumerate() {
        wire::put_words(&words(*row), out, 32 * i);
    }
    wire::put_words(&b.saved, out, 2048);
    wire::put_words(
        &[b.count as u64, b.marks as u64, u64::from(b.changed)],
        out,
        10240,
    );
}
