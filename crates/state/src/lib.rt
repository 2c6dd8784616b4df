// A board in a run of 64-bit words that a caller lends, so that a program in another language can keep it. The layout is in
// specs/Layout: three words of counts and the flag, four words for each row, and the saved words.
//
// is_fitting, read, write; half_of, chute: a chute in half a word; ends_word, low_chute, high_chute: two in a word
//
// What is written is read back as the same board, and words that fit are the writing of the board that they are read as:
// proofs/Theorems.
#![tactic(auto)]

ghost use Rattle.std.specs.Prelude.{◌≡◌, true, ◌++◌, ◌<◌, ◌≤◌, ◌^◌, ◌/◌, ◌%◌, length, take, drop, get_or};
ghost use Rattle.std.proofs.lemmas.List.Edits.{sets};
ghost use Rattle.state.specs.Layout.{size, start, half, chute_at, ends_word, flag_of, row_words, rows_words, written_of, fits_of, row_in, rows_in, read_of};

use board::{Board, Row};
use domain::BitDomain;
use mask::Mask;
use rules::Variable;
use saved::Saved;

// How many words a board takes.
pub const WORDS: usize = 1283;

// Where the rows begin, and the saved words.
const ROWS: usize = 3;

const SAVED: usize = 259;

// A chute stands in half a word as its distance from the least i32.
const LEAST: i32 = -2147483648;

const HALF: u64 = 4294967296;

pub fn half_of(v: i32) -> u64
    ensures { (result ≡ half v) × (result < 2 ^ 32) }
{
    offset::place(v, LEAST, 4294967296) as u64
}

pub fn chute(n: u32) -> i32
    ensures { result ≡ chute_at n }
{
    offset::value(LEAST, n as usize)
}

// Two chutes in a word, and each of them out of it.
pub fn ends_word(min: i32, max: i32) -> u64
    ensures { result ≡ ends_word min max }
{
    half_of(min) + half_of(max) * HALF
}

pub fn low_chute(ends: u64) -> i32
    ensures { result ≡ chute_at (ends % 2 ^ 32) }
{
    chute((ends % HALF) as u32)
}

pub fn high_chute(ends: u64) -> i32
    ensures { result ≡ chute_at (ends / 2 ^ 32) }
{
    chute((ends / HALF) as u32)
}

// Whether every field is in its range: the flag is 0 or 1, and ids are below 2 ^ 32.
pub fn is_fitting(ws: &[u64]) -> bool
    requires { size ≤ length ws.now }
    ensures { result ≡ fits_of ws.now }
{
    ws[2] < 2 && (0..64).all(|i| ws[ROWS + 4 * i] < HALF)
}

fn row_at(ws: &[u64], i: usize) -> Row
    requires { (i < 64) × (size ≤ length ws.now) × (get_or ws.now (start i) 0 < 2 ^ 32) }
    ensures { result ≡ row_in ws.now i }
{
    let at = ROWS + 4 * i;
    let id = ws[at] as u32;
    let ends = ws[at + 1];
    let mask = Mask {
        lo: ws[at + 2],
        hi: ws[at + 3],
    };
    let domain = BitDomain {
        mask,
        min: low_chute(ends),
        max: high_chute(ends),
    };
    Row {
        id: Variable(id),
        domain,
    }
}

// The board that words in their ranges stand for.
pub fn read(ws: &[u64]) -> Board
    requires { (size ≤ length ws.now) × (fits_of ws.now ≡ true) }
    ensures { result ≡ read_of ws.now }
{
    Board {
        rows: rows_of(ws),
        count: ws[0] as usize,
        saved: saved_of(ws),
        marks: ws[1] as usize,
        changed: ws[2] == 1,
    }
}

fn rows_of(ws: &[u64]) -> [Row; 64]
    requires { (size ≤ length ws.now) × (fits_of ws.now ≡ true) }
    ensures { result ≡ rows_in ws.now 0 64 }
{
    let mut rows = [row_at(ws, 0); 64];
    for i in 1..64 {
        rows[i] = row_at(ws, i);
    }
    rows
}

fn saved_of(ws: &[u64]) -> Saved
    requires { size ≤ length ws.now }
    ensures { result ≡ take 1024 (drop 259 ws.now) }
{
    let mut saved = [0; 1024];
    saved.copy_from_slice(&ws[SAVED..WORDS]);
    saved
}

fn put_row(ws: &mut [u64], i: usize, row: Row)
    requires { (i < 64) × (size ≤ length ws.old) }
    ensures { ws.new ≡ sets ws.old (start i) (row_words row) }
{
    let at = ROWS + 4 * i;
    let d = row.domain;
    ws[at] = row.id.0 as u64;
    ws[at + 1] = ends_word(d.min, d.max);
    ws[at + 2] = d.mask.lo;
    ws[at + 3] = d.mask.hi;
}

fn put_rows(rows: &[Row; 64], ws: &mut [u64])
    requires { size ≤ length ws.old }
    ensures { ws.new ≡ sets ws.old 3 (rows_words rows.now) }
{
    for (i, row) in rows.iter().enumerate() {
        put_row(ws, i, *row);
    }
}

fn put_saved(saved: &Saved, ws: &mut [u64])
    requires { (length saved.now ≡ 1024) × (size ≤ length ws.old) }
    ensures { ws.new ≡ sets ws.old 259 saved.now }
{
    ws[SAVED..WORDS].copy_from_slice(saved);
}

// Words past the board's stay as they are.
pub fn write(b: Board, ws: &mut [u64])
    requires { size ≤ length ws.old }
    ensures { ws.new ≡ written_of b ++ drop size ws.old }
{
    ws[0] = b.count as u64;
    ws[1] = b.marks as u64;
    ws[2] = u64::from(b.changed);
    put_rows(&b.rows, ws);
    put_saved(&b.saved, ws);
}
