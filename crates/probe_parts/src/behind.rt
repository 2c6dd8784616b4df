// What stands behind an answer: some of the cells that a call was lent, the cells before and after the lent part among them, as bytes.
ghost use Rattle.std.specs.Prelude.{◌≡◌, ◌*◌, ◌≤◌, length};

use super::script::Done;
use super::turn::Turn;
use super::wire;

// The first of the bytes.
pub fn of_bytes(turn: Turn, bytes: &[u8], many: usize, behind: &mut [u8]) -> Done
    requires { (many ≤ length bytes.now) × (many ≤ length behind.old) }
    ensures { (result.behind ≡ many) × (length behind.new ≡ length behind.old) }
{
    behind[..many].copy_from_slice(&bytes[..many]);
    Done { turn, behind: many }
}

// The first of the cells, a word for each.
pub fn of_each<T: Copy, F: Fn(T) -> u64>(
    turn: Turn,
    cells: &[T],
    word: F,
    many: usize,
    behind: &mut [u8],
) -> Done
    requires any { F.IsAlwaysCallable word }
    requires room { (many ≤ length cells.now) × (8 * many ≤ length behind.old) }
    ensures { (result.behind ≡ 8 * many) × (length behind.new ≡ length behind.old) }
{
    wire::put_each(&cells[..many], word, behind, 0);
    Done {
        turn,
        behind: 8 * many,
    }
}

// The first of the values.
pub fn of_values(turn: Turn, cells: &[i32], many: usize, behind: &mut [u8]) -> Done
    requires { (many ≤ length cells.now) × (8 * many ≤ length behind.old) }
    ensures { (result.behind ≡ 8 * many) × (length behind.new ≡ length behind.old) }
{
    of_each(turn, cells, wire::bits, many, behind)
}

// The first of both, a word for each two.
pub fn of_halves(turn: Turn, low: &[u32], high: &[u32], pairs: usize, behind: &mut [u8]) -> Done
    requires { (pairs ≤ length low.now) × (pairs ≤ length high.now) × (8 * pairs ≤ length behind.old) }
    ensures { (result.behind ≡ 8 * pairs) × (length behind.new ≡ length behind.old) }
{
    for i in 0..pairs {
        wire::put_word(behind, 8 * i, wire::pair(low[i], high[i]));
    }
    Done {
        turn,
        behind: 8 * pairs,
    }
}
