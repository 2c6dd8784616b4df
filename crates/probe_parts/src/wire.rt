// Numbers as bytes, the lowest first.
ghost use Rattle.std.specs.Prelude.{◌≡◌, ◌+◌, ◌*◌, ◌≤◌, length};

// The eight bytes at `at`.
pub fn word(s: &[u8], at: usize) -> u64
    requires { at + 8 ≤ length s.now }
{
    u64::from_le_bytes(s[at..at + 8].try_into().unwrap())
}

pub fn put_word(out: &mut [u8], at: usize, w: u64)
    requires { at + 8 ≤ length out.old }
    ensures { length out.new ≡ length out.old }
{
    out[at..at + 8].copy_from_slice(&w.to_le_bytes());
}

// A word for each of the cells, one behind the other.
pub fn put_each<T: Copy, F: Fn(T) -> u64>(cells: &[T], word: F, out: &mut [u8], at: usize)
    requires any { F.IsAlwaysCallable word }
    requires room { at + 8 * length cells.now ≤ length out.old }
    ensures { length out.new ≡ length out.old }
{
    for (i, cell) in cells.iter().enumerate() {
        put_word(out, at + 8 * i, word(*cell));
    }
}

pub fn put_words(words: &[u64], out: &mut [u8], at: usize)
    requires { at + 8 * length words.now ≤ length out.old }
    ensures { length out.new ≡ length out.old }
{
    put_each(words, |w| w, out, at);
}

const NUMBERS: u64 = 4294967296;

// The low half of a word.
pub fn half(w: u64) -> u32 {
    (w % NUMBERS) as u32
}

pub fn pair(low: u32, high: u32) -> u64 {
    (low as u64) | ((high as u64) << 32)
}

// A signed number stands in a word as its distance from the least i32. This is the number that the low half of a word stands for.
pub fn signed(w: u64) -> i32 {
    offset::value(i32::MIN, half(w) as usize)
}

pub fn bits(v: i32) -> u64 {
    offset::place(v, i32::MIN, 4294967296) as u64
}
