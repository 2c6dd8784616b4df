// Whole numbers in decimal: how many bytes they take, and their text put into lent bytes.
//
// size, put: of a signed number, with its minus. size_natural, put_natural: of a number that has none.
//
// The bytes must have room: a caller asks for the size first.
#![tactic(auto)]

ghost use Rattle.std.specs.Prelude.{◌≡◌, ◌+◌, ◌≤◌, length};
ghost use Rattle.decimal.specs.Decimal.{natural, decimal};
ghost use Rattle.decimal.specs.Put.{put_of};

// How many digits.
pub fn size_natural(n: u64) -> usize
    ensures { result ≡ length (natural n) }
{
    n.max(1).ilog10() as usize + 1
}

// Puts n at `at`, and answers the place after it.
pub fn put_natural(n: u64, out: &mut [u8], at: usize) -> usize
    requires { at + length (natural n) ≤ length out.old }
    ensures { record { next = result; cells = out.new } ≡ put_of (natural n) out.old at }
{
    if n < 10 {
        out[at] = 48 + n as u8;
        at + 1
    } else {
        let last = put_natural(n / 10, out, at);
        out[last] = 48 + (n % 10) as u8;
        last + 1
    }
}

// How many bytes.
pub fn size(x: i64) -> usize
    ensures { result ≡ length (decimal x) }
{
    let digits = size_natural(x.unsigned_abs());
    if x < 0 { digits + 1 } else { digits }
}

// Puts x at `at`, and answers the place after it.
pub fn put(x: i64, out: &mut [u8], at: usize) -> usize
    requires { at + length (decimal x) ≤ length out.old }
    ensures { record { next = result; cells = out.new } ≡ put_of (decimal x) out.old at }
{
    if x < 0 {
        out[at] = b'-';
        put_natural(x.unsigned_abs(), out, at + 1)
    } else {
        put_natural(x.unsigned_abs(), out, at)
    }
}
