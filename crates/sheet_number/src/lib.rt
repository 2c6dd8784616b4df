// Numbers and separators of a wave sheet, read from bytes: what stands at a place and where it ends, or what is wrong and where.
//
// read_number: any number in a range. natural_field, value_field: a u32 or an i32, and the byte that must follow. read_natural, read_byte: one
// without the other. Each is equal to a reader of specs/; Number says what a run of digits and minus signs writes, Reader how readers compose.
// Each byte of a number is looked at once: a run that is ill-written is at fault where it starts, so where it ends is of no use.
#![tactic(auto)]

ghost use Rattle.std.specs.Prelude.{◌≡◌, true, ℕ, ◌+◌, ◌-◌, ◌*◌, ◌^◌, ◌<◌, ◌≤◌, min, length, drop};
ghost use Rattle.std.proofs.Math.Option.{some};
ghost use Rattle.sheet_number.specs.Number.{is_digit, in_run, is_lead, run, run_end, digits, positive, alone, written as written·of, minus, number_at, byte_at};
ghost use Rattle.sheet_number.specs.Told.{cap, capped, sign_of, skip_of, within, told, told_place};
ghost use Rattle.sheet_number.specs.Reader.{natural as natural·of, value, field};

// What is wrong with a sheet.
#[derive(Clone, Copy)]
pub enum Fault {
    IllWritten,
    OutOfRange,
    Separator,
    Ended,
    Trailing,
    TooLong,
}

// Where the reading of a sheet stops, and what is wrong there.
#[derive(Clone, Copy)]
pub struct Stop {
    pub fault: Fault,
    pub at: usize,
}

#[tactic(auto, unfolding(crate::specs::Number::is_digit))]
fn is_digit(b: u8) -> bool
    ensures { result ≡ is_digit b }
{
    b'0' <= b && b <= b'9'
}

#[tactic(auto, unfolding(crate::specs::Number::is_lead))]
fn is_lead(b: u8) -> bool
    ensures { result ≡ is_lead b }
{
    b'1' <= b && b <= b'9'
}

#[tactic(auto, unfolding(crate::specs::Number::in_run))]
fn in_run(b: u8) -> bool
    ensures { result ≡ in_run b }
{
    b == b'-' || is_digit(b)
}

// One digit more, up to the cap.
fn push(m: u64, b: u8) -> u64
    requires { is_digit b ≡ true }
    ensures { (a : ℕ) → m ≡ min a cap → result ≡ min (a * 10 + (b - 48)) cap }
{
    if m < 1000000000000000000 {
        m * 10 + u64::from(b - b'0')
    } else {
        10000000000000000000
    }
}

// What the digits from `at` on write, up to a cap, and the place after them; nothing where a minus stands among them.
fn digits_from(s: &[u8], at: usize) -> Option<(u64, usize)>
    requires { at ≤ length s.now }
    ensures { result ≡ capped (digits 0 (run (drop at s.now))) (run_end s.now at) }
{
    let mut m: u64 = 0;
    for p in at..s.len() {
        let b = s[p];
        if is_digit(b) {
            m = push(m, b);
        } else if b == b'-' {
            return None;
        } else {
            return Some((m, p));
        }
    }
    Some((m, s.len()))
}

// Digits, of which the first is there and is not 0.
fn positive_from(s: &[u8], at: usize) -> Option<(u64, usize)>
    ensures { result ≡ capped (positive (run (drop at s.now))) (run_end s.now at) }
{
    if at < s.len() && is_lead(s[at]) {
        return digits_from(s, at);
    }
    None
}

// A 0 stands before `at`: nothing of its run may follow.
fn zero_before(s: &[u8], at: usize) -> Result<(i64, usize), Fault>
    ensures { result ≡ within (alone (run (drop at s.now))) (run_end s.now at) }
{
    if at < s.len() && in_run(s[at]) {
        return Err(Fault::IllWritten);
    }
    Ok((0, at))
}

fn to_negative(m: u64, e: usize) -> Result<(i64, usize), Fault>
    requires { 0 < m }
    ensures { result ≡ within (some (minus m)) e }
{
    if m <= 9223372036854775808 {
        Ok((-1 - ((m - 1) as i64), e))
    } else {
        Err(Fault::OutOfRange)
    }
}

// Both signs go one way up to the largest i64, so that no branch is guessed by the sign.
fn with_sign(negative: bool, m: u64, e: usize) -> Result<(i64, usize), Fault>
    requires { 0 < m }
    ensures { result ≡ within (some (sign_of negative m)) e }
{
    if m <= 9223372036854775807 {
        if negative {
            Ok((-1 - ((m - 1) as i64), e))
        } else {
            Ok((m as i64, e))
        }
    } else if negative {
        to_negative(m, e)
    } else {
        Err(Fault::OutOfRange)
    }
}

// The place after a minus at `at`, if there is one.
fn skip(negative: bool, at: usize) -> usize
    requires { at < 2 ^ 64 - 1 }
    ensures { result ≡ skip_of negative at }
{
    at + usize::from(negative)
}

// What the run at `at` writes, and the place after it.
fn written_at(s: &[u8], at: usize) -> Result<(i64, usize), Fault>
    requires { at < length s.now }
    ensures { result ≡ within (written·of (run (drop at s.now))) (run_end s.now at) }
{
    let b = s[at];
    if b == b'0' {
        return zero_before(s, at + 1);
    }
    let negative = b == b'-';
    match positive_from(s, skip(negative, at)) {
        None => Err(Fault::IllWritten),
        Some((m, e)) => with_sign(negative, m, e),
    }
}

// The number at `at`, in a field from `low` to `high`, and the place after it.
pub fn read_number(s: &[u8], at: usize, low: i64, high: i64) -> Result<(i64, usize), Stop>
    ensures { told result ≡ number_at s.now at low high }
{
    if s.len() <= at {
        return Err(Stop {
            fault: Fault::Ended,
            at,
        });
    }
    match written_at(s, at) {
        Err(fault) => Err(Stop { fault, at }),
        Ok((z, e)) => {
            if low <= z && z <= high {
                Ok((z, e))
            } else {
                Err(Stop {
                    fault: Fault::OutOfRange,
                    at,
                })
            }
        }
    }
}

// The place after the byte b at `at`.
#[tactic(auto, unfolding(crate::specs::Number::byte_at, crate::specs::Number::fault_at))]
pub fn read_byte(s: &[u8], at: usize, b: u8) -> Result<usize, Stop>
    ensures { told_place result ≡ byte_at s.now at b }
{
    if s.len() <= at {
        Err(Stop {
            fault: Fault::Ended,
            at,
        })
    } else if s[at] == b {
        Ok(at + 1)
    } else {
        Err(Stop {
            fault: Fault::Separator,
            at,
        })
    }
}

pub fn read_natural(s: &[u8], at: usize, low: u32, high: u32) -> Result<(u32, usize), Stop>
    ensures { told result ≡ natural·of low high s.now at }
{
    let (z, e) = read_number(s, at, i64::from(low), i64::from(high))?;
    Ok((z as u32, e))
}

fn read_value(s: &[u8], at: usize) -> Result<(i32, usize), Stop>
    ensures { told result ≡ value s.now at }
{
    let (z, e) = read_number(s, at, -2147483648, 2147483647)?;
    Ok((z as i32, e))
}

pub fn natural_field(s: &[u8], at: usize, low: u32, high: u32, b: u8) -> Result<(u32, usize), Stop>
    ensures { told result ≡ field (natural·of low high) b s.now at }
{
    let (n, e) = read_natural(s, at, low, high)?;
    let after = read_byte(s, e, b)?;
    Ok((n, after))
}

pub fn value_field(s: &[u8], at: usize, b: u8) -> Result<(i32, usize), Stop>
    ensures { told result ≡ field value b s.now at }
{
    let (n, e) = read_value(s, at)?;
    let after = read_byte(s, e, b)?;
    Ok((n, after))
}
