// The wave behind functions on bytes, for comparisons with the Rust and for the clock; `wave_probe_c` exports them.
//
// probe_wave: a script of sheets, the texts out. bench_wave: one sheet, its text out.
//
// They have no `requires`: they are safe on whatever they are lent.
#![tactic(auto)]

ghost use Rattle.std.specs.Prelude.{◌≡◌, ◌+◌, ◌≤◌, length};

use probe_parts::wire;

// What the lent bytes hold before a call.
const FILL: u8 = 165;

// What is said of a refused sheet.
const REFUSED: u64 = u64::MAX;

// Lends `room` bytes behind the place of the answer. The eight past them are filled too, so that it shows if the call writes them.
fn answer(sheet: &[u8], out: &mut [u8], at: usize, room: usize)
    requires { at + 16 + room ≤ length out.old }
    ensures { length out.new ≡ length out.old }
{
    let from = at + 8;
    let to = from + room;
    out[from..to + 8].fill(FILL);
    let said = wave::wave(sheet, &mut out[from..to]).map_or(REFUSED, |n| n as u64);
    wire::put_word(out, at, said);
}

// Runs the script's sheets as far as `out` has room, and answers how many bytes were written. A record is a word, of which the low half is the
// sheet's length and the high half how many bytes are lent for its text, then the sheet; a length that the script doesn't have ends it. The answer
// to a record is a word, how many bytes the text has or all ones for a refusal, then the lent bytes and eight past them.
pub fn probe_wave(script: &[u8], out: &mut [u8]) -> usize
    ensures { result ≤ length out.new }
{
    let mut at = 0;
    let mut to = 0;
    while 8 <= script.len() - at {
        let head = wire::word(script, at);
        let len = wire::half(head) as usize;
        let room = (head >> 32) as usize;
        let from = at + 8;
        if script.len() - from < len {
            return to;
        }
        if out.len() - to < 16 + room {
            return to;
        }
        let end = from + len;
        answer(&script[from..end], out, to, room);
        to += 16 + room;
        at = end;
    }
    to
}

pub fn bench_wave(sheet: &[u8], out: &mut [u8]) -> usize {
    wave::wave(sheet, out).unwrap_or(0)
}
