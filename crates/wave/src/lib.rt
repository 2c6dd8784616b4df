// The wave program as one function: a sheet's bytes in, the board's text out.
//
// wave
//
// The text is made in bytes of its own, so that a call that is refused writes nothing. No sheet's text is longer than MOST.
#![tactic(auto)]

ghost use Rattle.std.specs.Prelude.{◌≡◌, ◌≤◌, length};
ghost use Rattle.decimal.specs.Put.{put_of};
ghost use Rattle.wave_print.specs.Print.{most};
ghost use Rattle.wave.specs.Text.{wave_text, wave_of, ran_text};

use rules::Refusal;
use wave_form::Ran;

// How long a sheet's text can be.
pub const MOST: usize = 2816;

fn page() -> [u8; 2816]
    ensures { 2816 ≡ length result }
{
    [0; 2816]
}

fn put_ran(ran: Ran, out: &mut [u8]) -> usize
    requires { (ran.count ≤ 64) × (ran.ln ≤ 16) × (length (ran_text ran) ≤ length out.old) }
    ensures { record { next = result; cells = out.new } ≡ put_of (ran_text ran) out.old 0 }
{
    let rows = ran.rows;
    let lines = ran.lines;
    wave_print::put_board(&rows[..ran.count], &lines[..ran.ln], out)
}

// Puts the text at the start, and answers how long it is.
fn put_wave(sheet: &[u8], out: &mut [u8]) -> usize
    requires { most ≤ length out.old }
    ensures { record { next = result; cells = out.new } ≡ put_of (wave_text sheet.now) out.old 0 }
{
    match sheet::read_sheet(sheet) {
        Err(stop) => {
            let why = sheet::refusal(stop);
            wave_print::put_refusal(why.number(), why.place(), out, 0)
        }
        Ok((parsed, _)) => put_ran(wave_run::run(parsed), out),
    }
}

// Registers the sheet's destinations, applies its closings in order, propagates each of its lists once, and writes the board and what each list
// was answered; of a bad sheet, its refusal. NoRoom: the text is longer than out.
pub fn wave(sheet: &[u8], out: &mut [u8]) -> Result<usize, Refusal>
    ensures { record { answer = result; cells = out.new } ≡ wave_of sheet.now out.old }
{
    let mut text = page();
    let n = put_wave(sheet, &mut text);
    if out.len() < n {
        return Err(Refusal::NoRoom);
    }
    out[..n].copy_from_slice(&text[..n]);
    Ok(n)
}
