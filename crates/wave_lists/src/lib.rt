// The lists of a sheet, each propagated once, in order, on the rows of a well-formed board.
//
// spread
//
// Every propagation leaves the rows well formed, so that none has to look the board over.
#![tactic(auto)]

ghost use Rattle.std.specs.Prelude.{◌≡◌, true, map, ◌≤◌, length};
ghost use Rattle.board_spread.specs.Spread.{sound_rows};
ghost use Rattle.wave_form.specs.Wave.{part};
ghost use Rattle.wave_lists.specs.Listed.{listed_of};

use board::Row;
use rules::{Pair, Refusal};
use sheet_form::Span;

// Rows as the last list leaves them, and what each list was answered; the other lines are blank.
#[derive(Clone, Copy)]
pub struct Listed {
    pub rows: [Row; 64],
    pub lines: [Result<Pair, Refusal>; 16],
}

// The part of the run of ids where a list lies, or as much of it as there is.
fn list_of(ids: &[u32], s: Span) -> &[u32]
    ensures { result.now ≡ part ids.now s }
{
    let start = s.start.min(ids.len());
    let n = s.len.min(ids.len() - start);
    &ids[start..start + n]
}

pub fn spread(rows: [Row; 64], count: usize, lists: &[Span], ids: &[u32]) -> Listed
    requires { (sound_rows rows count ≡ true) × (length lists.now ≤ 16) }
    ensures { result ≡ listed_of rows count (map (part ids.now) lists.now) }
{
    let blank = Pair {
        changed: false,
        consistent: false,
    };
    let mut rows = rows;
    let mut lines = [Ok(blank); 16];
    for (i, s) in lists.iter().enumerate() {
        let list = list_of(ids, *s);
        let did = board_spread::inner::prune(&mut rows, count, list);
        lines[i] = did.map(|pass| pass.answer);
    }
    Listed { rows, lines }
}
