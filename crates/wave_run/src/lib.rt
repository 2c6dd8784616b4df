// A wave: what a sheet asks for, done. Its destinations are registered, its closings applied in order, each of its lists propagated once.
//
// run
//
// The board starts blank and every step leaves it well formed, so that it is never looked over.
#![tactic(auto)]

ghost use Rattle.std.specs.Prelude.{◌≡◌};
ghost use Rattle.wave_form.specs.Wave.{ran_of, sheet_of};

use sheet_form::Parsed;
use wave_form::Ran;

pub fn run(p: Parsed) -> Ran
    ensures { result ≡ ran_of (sheet_of p) }
{
    let destinations = p.destinations.rows;
    let closings = p.closings.rows;
    let lists = p.lists.rows;
    let ids = p.ids;
    let ln = p.lists.count.min(16);
    let registered = wave_enter::register(&destinations[..p.destinations.count.min(64)]);
    let mut rows = registered.rows;
    let count = registered.count;
    batch::inner::close_each(&mut rows, count, &closings[..p.closings.count.min(256)]);
    let listed = wave_lists::spread(rows, count, &lists[..ln], &ids);
    let rows = listed.rows;
    let lines = listed.lines;
    Ran {
        rows,
        count,
        lines,
        ln,
    }
}
