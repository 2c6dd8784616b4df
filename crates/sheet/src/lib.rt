// The wave sheet, read from bytes: its rows, or what is wrong with it and where.
//
// read_sheet: the sheet. refusal: how a fault is told.
//
// specs/Sheet is 01's sheet as what is read, specs/Write its text. A text is accepted exactly when it is the text of a good sheet: the crate
// `sheet_laws`.
#![tactic(auto)]

ghost use Rattle.std.specs.Prelude.{◌≡◌};
ghost use Rattle.sheet.specs.Sheet.{read_sheet, refusal_of};
ghost use Rattle.sheet.specs.Whole.{read_of};

use rules::Refusal;
use sheet_form::Parsed;
use sheet_number::{Fault, Stop};

// Every fault is told as 15, with its place.
pub fn refusal(stop: Stop) -> Refusal
    ensures { result ≡ refusal_of stop.fault stop.at }
{
    Refusal::BadSheet(stop.at)
}

// The rows of a sheet and its length, or what is wrong with the text and where, and then no rows.
pub fn read_sheet(s: &[u8]) -> Result<(Parsed, usize), Stop>
    ensures { result ≡ read_of (read_sheet s.now) }
{
    if 32768 < s.len() {
        return Err(Stop {
            fault: Fault::TooLong,
            at: 32768,
        });
    }
    let (destinations, e) = sheet_sections::read_destinations(s, 0)?;
    let (closings, f) = sheet_sections::read_closings(s, e)?;
    let (l, g) = sheet_sections::read_lists(s, f)?;
    if g < s.len() {
        return Err(Stop {
            fault: Fault::Trailing,
            at: g,
        });
    }
    let lists = l.spans;
    let ids = l.ids;
    let parsed = Parsed {
        destinations,
        closings,
        lists,
        ids,
    };
    Ok((parsed, g))
}
