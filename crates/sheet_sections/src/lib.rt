// The three sections of a wave sheet, read from bytes: a count line, then as many lines as it says.
//
// read_destinations, read_closings, read_lists: the rows, and the place after the section; or what is wrong and where, and then no rows. Each is
// equal to a reader of specs/Sections, held in arrays as specs/Rows says.
#![tactic(auto)]

ghost use Rattle.std.specs.Prelude.{◌≡◌, ◌+◌, ◌^◌, ◌<◌, ◌≤◌};
ghost use Rattle.sheet_form.specs.Held.{no_destination, no_closing, held};
ghost use Rattle.sheet_number.specs.Reader.{Reader, times};
ghost use Rattle.sheet_number.specs.Told.{told, answer};
ghost use Rattle.sheet_sections.specs.Sections.{destination, closing, section, gap, count, list};
ghost use Rattle.sheet_sections.specs.Rows.{destinations_of, closings_of, stored_ids, lists_of};

use closing::{Closing, Kind};
use rules::{Value, Variable};
use sheet_form::{Destination, Rows, Span};
use sheet_number::Stop;

// ---- a section of rows

// What a section has a row of for each of its lines: how the line is read, and what a row holds of which there is no line.
trait Line: Copy {
    ghost reader: { Reader Self };

    ghost nothing: { Self };

    fn blank() -> Self
        ensures { result ≡ nothing };

    fn read(s: &[u8], at: usize) -> Result<(Self, usize), Stop>
        ensures { told result ≡ reader s.now at };
}

fn read_lines<T: Line, const N: usize>(
    s: &[u8],
    at: usize,
    count: usize,
) -> Result<(Rows<T, N>, usize), Stop>
    requires { count ≤ N }
    ensures { result ≡ answer (held N T.nothing) (times count T.reader s.now at) }
{
    let mut rows = [T::blank(); N];
    let mut place = at;
    for i in 0..count {
        let (row, e) = T::read(s, place)?;
        rows[i] = row;
        place = e;
    }
    Ok((Rows { rows, count }, place))
}

fn read_section<T: Line, const N: usize>(s: &[u8], at: usize) -> Result<(Rows<T, N>, usize), Stop>
    requires { N < 2 ^ 32 }
    ensures { result ≡ answer (held N T.nothing) (section N T.reader s.now at) }
{
    let (n, e) = sheet_number::natural_field(s, at, 0, N as u32, b'\n')?;
    read_lines(s, e, n as usize)
}

// ---- destinations

fn read_destination(s: &[u8], at: usize) -> Result<(Destination, usize), Stop>
    ensures { told result ≡ destination s.now at }
{
    let (id, e) = sheet_number::natural_field(s, at, 0, u32::MAX, b' ')?;
    let (min, f) = sheet_number::value_field(s, e, b' ')?;
    let (max, g) = sheet_number::value_field(s, f, b'\n')?;
    let id = Variable(id);
    let min = Value(min);
    let max = Value(max);
    Ok((Destination { id, min, max }, g))
}

impl Line for Destination {
    ghost reader = { destination };

    ghost nothing = { no_destination };

    fn blank() -> Destination {
        Destination {
            id: Variable(0),
            min: Value(0),
            max: Value(0),
        }
    }

    fn read(s: &[u8], at: usize) -> Result<(Destination, usize), Stop> {
        read_destination(s, at)
    }
}

pub fn read_destinations(s: &[u8], at: usize) -> Result<(Rows<Destination, 64>, usize), Stop>
    ensures { result ≡ destinations_of (section 64 destination s.now at) }
{
    read_section(s, at)
}

// ---- closings

fn read_closing(s: &[u8], at: usize) -> Result<(Closing, usize), Stop>
    ensures { told result ≡ closing s.now at }
{
    let (n, e) = sheet_number::natural_field(s, at, 1, 4, b' ')?;
    let (id, f) = sheet_number::natural_field(s, e, 0, u32::MAX, b' ')?;
    let (value, g) = sheet_number::value_field(s, f, b'\n')?;
    let kind = closing::kind_for(n);
    let id = Variable(id);
    let value = Value(value);
    Ok((Closing { kind, id, value }, g))
}

impl Line for Closing {
    ghost reader = { closing };

    ghost nothing = { no_closing };

    fn blank() -> Closing {
        Closing {
            kind: Kind::Remove,
            id: Variable(0),
            value: Value(0),
        }
    }

    fn read(s: &[u8], at: usize) -> Result<(Closing, usize), Stop> {
        read_closing(s, at)
    }
}

pub fn read_closings(s: &[u8], at: usize) -> Result<(Rows<Closing, 256>, usize), Stop>
    ensures { result ≡ closings_of (section 256 closing s.now at) }
{
    read_section(s, at)
}

// ---- lists

// What stands after a number of a line on which n more follow.
fn gap_after(n: usize) -> u8
    ensures { result ≡ gap n }
{
    if n == 0 { b'\n' } else { b' ' }
}

// Puts the ids of a line into the run from `used` on, as far as they can be read.
fn read_ids(
    s: &[u8],
    at: usize,
    count: usize,
    ids: &mut [u32; 1024],
    used: usize,
) -> Result<usize, Stop>
    requires { used + count ≤ 1024 }
    ensures { record { end = result; cells = ids.new } ≡ stored_ids count s.now at ids.old used }
{
    let mut place = at;
    for i in 0..count {
        let b = gap_after(count - (i + 1));
        let (n, e) = sheet_number::natural_field(s, place, 0, u32::MAX, b)?;
        ids[used + i] = n;
        place = e;
    }
    Ok(place)
}

// The lists that were read, and their ids in one run.
#[derive(Clone, Copy)]
pub struct Lists {
    pub spans: Rows<Span, 16>,
    pub ids: [u32; 1024],
}

// How many ids a list has.
fn read_count(s: &[u8], at: usize) -> Result<(u32, usize), Stop>
    ensures { told result ≡ count s.now at }
{
    let (n, e) = sheet_number::read_natural(s, at, 0, 64)?;
    let after = sheet_number::read_byte(s, e, gap_after(n as usize))?;
    Ok((n, after))
}

fn read_list_lines(s: &[u8], at: usize, count: usize) -> Result<(Lists, usize), Stop>
    requires { count ≤ 16 }
    ensures { result ≡ lists_of (times count list s.now at) }
{
    let mut ids = [0u32; 1024];
    let mut rows = [Span { start: 0, len: 0 }; 16];
    let mut used = 0;
    let mut place = at;
    for i in 0..count {
        let (n, e) = read_count(s, place)?;
        let len = n as usize;
        place = read_ids(s, e, len, &mut ids, used)?;
        rows[i] = Span { start: used, len };
        used += len;
    }
    let spans = Rows { rows, count };
    Ok((Lists { spans, ids }, place))
}

pub fn read_lists(s: &[u8], at: usize) -> Result<(Lists, usize), Stop>
    ensures { result ≡ lists_of (section 16 list s.now at) }
{
    let (n, e) = sheet_number::natural_field(s, at, 0, 16, b'\n')?;
    read_list_lines(s, e, n as usize)
}
