// Sheets read from standard input or from files, and their boards written to standard output: what the wave programs share.
//
// print_input, print_argument, has_argument
//
// All that matters is in `wave`. A board is written whole, once all of it is known. What can't be read or written is told by one line on
// standard error, under its name; no board of it is written. An error that they return is that the line can't be written.
#![tactic(auto)]

ghost use Rattle.std.specs.Prelude.{◌≡◌, ◌≤◌, length, take, IfOk, IfErr, IfSome, OnOk};
ghost use Rattle.std.specs.Io.KnownBytes.{Appends};
ghost use Rattle.wave_print.specs.Print.{most};
ghost use Rattle.wave.specs.Text.{wave_text};
ghost use Rattle.wave_io.specs.Board.{IsPrefixLen, board_of};
ghost use Rattle.wave_io.specs.Failures.{OnRead};

use std::env::FillError;
use std::fs::File;
use std::io;
use std::io::{Error, ErrorKind, Read, Write};
use std::rt::{Env, Files};

// The longest path that can be opened.
const PATH: usize = 4096;

// Why no board was written, or not all of it.
#[derive(Drop)]
enum Failed {
    Read(Error),
    Write(Error),
}

// One byte more than a sheet can have, so that a longer one is seen to be too long.
fn room() -> [u8; 32769]
    ensures { 32769 ≡ length result }
{
    [0; 32769]
}

// How many bytes were read, to the input's end or as many as sheet has.
fn read_sheet<R: Read>(input: &mut R, sheet: &mut [u8]) -> io::Result<usize>
    ensures within { IfOk result (λ n. n ≤ length sheet.new) }
    ensures bytes { IfOk result
        (λ n. IfSome (R.remaining input.old) (λ xs. take n sheet.new ≡ take (length sheet.old) xs)) }
{
    let mut at = 0;
    while at < sheet.len() {
        match input.read(&mut sheet[at..])? {
            0 => return Ok(at),
            n => at += n,
        }
    }
    Ok(at)
}

// How many bytes of out hold the text. With MOST bytes lent the wave is never refused.
fn written(sheet: &[u8], out: &mut [u8]) -> usize
    ensures within { IsPrefixLen result out.new }
    ensures text { most ≤ length out.old → take result out.new ≡ wave_text sheet.now }
{
    wave::wave(sheet, out).unwrap_or(0)
}

// Reads a sheet and writes its board.
fn answer<R: Read + Drop, W: Write>(mut input: R, output: &mut W) -> Result<(), Failed>
    ensures board { OnOk result (IfSome (R.remaining input)
        (λ xs. Appends (W.contents output.old) (W.contents output.new) (board_of xs))) }
    ensures unread { IfErr result (λ why. OnRead why (output.new ≡ output.old)) }
{
    let mut sheet = room();
    let n = match read_sheet(&mut input, &mut sheet) {
        Ok(n) => n,
        Err(e) => return Err(Failed::Read(e)),
    };
    let mut out = [0u8; wave::MOST];
    let k = written(&sheet[..n], &mut out);
    output.write_all(&out[..k]).map_err(Failed::Write)
}

// What is told on standard error of what failed.
fn tell(rt: &impl Eprint, name: &str, error: Error) -> io::Result<()> {
    eprintln!(rt; "{name}: {error}")
}

fn print_from<R: Read + Drop>(rt: &(impl Print + Eprint), input: R, name: &str) -> io::Result<()> {
    match answer(input, &mut io::writer(rt)) {
        Ok(()) => Ok(()),
        Err(Failed::Read(e)) => tell(rt, name, e),
        Err(Failed::Write(e)) => tell(rt, "standard output", e),
    }
}

pub fn print_input(rt: &(impl Input + Print + Eprint)) -> io::Result<()> {
    print_from(rt, rt.reader(), "standard input")
}

// The sheet in the file of this path.
fn print_file(rt: &(impl Files + Print + Eprint), path: &str) -> io::Result<()> {
    match File::open(rt, path) {
        Ok(file) => print_from(rt, file, path),
        Err(e) => tell(rt, path, e),
    }
}

// The sheet in the file that an argument names.
pub fn print_argument(rt: &(impl Env + Files + Print + Eprint), i: usize) -> io::Result<()> {
    let mut path = [0u8; PATH];
    if let Ok(n) = rt.arg(i, &mut path) {
        if let Ok(path) = std::str::from_utf8(&path[..n]) {
            return print_file(rt, path);
        }
    }
    tell(
        rt,
        "the sheet's name",
        Error::from(ErrorKind::InvalidFilename),
    )
}

// Whether the program was started with an argument of this number.
pub fn has_argument(rt: &impl Env, i: usize) -> bool {
    !matches!(rt.arg(i, &mut []), Err(FillError::NotPresent))
}

#[cfg(test)]
mod tests {
    use super::{Failed, answer};
    use std::io;
    use std::io::{Error, ErrorKind, Read, Write};

    // Bytes that end in a read that fails.
    #[derive(Drop)]
    struct Cut<'a>(&'a [u8]);

    impl Read for Cut<'_> {
        fn read(&mut self, buf: &mut [u8]) -> io::Result<usize> {
            match self.0.read(buf)? {
                0 => Err(Error::from(ErrorKind::BrokenPipe)),
                n => Ok(n),
            }
        }
    }

    // A writer that takes few bytes at a time, and fails once it has taken enough.
    #[derive(Drop)]
    struct Full {
        taken: usize,
        most: usize,
    }

    impl Write for Full {
        fn write(&mut self, buf: &[u8]) -> io::Result<usize> {
            if self.most <= self.taken {
                return Err(Error::from(ErrorKind::StorageFull));
            }
            let n = buf.len().min(3).min(self.most - self.taken);
            self.taken += n;
            Ok(n)
        }

        fn flush(&mut self) -> io::Result<()> {
            Ok(())
        }
    }

    const SHEET: &[u8] =
        b"4\n20 1 3\n21 1 3\n22 1 2\n23 7 7\n2\n1 20 3\n2 21 2\n2\n3 20 21 22\n2 20 99\n";

    const BOARD: &[u8] = b"D 20 1 1 1\nD 21 1 2 2\nD 22 0 - -\nD 23 1 7 7\nL 0 1 0\nL 1 R 6 1\n";

    #[test]
    fn writes_the_board(rt: HostRuntime) {
        let mut out = Vec::new(rt.alloc());
        assert!(rt; answer(SHEET, &mut out).is_ok());
        assert!(rt; out.as_slice() == BOARD);
    }

    #[test]
    fn writes_nothing_of_a_sheet_that_breaks_off(rt: HostRuntime) {
        let mut out = Vec::new(rt.alloc());
        let answered = answer(Cut(SHEET), &mut out);
        assert!(rt; matches!(answered, Err(Failed::Read(_))));
        assert!(rt; out.is_empty());
    }

    #[test]
    fn tells_a_write_that_fails(rt: HostRuntime) {
        for most in [0, 1, BOARD.len() - 1] {
            let mut output = Full { taken: 0, most };
            let answered = answer(SHEET, &mut output);
            assert!(rt; matches!(answered, Err(Failed::Write(_))));
            assert_eq!(rt; output.taken, most);
        }
        let mut output = Full {
            taken: 0,
            most: BOARD.len(),
        };
        assert!(rt; answer(SHEET, &mut output).is_ok());
    }
}
