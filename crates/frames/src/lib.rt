// A pipe: frames of one length come in, and the answer to each goes out before the next is read. It ends with the input.
#![tactic(auto)]

ghost use Rattle.std.specs.Prelude.{◌≡◌, ◌≤◌, length};

use std::io;
use std::io::{ErrorKind, Read, Write};

// Reads into `frame`. `answer` writes to `out`, and says how many bytes of it answer the frame.
pub fn answer_each<F: Fn(&[u8], &mut [u8]) -> usize>(
    rt: HostRuntime,
    frame: &mut [u8],
    out: &mut [u8],
    answer: F,
) -> io::Result<()>
    requires can { F.IsAlwaysCallable answer }
    requires within { (script : _) (room : _) (n : _) (after : _) → F.post answer script room n after → n ≤ length after.now }
    ensures { (length frame.new ≡ length frame.old) × (length out.new ≡ length out.old) }
{
    let mut input = rt.stdin();
    let mut output = rt.stdout();
    for _ in 0..u64::MAX {
        if let Err(e) = input.read_exact(frame) {
            return match e.kind() {
                ErrorKind::UnexpectedEof => Ok(()),
                _ => Err(e),
            };
        }
        let n = answer(frame, out);
        output.write_all(&out[..n])?;
        output.flush()?;
    }
    Ok(())
}
