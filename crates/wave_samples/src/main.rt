// The sample sheets in turn, each in the file that an argument names: the gate runs it over all of sheets/.
#![tactic(auto)]

use std::io;

fn main(rt: HostRuntime) -> io::Result<()> {
    for i in 1..usize::MAX {
        if !wave_io::has_argument(&rt, i) {
            break;
        }
        wave_io::print_argument(&rt, i)?;
    }
    Ok(())
}
