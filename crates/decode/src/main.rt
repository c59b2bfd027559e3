// The program `decode`: a sheet on standard input, its answer line on standard output.
#![tactic(auto)]

use std::io;

fn main(rt: HostRuntime) -> io::Result<()> {
    answer_file::answer_file(&mut rt.reader(), &mut io::writer(&rt))?;
    Ok(())
}
