// Answers the sheets 000.tlg, 001.tlg and so on, a line each, as far as there are such files: what the gate replays.
#![tactic(auto)]

use std::{fs, io};

fn main(rt: HostRuntime) -> io::Result<()> {
    let mut out = io::writer(&rt);
    for i in 0..1000 {
        let name = format!(in rt.alloc(); "{i:03}.tlg")?;
        let Ok(mut sheet) = fs::open(&rt, &name) else {
            break;
        };
        answer_file::answer_file(&mut sheet, &mut out)?;
    }
    Ok(())
}
