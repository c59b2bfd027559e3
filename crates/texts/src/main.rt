// Reads the training texts 000.txt, 001.txt and so on, as far as there are such files, and prints a line for each: what the gate
// replays. A line is the refusal, or the sizes, the twelve tables and what the writer makes of them.
#![tactic(auto)]

mod print;
mod tables;

use std::io::{Read, Write};
use std::{fs, io};
use tables::Tables;

fn answer<W: Write>(out: &mut W, text: &[u8]) -> io::Result<()> {
    let mut tables = Tables::new();
    match tables.read(text) {
        Ok(sizes) => {
            tables.print(out, sizes)?;
            tables.print_written(out, sizes)?;
        }
        Err(why) => print::refused(out, why)?,
    }
    writeln!(out)
}

fn main(rt: HostRuntime) -> io::Result<()> {
    let mut out = io::writer(&rt);
    for i in 0..1000 {
        let name = format!(in rt.alloc(); "{i:03}.txt")?;
        let Ok(file) = fs::open(&rt, &name) else {
            break;
        };
        let mut text = Vec::new(rt.alloc());
        file.take(2048).read_to_end(&mut text)?;
        answer(&mut out, &text)?;
    }
    Ok(())
}
