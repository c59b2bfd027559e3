// Replays the oracle's answers. Standard input is a row of records of sixteen 64-bit words, little-endian: an operation,
// three numbers and a table of twelve. For each record the call is made and its answer written on a line; the oracle wrote
// both the records and the lines that are expected.
#![tactic(auto)]

mod answer;
mod operation;
mod record;

use record::Record;
use std::io::{self, Cursor, Write};

// Room for a line: the longest, an order of twelve places and a state, has 64 bytes.
const LINE: usize = 128;

// A proved loop has to end, and nothing says that the input does.
fn main(rt: HostRuntime) -> io::Result<()> {
    let mut input = rt.reader();
    let mut out = io::writer(&rt);
    for _ in 0..100_000 {
        let Some(record) = Record::read(&mut input)? else {
            break;
        };
        // The line is made whole first, since each write is a call of the system.
        let mut line = Cursor::new([0u8; LINE]);
        writeln!(line, "{}", operation::answer(&record))?;
        let end = (line.position() as usize).min(LINE);
        out.write_all(&line.get_ref()[..end])?;
    }
    Ok(())
}
