// From an open file to its answer line. Everything between what is read and what is written is `answer_front`.
#![tactic(auto)]

ghost use Rattle.std.specs.Prelude.{ℕ, ◌≤◌, ◌<◌, List, length, take, IfOk, OnOk, OnErr};
ghost use Rattle.std.specs.Io.KnownBytes.{Appends, Consumes, IsAtEnd};
ghost use Rattle.decode_sheet.specs.Front.{longest_sheet};
ghost use Rattle.answer_file.specs.EveryFile.{PrintedOfEvery, IsLineOf};

use answer_line::PATH_ROOM;
use std::io::{self, ErrorKind, Read, Write};

// The bytes of a file, as many as the buffer holds, which is more than the longest sheet: how many there are, or none where
// a read fails, since the end of the file was never seen then.
fn read_bytes<R: Read>(file: &mut R, bytes: &mut [u8]) -> usize
    requires { longest_sheet < length bytes.old }
    ensures within { result ≤ length bytes.new }
    ensures front { 0 < result → Consumes (R.remaining file.old) (R.remaining file.new) (take result bytes.new) }
    ensures end { 0 < result → result < length bytes.new → IsAtEnd (R.remaining file.new) }
{
    let mut done = 0usize;
    // On by what was taken, which the reader decides.
    while done < bytes.len() {
        let Ok(more) = file.read(&mut bytes[done..]) else {
            return 0;
        };
        if more == 0 {
            return done;
        }
        done += more;
    }
    done
}

// The line of the whole file, from the n bytes of it that were read into a buffer longer than any sheet: the rest of a
// longer file would change nothing.
fn answer_front(bytes: &[u8], n: usize, line: &mut [u8; PATH_ROOM]) -> usize
    requires n_in_bounds { n ≤ length bytes.now }
    requires longest_sheet_in_bounds { longest_sheet < length bytes.now }
    ensures { PrintedOfEvery bytes.now n line.old result line.new }
{
    decode_sheet::print_sheet(&bytes[..n], line)
}

// Writes a line. A write that fails, or takes nothing, leaves a front of it written.
fn write_line<W: Write>(out: &mut W, line: &[u8]) -> io::Result<()>
    ensures ok { OnOk result (Appends (W.contents out.old) (W.contents out.new) line.now) }
    ensures err { OnErr result ((k : ℕ) × Appends (W.contents out.old) (W.contents out.new) (take k line.now)) }
{
    let mut done = 0usize;
    // On by what was taken, which the writer decides.
    while done < line.len() {
        let more = out.write(&line[done..])?;
        if more == 0 {
            return Err(io::Error::from(ErrorKind::WriteZero));
        }
        done += more;
    }
    Ok(())
}

// The buffer has one byte more than the longest sheet, 8 + 8·(32·32 + 128·32) bytes, by which a longer file is known. The
// answer is how many bytes were read. An error is one of writing.
pub fn answer_file<R: Read, W: Write>(file: &mut R, out: &mut W) -> io::Result<usize>
    ensures within { IfOk result (λ n. n ≤ 40969) }
    ensures line { IfOk result (λ n. (line : List ℕ) × IsLineOf (R.remaining file.old) n line
        × Appends (W.contents out.old) (W.contents out.new) line) }
    ensures err { OnErr result ((n : ℕ) × (k : ℕ) × (line : List ℕ) × IsLineOf (R.remaining file.old) n line
        × Appends (W.contents out.old) (W.contents out.new) (take k line)) }
{
    let mut bytes = [0u8; 40969];
    let n = read_bytes(file, &mut bytes);
    let mut line = [0u8; PATH_ROOM];
    let size = answer_front(&bytes, n, &mut line);
    write_line(out, &line[..size])?;
    Ok(n)
}
