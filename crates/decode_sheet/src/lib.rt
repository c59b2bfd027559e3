// From a sheet's bytes to its answer line: read, decoded, written. What the program `decode` runs between its input and its output.
#![tactic(auto)]

ghost use Rattle.std.specs.Prelude.{◌≡◌, ◌≤◌, length};
ghost use Rattle.best_path.specs.Scores.{tabled};
ghost use Rattle.best_path.specs.Decoded.{decoded_path, decoded_sum};
ghost use Rattle.score_tables.specs.Sound.{SoundScores};
ghost use Rattle.byte_buffers.specs.Stored.{Written as StoredAsWritten};
ghost use Rattle.answer_line.specs.Line.{path_line_of, path_room};
ghost use Rattle.decode_sheet.specs.Promise.{Promised};
ghost use Rattle.decode_sheet.specs.Program.{Printed};

use answer_line::PATH_ROOM;
use refusals::Refusal;
use score_tables::entries;
use sheet::Size;

// Room for the labels of a line: "Words T: 1 to 128 a line."
const MOST_LABELLED: usize = 128;

// The line of the decoded path, over tables that are accepted.
fn write_path(
    labels: u32,
    words: u32,
    transitions: &[f64],
    states: &[f64],
    line: &mut [u8],
) -> usize
    requires sound_scores { SoundScores labels words transitions.now states.now }
    requires path_room_in_bounds { path_room ≤ length line.old }
    ensures { StoredAsWritten (path_line_of (decoded_sum (tabled labels transitions.now states.now) words) (decoded_path (tabled labels transitions.now states.now) words)) line.old result line.new }
{
    let mut path = [0u32; MOST_LABELLED];
    let n = words as usize;
    let found = viterbi::decode_tables(labels as usize, n, transitions, states, &mut path);
    answer_line::path_line(found.sum, &path[..n], line)
}

// The same from the file's bytes, by way of two tables with room for every sheet: 32·32 transitions, 128·32 states.
fn decode_with(
    bytes: &[u8],
    transitions: &mut [f64],
    states: &mut [f64],
    line: &mut [u8],
) -> Result<usize, Refusal>
    requires { (1024 ≤ length transitions.old) × (4096 ≤ length states.old) }
    ensures { Promised (record { bytes = bytes.now }) line.old (record { answer = result; line = line.new }) }
{
    // A line with too little room is refused where a table with too little room is: none is lent then.
    let room = if line.len() < PATH_ROOM {
        0
    } else {
        transitions.len()
    };
    // Not by `?`: the edit `place_of_a_refusal_lost` changes the refusal that is handed on here.
    match sheet::read_sheet(bytes, &mut transitions[..room], states) {
        Err(why) => Err(why),
        Ok(Size { labels, words }) => {
            let size = entries(labels, labels);
            let count = entries(words, labels);
            Ok(write_path(labels, words, &transitions[..size], &states[..count], line))
        }
    }
}

// The line of the path, or a refusal that leaves the lent line as it was.
pub fn decode_sheet(bytes: &[u8], line: &mut [u8]) -> Result<usize, Refusal>
    ensures { Promised (record { bytes = bytes.now }) line.old (record { answer = result; line = line.new }) }
{
    let mut transitions = [0.0f64; 1024];
    let mut states = [0.0f64; 4096];
    decode_with(bytes, &mut transitions, &mut states, line)
}

// The line that the program prints.
pub fn print_sheet(bytes: &[u8], line: &mut [u8; PATH_ROOM]) -> usize
    ensures { Printed bytes.now line.old result line.new }
{
    match decode_sheet(bytes, line) {
        Ok(n) => n,
        Err(why) => answer_line::refused_line(why.number, why.place, line),
    }
}
