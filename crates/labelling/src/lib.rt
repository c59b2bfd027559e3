// The labels of one line of flat tables: its states are scored, 8 is looked for, and the path is decoded. The call on a single
// line and a training both go this way; the transitions, which are the same for every line, are scored beforehand.
#![tactic(auto)]

ghost use Rattle.std.specs.Prelude.{◌≡◌, ◌*◌, ◌+◌, ◌≤◌, ℕ};
ghost use Rattle.lines.specs.Tables.{Model};
ghost use Rattle.lines.specs.Entry.{line_was};
ghost use Rattle.lines.specs.Lent.{with_states};
ghost use Rattle.lines.specs.Sound.{SoundStates, SoundLists, SoundWords};
ghost use Rattle.viterbi.specs.Answered.{Ready};
ghost use Rattle.score_tables.specs.Sound.{LabelsIn, WordsIn};
ghost use Rattle.labelling.specs.Labelled.{Labelled, LabelledAt, LentTables, small};

use refusals::Refusal;
use viterbi_end::Found;

// The room for the scores of a short line, and of any line: the most transitions, and the most states.
pub const FEW: usize = 256;

pub const MOST_TRANSITIONS: usize = 1024;

pub const MOST_STATES: usize = 4096;

// Whether small tables are enough for a line: clearing large ones would take longer than the line.
pub fn is_small(labels: usize, words: usize) -> bool
    requires { LabelsIn labels × WordsIn words }
    ensures { result ≡ small labels words }
{
    (labels * labels <= FEW) & (words * labels <= FEW)
}

// The labels by the scores of a line: 8 clears the front of the path.
fn decode_scores(
    labels: usize,
    words: usize,
    transitions: &[f64],
    states: &[f64],
    path: &mut [u32],
) -> Result<Found, Refusal>
    requires { Ready labels words transitions.now states.now path.old }
    ensures { Labelled labels words transitions.now states.now path.old result path.new }
{
    if let Err(late) = finished::check_scores(labels, words, transitions, states) {
        fronts::clear(path, words);
        return Err(late);
    }
    Ok(viterbi::decode_tables(labels, words, transitions, states, path))
}

// The labels of the line of so many words that begins at the word `first`, by its states, which are left in their table.
pub fn label_at(
    labels: usize,
    features: usize,
    kinds: &[u8],
    destinations: &[u32],
    weights: &[f64],
    lists: usize,
    starts: &[u32],
    entries: &[u32],
    begins: &[u32],
    ids: &[u32],
    values: &[f64],
    first: usize,
    words: usize,
    transitions: &[f64],
    states: &mut [f64],
    path: &mut [u32],
) -> Result<Found, Refusal>
    requires sound_states { SoundStates labels features kinds.now destinations.now weights.now }
    requires sound_lists { SoundLists lists starts.now entries.now features }
    requires sound_words { SoundWords (first + words) begins.now ids.now values.now }
    requires lent_tables { LentTables labels words transitions.now states.old path.old }
    ensures { let w = weights.now in
        ((rest : Model) (size : ℕ) →
        let m = with_states rest labels features kinds.now destinations.now lists starts.now entries.now in
        let line = line_was size begins ids values in
        LabelledAt m w line first words transitions.now path.old result states.new path.new) }
{
    compute_scores::score_line(
        labels,
        features,
        kinds,
        destinations,
        weights,
        lists,
        starts,
        entries,
        begins,
        ids,
        values,
        first,
        words,
        states,
    );
    decode_scores(labels, words, transitions, states, path)
}
