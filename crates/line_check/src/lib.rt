// The checks of a call on a single line under a model: document 01's refusals 1 and 4, then the sooner of the model's check,
// the line's, and that of what else is lent. A trainer's words and labels are checked by the same functions.
#![tactic(auto)]

ghost use Rattle.std.specs.Prelude.{◌≡◌};
ghost use Rattle.refusal_rows.specs.Limits.{any_broken};
ghost use Rattle.feature_gen.specs.Lent.{model_was};
ghost use Rattle.lines.specs.Entry.{line_was};
ghost use Rattle.line_check.specs.Rows.{score_rooms, scoring_checked, counting_checked};
ghost use Rattle.line_check.specs.Parts.{line_sized, line_checked, labels_checked};

use feature_gen::Counts;
use refusals::Refusal;

pub const MOST_ATTRIBUTES: u32 = 4194304;

// 2 of a line: what can be said of it before any table is read.
#[tactic(auto, unfolding(crate::specs::Parts::line_sized))]
fn check_sizes(
    words: u32,
    attributes: u32,
    begins: &[u32],
    ids: &[u32],
    values: &[f64],
) -> Result<(), Refusal>
    ensures { result ≡ line_sized words (line_was attributes begins ids values) }
{
    let broken = (MOST_ATTRIBUTES < attributes)
        | (begins.len() < words as usize + 1)
        | (ids.len() < attributes as usize)
        | (values.len() < attributes as usize);
    refusals::refuse_if(2, 0, broken)
}

// 2, 3 and 6 of so many words in flat tables: those of a line, or of all lines of a trainer.
#[tactic(auto, using(refusals::proofs::Laws::handed), unfolding(refusals::specs::Refusals::or_next_of, refusal_rows::specs::Parts::part_checked, crate::specs::Parts::line_sized, crate::specs::Parts::line_checked))]
pub fn check_line(
    words: u32,
    attributes: u32,
    begins: &[u32],
    ids: &[u32],
    values: &[f64],
) -> Result<(), Refusal>
    ensures { result ≡ line_checked words (line_was attributes begins ids values) }
{
    check_sizes(words, attributes, begins, ids, values)?;
    table_checks::check_starts(begins, words as usize, attributes)?;
    table_checks::check_numbers(values, attributes as usize)
}

// 2 and 5 of a label for each of so many words.
#[tactic(auto, using(refusals::proofs::Laws::handed), unfolding(refusals::specs::Refusals::or_next_of, refusal_rows::specs::Parts::part_checked, crate::specs::Parts::labels_checked))]
pub fn check_labels(labels: u32, words: u32, path: &[u32]) -> Result<(), Refusal>
    ensures { result ≡ labels_checked labels words path.now }
{
    let n = words as usize;
    refusals::refuse_if(2, 0, refusals::is_short(path.len(), n))?;
    table_checks::check_ids(path, n, labels)
}

// 2: whether a buffer for the scores is too short.
fn lacks_scores(labels: u32, words: u32, transitions: usize, states: usize) -> bool
    ensures { result ≡ any_broken (score_rooms labels words transitions states) }
{
    (transitions < score_tables::entries(labels, labels))
        | (states < score_tables::entries(words, labels))
}

// Whether a line can be scored under a model into buffers of these lengths.
pub fn check_scoring(
    labels: u32,
    counts: Counts,
    kinds: &[u8],
    destinations: &[u32],
    sources: &[u32],
    weights: &[f64],
    attribute_starts: &[u32],
    attribute_entries: &[u32],
    label_starts: &[u32],
    label_entries: &[u32],
    words: u32,
    attributes: u32,
    begins: &[u32],
    ids: &[u32],
    values: &[f64],
    transitions: usize,
    states: usize,
) -> Result<(), Refusal>
    ensures { let m = model_was labels counts kinds destinations sources attribute_starts attribute_entries label_starts label_entries in
        let l = line_was attributes begins ids values in
        result ≡ scoring_checked (record { model = m; weights = weights.now; words = words; line = l; transitions = transitions; states = states }) }
{
    let model = feature_gen::check_weighted(
        labels,
        counts,
        kinds,
        destinations,
        sources,
        weights,
        attribute_starts,
        attribute_entries,
        label_starts,
        label_entries,
    );
    let line = check_line(words, attributes, begins, ids, values);
    let tables = refusals::sooner(model, line);
    let room = refusals::refuse_if(2, 0, lacks_scores(labels, words, transitions, states));
    let scoring = refusals::sooner(tables, room);
    refusals::or_next(score_tables::check_bounds(labels, words), scoring)
}

// Whether the features of a line can be counted under labels into a buffer of this length.
pub fn check_counting(
    labels: u32,
    counts: Counts,
    kinds: &[u8],
    destinations: &[u32],
    sources: &[u32],
    attribute_starts: &[u32],
    attribute_entries: &[u32],
    label_starts: &[u32],
    label_entries: &[u32],
    words: u32,
    attributes: u32,
    begins: &[u32],
    ids: &[u32],
    values: &[f64],
    path: &[u32],
    features: usize,
) -> Result<(), Refusal>
    ensures { let m = model_was labels counts kinds destinations sources attribute_starts attribute_entries label_starts label_entries in
        let l = line_was attributes begins ids values in
        result ≡ counting_checked (record { model = m; words = words; line = l; path = path.now; features = features }) }
{
    let model = feature_gen::check_tables(
        labels,
        counts,
        kinds,
        destinations,
        sources,
        attribute_starts,
        attribute_entries,
        label_starts,
        label_entries,
    );
    let line = check_line(words, attributes, begins, ids, values);
    let tables = refusals::sooner(model, line);
    let labelled = refusals::sooner(tables, check_labels(labels, words, path));
    let short = refusals::is_short(features, counts.features as usize);
    let room = refusals::refuse_if(2, 0, short);
    let counting = refusals::sooner(labelled, room);
    refusals::or_next(score_tables::check_bounds(labels, words), counting)
}
