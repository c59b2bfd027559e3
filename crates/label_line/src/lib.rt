// Labelling a line under a model: its scores, which stay inside, then the decoded path with its sum and lead.
#![tactic(auto)]

ghost use Rattle.std.specs.Prelude.{◌≡◌, ◌*◌, ◌≤◌, length};
ghost use Rattle.lines.specs.Scored.{states_of, transitions_of};
ghost use Rattle.lines.specs.Entry.{line_at, line_was};
ghost use Rattle.feature_gen.specs.Lent.{model_of, model_at, model_was};
ghost use Rattle.labelling.specs.Labelled.{Labelled};
ghost use Rattle.label_line.specs.Rows.{label_checked};
ghost use Rattle.label_line.specs.Promise.{SoundLabelling, Promised};

use feature_gen::Counts;
use labelling::{FEW, MOST_STATES, MOST_TRANSITIONS};
use refusals::Refusal;
use viterbi_end::Found;

// 1 and 4, then the sooner of the model's check, the line's, and 2 of the path's buffer: the scores have room.
pub fn check_line(
    labels: u32,
    words: u32,
    counts: Counts,
    kinds: &[u8],
    destinations: &[u32],
    sources: &[u32],
    weights: &[f64],
    attribute_starts: &[u32],
    attribute_entries: &[u32],
    label_starts: &[u32],
    label_entries: &[u32],
    attributes: u32,
    begins: &[u32],
    ids: &[u32],
    values: &[f64],
    path: usize,
) -> Result<(), Refusal>
    ensures { let m = model_was labels counts kinds destinations sources attribute_starts attribute_entries label_starts label_entries in
        let l = line_was attributes begins ids values in
        result ≡ label_checked (record { model = m; weights = weights.now; words = words; line = l }) path }
{
    score_tables::check_bounds(labels, words)?;
    let model = feature_gen::check_weighted(
        labels,
        counts,
        kinds,
        destinations,
        sources,
        weights,
        attribute_starts,
        attribute_entries,
        label_starts,
        label_entries,
    );
    let line = line_check::check_line(words, attributes, begins, ids, values);
    let tables = refusals::sooner(model, line);
    let room = refusals::refuse_if(2, 0, refusals::is_short(path, words as usize));
    refusals::sooner(tables, room)
}

// The labels of a line that is accepted, its scores in two lent tables that are exactly as long as they have to be.
fn label_in(
    labels: u32,
    counts: Counts,
    kinds: &[u8],
    destinations: &[u32],
    sources: &[u32],
    weights: &[f64],
    attribute_starts: &[u32],
    attribute_entries: &[u32],
    label_starts: &[u32],
    label_entries: &[u32],
    words: u32,
    attributes: u32,
    begins: &[u32],
    ids: &[u32],
    values: &[f64],
    transitions: &mut [f64],
    states: &mut [f64],
    path: &mut [u32],
) -> Result<Found, Refusal>
    requires fact { let m = model_at labels counts kinds destinations sources attribute_starts attribute_entries label_starts label_entries in
        let line = line_at attributes begins ids values in
        SoundLabelling (record { model = m; weights = weights.now; words = words; line = line }) path.old }
    requires transitions_len { (length transitions.old ≡ labels * labels) × (length states.old ≡ words * labels) }
    ensures { let m = model_was labels counts kinds destinations sources attribute_starts attribute_entries label_starts label_entries in
        let line = line_was attributes begins ids values in
        let w = weights.now in
        Labelled labels words (transitions_of m w) (states_of m w line 0 words) path.old result path.new }
{
    let width = labels as usize;
    let features = counts.features as usize;
    compute_scores::score_transitions(
        width,
        features,
        kinds,
        destinations,
        sources,
        weights,
        counts.label_lists as usize,
        label_starts,
        label_entries,
        transitions,
    );
    labelling::label_at(
        width,
        features,
        kinds,
        destinations,
        weights,
        counts.attribute_lists as usize,
        attribute_starts,
        attribute_entries,
        begins,
        ids,
        values,
        0,
        words as usize,
        transitions,
        states,
        path,
    )
}

// The scores of a line in arrays of these sizes: small ones for a short line, since clearing large ones would take longer than the
// line; for any other the most words, with the most labels each.
fn label_within<const TRANSITIONS: usize, const STATES: usize>(
    labels: u32,
    counts: Counts,
    kinds: &[u8],
    destinations: &[u32],
    sources: &[u32],
    weights: &[f64],
    attribute_starts: &[u32],
    attribute_entries: &[u32],
    label_starts: &[u32],
    label_entries: &[u32],
    words: u32,
    attributes: u32,
    begins: &[u32],
    ids: &[u32],
    values: &[f64],
    path: &mut [u32],
) -> Result<Found, Refusal>
    requires fact { let m = model_at labels counts kinds destinations sources attribute_starts attribute_entries label_starts label_entries in
        let line = line_at attributes begins ids values in
        SoundLabelling (record { model = m; weights = weights.now; words = words; line = line }) path.old }
    requires labels_bound { (labels * labels ≤ TRANSITIONS) × (words * labels ≤ STATES) }
    requires sizes_bound { (TRANSITIONS ≤ MOST_TRANSITIONS) × (STATES ≤ MOST_STATES) }
    ensures { let m = model_was labels counts kinds destinations sources attribute_starts attribute_entries label_starts label_entries in
        let line = line_was attributes begins ids values in
        let w = weights.now in
        Labelled labels words (transitions_of m w) (states_of m w line 0 words) path.old result path.new }
{
    let mut transitions = [0.0; TRANSITIONS];
    let mut states = [0.0; STATES];
    let square = score_tables::entries(labels, labels);
    let rows = score_tables::entries(words, labels);
    label_in(
        labels,
        counts,
        kinds,
        destinations,
        sources,
        weights,
        attribute_starts,
        attribute_entries,
        label_starts,
        label_entries,
        words,
        attributes,
        begins,
        ids,
        values,
        &mut transitions[..square],
        &mut states[..rows],
        path,
    )
}

// The labels of a line, at the front of `path`, with the sum and the lead; or the refusal.
pub fn label_line(
    labels: u32,
    counts: Counts,
    kinds: &[u8],
    destinations: &[u32],
    sources: &[u32],
    weights: &[f64],
    attribute_starts: &[u32],
    attribute_entries: &[u32],
    label_starts: &[u32],
    label_entries: &[u32],
    words: u32,
    attributes: u32,
    begins: &[u32],
    ids: &[u32],
    values: &[f64],
    path: &mut [u32],
) -> Result<Found, Refusal>
    ensures { let m = model_was labels counts kinds destinations sources attribute_starts attribute_entries label_starts label_entries in
        let line = line_was attributes begins ids values in
        Promised (record { model = m; weights = weights.now; words = words; line = line }) path.old (record { answer = result; path = path.new }) }
{
    let checked = check_line(
        labels,
        words,
        counts,
        kinds,
        destinations,
        sources,
        weights,
        attribute_starts,
        attribute_entries,
        label_starts,
        label_entries,
        attributes,
        begins,
        ids,
        values,
        path.len(),
    );
    // Not by `?`: the edit `place_lost` changes the refusal that is handed on here.
    if let Err(why) = checked {
        return Err(why);
    }
    if labelling::is_small(labels as usize, words as usize) {
        label_within::<FEW, FEW>(
            labels,
            counts,
            kinds,
            destinations,
            sources,
            weights,
            attribute_starts,
            attribute_entries,
            label_starts,
            label_entries,
            words,
            attributes,
            begins,
            ids,
            values,
            path,
        )
    } else {
        label_within::<MOST_TRANSITIONS, MOST_STATES>(
            labels,
            counts,
            kinds,
            destinations,
            sources,
            weights,
            attribute_starts,
            attribute_entries,
            label_starts,
            label_entries,
            words,
            attributes,
            begins,
            ids,
            values,
            path,
        )
    }
}
