// What a visit does before it learns: it labels an instance with the present weights and has the labels judged.
#![tactic(auto)]

ghost use Rattle.std.specs.Prelude.{◌≡◌, ◌*◌, ◌≤◌, length};
ghost use Rattle.lines.specs.Scored.{states_of, transitions_of};
ghost use Rattle.feature_gen.specs.Sound.{SoundModel};
ghost use Rattle.prediction.specs.Tables.{training_model_at, training_model_was, words_at, words_was, SoundInstance};
ghost use Rattle.judging.specs.Judged.{Judged};

use judging::Prediction;
use labelling::{FEW, MOST_STATES, MOST_TRANSITIONS};

// The counts of a trainer's tables.
#[derive(Clone, Copy)]
pub struct Sizes {
    pub labels: usize,
    pub features: usize,
    pub attribute_lists: usize,
    pub label_lists: usize,
    pub attribute_entries: usize,
    pub label_entries: usize,
    pub instances: usize,
    pub words: usize,
    pub attributes: usize,
}

// The scores in two lent tables that are exactly as long as they have to be.
fn predict_in(
    sizes: Sizes,
    kinds: &[u8],
    destinations: &[u32],
    sources: &[u32],
    weights: &[f64],
    starts: &[u32],
    entries: &[u32],
    label_starts: &[u32],
    label_entries: &[u32],
    begins: &[u32],
    ids: &[u32],
    values: &[f64],
    first: usize,
    words: usize,
    references: &[u32],
    transitions: &mut [f64],
    states: &mut [f64],
    path: &mut [u32],
) -> Prediction
    requires sound_model { SoundModel (training_model_at sizes kinds destinations sources starts entries label_starts label_entries) }
    requires sound_instance { SoundInstance sizes.labels (words_at sizes begins ids values) first words references.now }
    requires weights_len { (length weights.now ≡ sizes.features) × (length path.old ≡ words) }
    requires transitions_len { (length transitions.old ≡ sizes.labels * sizes.labels) × (length states.old ≡ words * sizes.labels) }
    ensures { let m = training_model_was sizes kinds destinations sources starts entries label_starts label_entries in
        let line = words_was sizes begins ids values in
        let w = weights.now in
        Judged sizes.labels words (transitions_of m w) (states_of m w line first words) references.now path.new result }
{
    let labels = sizes.labels;
    let features = sizes.features;
    compute_scores::score_transitions(
        labels,
        features,
        kinds,
        destinations,
        sources,
        weights,
        sizes.label_lists,
        label_starts,
        label_entries,
        transitions,
    );
    let answer = labelling::label_at(
        labels,
        features,
        kinds,
        destinations,
        weights,
        sizes.attribute_lists,
        starts,
        entries,
        begins,
        ids,
        values,
        first,
        words,
        transitions,
        states,
        path,
    );
    judging::judge(labels, words, references, transitions, states, path, answer)
}

// The scores in arrays of these sizes: small ones for a short line, since clearing large ones would take longer than the line;
// for any other the most words, with the most labels each.
fn predict_within<const TRANSITIONS: usize, const STATES: usize>(
    sizes: Sizes,
    kinds: &[u8],
    destinations: &[u32],
    sources: &[u32],
    weights: &[f64],
    starts: &[u32],
    entries: &[u32],
    label_starts: &[u32],
    label_entries: &[u32],
    begins: &[u32],
    ids: &[u32],
    values: &[f64],
    first: usize,
    words: usize,
    references: &[u32],
    path: &mut [u32],
) -> Prediction
    requires sound_model { SoundModel (training_model_at sizes kinds destinations sources starts entries label_starts label_entries) }
    requires sound_instance { SoundInstance sizes.labels (words_at sizes begins ids values) first words references.now }
    requires weights_len { (length weights.now ≡ sizes.features) × (length path.old ≡ words) }
    requires labels_bound { (sizes.labels * sizes.labels ≤ TRANSITIONS) × (words * sizes.labels ≤ STATES) }
    requires sizes_bound { (TRANSITIONS ≤ MOST_TRANSITIONS) × (STATES ≤ MOST_STATES) }
    ensures { let m = training_model_was sizes kinds destinations sources starts entries label_starts label_entries in
        let line = words_was sizes begins ids values in
        let w = weights.now in
        Judged sizes.labels words (transitions_of m w) (states_of m w line first words) references.now path.new result }
{
    let mut transitions = [0.0; TRANSITIONS];
    let mut states = [0.0; STATES];
    let square = sizes.labels * sizes.labels;
    let rows = words * sizes.labels;
    predict_in(
        sizes,
        kinds,
        destinations,
        sources,
        weights,
        starts,
        entries,
        label_starts,
        label_entries,
        begins,
        ids,
        values,
        first,
        words,
        references,
        &mut transitions[..square],
        &mut states[..rows],
        path,
    )
}

// The predicted path of the instance whose words begin at `first`, and what a visit has to know of it.
pub fn predict(
    sizes: Sizes,
    kinds: &[u8],
    destinations: &[u32],
    sources: &[u32],
    weights: &[f64],
    starts: &[u32],
    entries: &[u32],
    label_starts: &[u32],
    label_entries: &[u32],
    begins: &[u32],
    ids: &[u32],
    values: &[f64],
    first: usize,
    words: usize,
    references: &[u32],
    path: &mut [u32],
) -> Prediction
    requires sound_model { SoundModel (training_model_at sizes kinds destinations sources starts entries label_starts label_entries) }
    requires sound_instance { SoundInstance sizes.labels (words_at sizes begins ids values) first words references.now }
    requires weights_len { (length weights.now ≡ sizes.features) × (length path.old ≡ words) }
    ensures { let m = training_model_was sizes kinds destinations sources starts entries label_starts label_entries in
        let line = words_was sizes begins ids values in
        let w = weights.now in
        Judged sizes.labels words (transitions_of m w) (states_of m w line first words) references.now path.new result }
{
    if labelling::is_small(sizes.labels, words) {
        predict_within::<FEW, FEW>(
            sizes,
            kinds,
            destinations,
            sources,
            weights,
            starts,
            entries,
            label_starts,
            label_entries,
            begins,
            ids,
            values,
            first,
            words,
            references,
            path,
        )
    } else {
        predict_within::<MOST_TRANSITIONS, MOST_STATES>(
            sizes,
            kinds,
            destinations,
            sources,
            weights,
            starts,
            entries,
            label_starts,
            label_entries,
            begins,
            ids,
            values,
            first,
            words,
            references,
            path,
        )
    }
}
