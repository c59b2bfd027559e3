// One visit, shared by the three trainers: predict with the present weights, compare with the reference, update. What differs
// between the trainers is the update alone, in the crate updates.
#![tactic(auto)]

ghost use Rattle.training.specs.Visits.{visited};
ghost use Rattle.prediction.specs.Tables.{training_model_at, training_model_was, words_at, words_was, training_data_at, training_data_was};
ghost use Rattle.parameters.specs.Trainers.{rule_of};
ghost use Rattle.updates.specs.Updating.{state_of, Agreed, VisitCounted, settled};
ghost use Rattle.visits.specs.Visitable.{Visitable, Correctable, mistake_of};

use judging::Prediction;
use parameters::Trainer;
use prediction::Sizes;
use training::Progress;

// The labels differ: the true counts, the predicted counts, then the update.
fn correct(
    trainer: Trainer,
    sizes: Sizes,
    kinds: &[u8],
    destinations: &[u32],
    sources: &[u32],
    starts: &[u32],
    entries: &[u32],
    label_starts: &[u32],
    label_entries: &[u32],
    begins: &[u32],
    ids: &[u32],
    values: &[f64],
    first: usize,
    words: usize,
    references: &[u32],
    path: &[u32],
    weight: f64,
    p: Prediction,
    s: Progress,
    weights: &mut [f64],
    beside: &mut [f64],
    truly: &mut [f64],
    predicted: &mut [f64],
) -> Progress
    requires { let m = training_model_at sizes kinds destinations sources starts entries label_starts label_entries in
        let w = words_at sizes begins ids values in
        Correctable sizes m w first words references.now path.now p s weights.old beside.old truly.old predicted.old }
    ensures fact { let m = training_model_was sizes kinds destinations sources starts entries label_starts label_entries in
        let w = words_was sizes begins ids values in
        let k = mistake_of m w first words references.now path.now p weight s.visits in
        let before = state_of s weights.old beside.old in
        Agreed (state_of result weights.new beside.new) (settled (rule_of trainer) sizes.features k before) }
    ensures visit_counted { VisitCounted s result }
{
    let features = sizes.features;
    extract_features::count_line(
        features,
        kinds,
        destinations,
        sources,
        sizes.attribute_lists,
        starts,
        entries,
        sizes.label_lists,
        label_starts,
        label_entries,
        begins,
        ids,
        values,
        first,
        words,
        references,
        truly,
    );
    extract_features::count_line(
        features,
        kinds,
        destinations,
        sources,
        sizes.attribute_lists,
        starts,
        entries,
        sizes.label_lists,
        label_starts,
        label_entries,
        begins,
        ids,
        values,
        first,
        words,
        path,
        predicted,
    );
    updates::learn(
        trainer,
        features,
        words as u32,
        weight,
        p,
        s,
        truly,
        predicted,
        weights,
        beside,
    )
}

// The visit of instance i.
pub fn visit(
    trainer: Trainer,
    sizes: Sizes,
    kinds: &[u8],
    destinations: &[u32],
    sources: &[u32],
    starts: &[u32],
    entries: &[u32],
    label_starts: &[u32],
    label_entries: &[u32],
    lines: &[u32],
    begins: &[u32],
    ids: &[u32],
    values: &[f64],
    references: &[u32],
    shares: &[f64],
    i: usize,
    s: Progress,
    weights: &mut [f64],
    beside: &mut [f64],
    truly: &mut [f64],
    predicted: &mut [f64],
) -> Progress
    requires { let m = training_model_at sizes kinds destinations sources starts entries label_starts label_entries in
        let d = training_data_at sizes lines begins ids values references shares in
        Visitable sizes m d i s weights.old beside.old truly.old predicted.old }
    ensures fact { let m = training_model_was sizes kinds destinations sources starts entries label_starts label_entries in
        let d = training_data_was sizes lines begins ids values references shares in
        let before = state_of s weights.old beside.old in
        Agreed (state_of result weights.new beside.new) (visited (rule_of trainer) m d i before) }
    ensures visit_counted { VisitCounted s result }
{
    let first = lines::at(lines, i);
    let end = lines::at(lines, i + 1);
    let words = end - first;
    let reference = &references[first..end];
    let mut path = [0u32; 128];
    let p = prediction::predict(
        sizes,
        kinds,
        destinations,
        sources,
        weights,
        starts,
        entries,
        label_starts,
        label_entries,
        begins,
        ids,
        values,
        first,
        words,
        reference,
        &mut path[..words],
    );
    if let Some(progress) = updates::look(p.finite, p.wrong, s) {
        return progress;
    }
    correct(
        trainer,
        sizes,
        kinds,
        destinations,
        sources,
        starts,
        entries,
        label_starts,
        label_entries,
        begins,
        ids,
        values,
        first,
        words,
        reference,
        &path[..words],
        shares[i],
        p,
        s,
        weights,
        beside,
        truly,
        predicted,
    )
}
