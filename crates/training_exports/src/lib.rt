// The three trainers, for programs in C and Rust. Each is thin: one call of the crate trainers, and its answer as numbers.
#![tactic(auto)]

ghost use Rattle.feature_gen.specs.Lent.{model_was};
ghost use Rattle.lines.specs.Entry.{data_was};
ghost use Rattle.parameters.specs.declared.Method.{Method};
ghost use Rattle.trainers.specs.Promise.{Given};
ghost use Rattle.trainers.specs.Lent.{buffers_of};
ghost use Rattle.training_exports.specs.Trains.{Trains};

use answers::trainings::Trained;
use feature_gen::Counts;
use lines::Totals;
use parameters::{Arow, Method, Passive, Perceptron};

// The averaged perceptron.
#[unsafe(no_mangle)]
pub extern "C" fn bodkinbloom_averaged_perceptron(
    parameters: Perceptron,
    labels: u32,
    counts: Counts,
    kinds: &[u8],
    destinations: &[u32],
    sources: &[u32],
    attribute_starts: &[u32],
    attribute_entries: &[u32],
    label_starts: &[u32],
    label_entries: &[u32],
    totals: Totals,
    line_starts: &[u32],
    word_starts: &[u32],
    ids: &[u32],
    values: &[f64],
    references: &[u32],
    instance_weights: &[f64],
    weights: &mut [f64],
    running_sums: &mut [f64],
    true_counts: &mut [f64],
    predicted_counts: &mut [f64],
    order: &mut [u32],
) -> Trained
    ensures { let given : Given = record {
      model = model_was labels counts kinds destinations sources attribute_starts attribute_entries label_starts label_entries;
      corpus = data_was totals line_starts word_starts ids values references instance_weights;
    } in
        let before = buffers_of weights.old running_sums.old true_counts.old predicted_counts.old order.old in
        let after = buffers_of weights.new running_sums.new true_counts.new predicted_counts.new order.new in
        Trains (Method.AveragedPerceptron parameters) given before (record { answer = result; after = after }) }
{
    Trained::from(trainers::train(
        Method::AveragedPerceptron(parameters),
        labels,
        counts,
        kinds,
        destinations,
        sources,
        attribute_starts,
        attribute_entries,
        label_starts,
        label_entries,
        totals,
        line_starts,
        word_starts,
        ids,
        values,
        references,
        instance_weights,
        weights,
        running_sums,
        true_counts,
        predicted_counts,
        order,
    ))
}

// Passive-aggressive, of the variant and with the switches of its parameters.
#[unsafe(no_mangle)]
pub extern "C" fn bodkinbloom_passive_aggressive(
    parameters: Passive,
    labels: u32,
    counts: Counts,
    kinds: &[u8],
    destinations: &[u32],
    sources: &[u32],
    attribute_starts: &[u32],
    attribute_entries: &[u32],
    label_starts: &[u32],
    label_entries: &[u32],
    totals: Totals,
    line_starts: &[u32],
    word_starts: &[u32],
    ids: &[u32],
    values: &[f64],
    references: &[u32],
    instance_weights: &[f64],
    weights: &mut [f64],
    running_sums: &mut [f64],
    true_counts: &mut [f64],
    predicted_counts: &mut [f64],
    order: &mut [u32],
) -> Trained
    ensures { let given : Given = record {
      model = model_was labels counts kinds destinations sources attribute_starts attribute_entries label_starts label_entries;
      corpus = data_was totals line_starts word_starts ids values references instance_weights;
    } in
        let before = buffers_of weights.old running_sums.old true_counts.old predicted_counts.old order.old in
        let after = buffers_of weights.new running_sums.new true_counts.new predicted_counts.new order.new in
        Trains (Method.PassiveAggressive parameters) given before (record { answer = result; after = after }) }
{
    Trained::from(trainers::train(
        Method::PassiveAggressive(parameters),
        labels,
        counts,
        kinds,
        destinations,
        sources,
        attribute_starts,
        attribute_entries,
        label_starts,
        label_entries,
        totals,
        line_starts,
        word_starts,
        ids,
        values,
        references,
        instance_weights,
        weights,
        running_sums,
        true_counts,
        predicted_counts,
        order,
    ))
}

// AROW, adaptive regularization of weights.
#[unsafe(no_mangle)]
pub extern "C" fn bodkinbloom_arow(
    parameters: Arow,
    labels: u32,
    counts: Counts,
    kinds: &[u8],
    destinations: &[u32],
    sources: &[u32],
    attribute_starts: &[u32],
    attribute_entries: &[u32],
    label_starts: &[u32],
    label_entries: &[u32],
    totals: Totals,
    line_starts: &[u32],
    word_starts: &[u32],
    ids: &[u32],
    values: &[f64],
    references: &[u32],
    instance_weights: &[f64],
    weights: &mut [f64],
    covariance: &mut [f64],
    true_counts: &mut [f64],
    predicted_counts: &mut [f64],
    order: &mut [u32],
) -> Trained
    ensures { let given : Given = record {
      model = model_was labels counts kinds destinations sources attribute_starts attribute_entries label_starts label_entries;
      corpus = data_was totals line_starts word_starts ids values references instance_weights;
    } in
        let before = buffers_of weights.old covariance.old true_counts.old predicted_counts.old order.old in
        let after = buffers_of weights.new covariance.new true_counts.new predicted_counts.new order.new in
        Trains (Method.Arow parameters) given before (record { answer = result; after = after }) }
{
    let trained = trainers::train(
        Method::Arow(parameters),
        labels,
        counts,
        kinds,
        destinations,
        sources,
        attribute_starts,
        attribute_entries,
        label_starts,
        label_entries,
        totals,
        line_starts,
        word_starts,
        ids,
        values,
        references,
        instance_weights,
        weights,
        covariance,
        true_counts,
        predicted_counts,
        order,
    );
    Trained::from(trained)
}
