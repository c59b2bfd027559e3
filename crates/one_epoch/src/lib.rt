// An epoch's visits, in the order of the shuffle.
#![tactic(auto)]

ghost use Rattle.training.specs.Visits.{visited};
ghost use Rattle.training.specs.Epochs.{epoch_over};
ghost use Rattle.prediction.specs.Tables.{training_model_at, training_model_was, training_data_at, training_data_was};
ghost use Rattle.parameters.specs.Trainers.{rule_of};
ghost use Rattle.updates.specs.Updating.{state_of, Agreed};
ghost use Rattle.one_epoch.specs.Visited.{Ahead, CountedIn};

use parameters::Trainer;
use prediction::Sizes;
use training::{Progress, Visit};

// An epoch's visits: the first that is refused ends it.
pub fn epoch(
    trainer: Trainer,
    sizes: Sizes,
    kinds: &[u8],
    destinations: &[u32],
    sources: &[u32],
    starts: &[u32],
    entries: &[u32],
    label_starts: &[u32],
    label_entries: &[u32],
    lines: &[u32],
    begins: &[u32],
    ids: &[u32],
    values: &[f64],
    references: &[u32],
    shares: &[f64],
    order: &[u32],
    s: Progress,
    weights: &mut [f64],
    beside: &mut [f64],
    truly: &mut [f64],
    predicted: &mut [f64],
) -> Progress
    requires { let m = training_model_at sizes kinds destinations sources starts entries label_starts label_entries in
        let d = training_data_at sizes lines begins ids values references shares in
        Ahead sizes m d order.now s weights.old beside.old truly.old predicted.old }
    ensures fact { let m = training_model_was sizes kinds destinations sources starts entries label_starts label_entries in
        let d = training_data_was sizes lines begins ids values references shares in
        let before = state_of s weights.old beside.old in
        let after = state_of result weights.new beside.new in
        Agreed after (epoch_over (visited (rule_of trainer) m d) order.now sizes.instances before) }
    ensures counted_in { CountedIn sizes.instances s result }
{
    let n = sizes.instances;
    let mut progress = Progress {
        visit: Visit::Unchanged,
        visits: s.visits,
        updates: s.updates,
        loss: 0.0,
    };
    for j in 0..n {
        let i = lines::at(order, j);
        progress = visits::visit(
            trainer,
            sizes,
            kinds,
            destinations,
            sources,
            starts,
            entries,
            label_starts,
            label_entries,
            lines,
            begins,
            ids,
            values,
            references,
            shares,
            i,
            progress,
            weights,
            beside,
            truly,
            predicted,
        );
        let v = progress.visit;
        if updates::is_refused(v) {
            return progress;
        }
    }
    progress
}
