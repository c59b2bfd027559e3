// Epochs until training ends.
#![tactic(auto)]

ghost use Rattle.std.specs.Prelude.{false};
ghost use Rattle.lines.specs.Passes.{through};
ghost use Rattle.training.specs.Rules.{stops};
ghost use Rattle.training.specs.Visits.{visited};
ghost use Rattle.training.specs.Epochs.{Run, epoch_unless_over};
ghost use Rattle.prediction.specs.Tables.{training_model_at, training_model_was, training_data_at, training_data_was};
ghost use Rattle.parameters.specs.Trainers.{rule_of};
ghost use Rattle.updates.specs.Updating.{state_of};
ghost use Rattle.begin_and_end.specs.Ending.{Finished};
ghost use Rattle.epochs.specs.Running.{first_step, Runnable};

use begin_and_end::Ran;
use parameters::Trainer;
use prediction::Sizes;
use training::{Progress, Visit};

// Epochs, each with the order shuffled anew, until training ends or none is left.
pub fn run(
    trainer: Trainer,
    sizes: Sizes,
    kinds: &[u8],
    destinations: &[u32],
    sources: &[u32],
    starts: &[u32],
    entries: &[u32],
    label_starts: &[u32],
    label_entries: &[u32],
    lines: &[u32],
    begins: &[u32],
    ids: &[u32],
    values: &[f64],
    references: &[u32],
    shares: &[f64],
    allowed: u64,
    epsilon: f64,
    seed: u64,
    order: &mut [u32],
    weights: &mut [f64],
    beside: &mut [f64],
    truly: &mut [f64],
    predicted: &mut [f64],
) -> Ran
    requires { let m = training_model_at sizes kinds destinations sources starts entries label_starts label_entries in
        let d = training_data_at sizes lines begins ids values references shares in
        Runnable sizes m d allowed order.old weights.old beside.old truly.old predicted.old }
    ensures { let m = training_model_was sizes kinds destinations sources starts entries label_starts label_entries in
        let d = training_data_was sizes lines begins ids values references shares in
        let progress = epoch_unless_over (visited (rule_of trainer) m d) (stops (rule_of trainer) epsilon) sizes.instances in
        let first = state_of first_step weights.old beside.old in
        let begun : Run = record { state = first; deal = record { state = seed; order = order.old }; epochs = 0; over = false } in
        Finished result weights.new beside.new (through progress 0 allowed begun) }
{
    let n = sizes.instances;
    let mut progress = Progress {
        visit: Visit::Unchanged,
        visits: 0,
        updates: 0,
        loss: 0.0,
    };
    let mut g = seed;
    for e in 0..allowed {
        g = begin_and_end::deal(g, n, order);
        progress = one_epoch::epoch(
            trainer,
            sizes,
            kinds,
            destinations,
            sources,
            starts,
            entries,
            label_starts,
            label_entries,
            lines,
            begins,
            ids,
            values,
            references,
            shares,
            order,
            progress,
            weights,
            beside,
            truly,
            predicted,
        );
        if updates::ends(trainer, epsilon, n, progress) {
            return Ran {
                progress,
                epochs: e + 1,
            };
        }
    }
    Ran {
        progress,
        epochs: allowed,
    }
}
