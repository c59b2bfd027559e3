// A whole training, over result and work tables that are exactly as long as they have to be: its beginning, its epochs, its end.
#![tactic(auto)]

ghost use Rattle.std.specs.Prelude.{◌≡◌};
ghost use Rattle.training.specs.Epochs.{TrainingResult, trained};
ghost use Rattle.prediction.specs.Tables.{training_model_at, training_model_was, training_data_at, training_data_was};
ghost use Rattle.parameters.specs.Trainers.{rule_of};
ghost use Rattle.begin_and_end.specs.Ending.{Swept};
ghost use Rattle.learning.specs.Trainable.{Trainable};

use parameters::Trainer;
use prediction::Sizes;
use refusals::Refusal;
use training::Trained;

// Training, from the tables as they are lent to the result.
pub fn train(
    trainer: Trainer,
    sizes: Sizes,
    kinds: &[u8],
    destinations: &[u32],
    sources: &[u32],
    starts: &[u32],
    entries: &[u32],
    label_starts: &[u32],
    label_entries: &[u32],
    lines: &[u32],
    begins: &[u32],
    ids: &[u32],
    values: &[f64],
    references: &[u32],
    shares: &[f64],
    allowed: u64,
    epsilon: f64,
    seed: u64,
    order: &mut [u32],
    weights: &mut [f64],
    beside: &mut [f64],
    truly: &mut [f64],
    predicted: &mut [f64],
) -> Result<Trained, Refusal>
    requires { let m = training_model_at sizes kinds destinations sources starts entries label_starts label_entries in
        let d = training_data_at sizes lines begins ids values references shares in
        Trainable sizes m d allowed order.old weights.old beside.old truly.old predicted.old }
    ensures made_after { let m = training_model_was sizes kinds destinations sources starts entries label_starts label_entries in
        let d = training_data_was sizes lines begins ids values references shares in
        let made : TrainingResult = record { answer = result; weights = weights.new } in
        made ≡ trained (rule_of trainer) (record { epochs = allowed; epsilon = epsilon; seed = seed }) m d }
    ensures swept { Swept sizes.features sizes.instances order.new beside.new truly.new predicted.new }
{
    let features = sizes.features;
    let instances = sizes.instances;
    begin_and_end::begin(trainer, features, instances, order, weights, beside);
    let ran = epochs::run(
        trainer,
        sizes,
        kinds,
        destinations,
        sources,
        starts,
        entries,
        label_starts,
        label_entries,
        lines,
        begins,
        ids,
        values,
        references,
        shares,
        allowed,
        epsilon,
        seed,
        order,
        weights,
        beside,
        truly,
        predicted,
    );
    let answer = begin_and_end::conclude(trainer, features, ran, beside, weights);
    begin_and_end::sweep(features, instances, order, beside, truly, predicted);
    answer
}
