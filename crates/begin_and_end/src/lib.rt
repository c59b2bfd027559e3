// How a training begins and ends: the tables at the start, the order of an epoch, the final averaging, the answer, and the
// zeroing of what is not the result.
#![tactic(auto)]

ghost use Rattle.std.specs.Prelude.{◌≡◌, cond, ℕ, ◌≤◌, ◌<◌, length, Float};
ghost use Rattle.shuffle.specs.Shuffle.{Deal, shuffled};
ghost use Rattle.lines.specs.Passes.{through};
ghost use Rattle.lines.specs.Tables.{Model};
ghost use Rattle.lines.specs.Data.{Data};
ghost use Rattle.refusals.specs.Bounds.{the_instances, most};
ghost use Rattle.training.specs.Counter.{most_visits};
ghost use Rattle.training.specs.Rules.{Learned, beside_at_first, averaged_at, averaged_by};
ghost use Rattle.training.specs.Epochs.{Settings, Run, TrainingResult, finished};
ghost use Rattle.parameters.specs.Trainers.{rule_of};
ghost use Rattle.begin_and_end.specs.Ending.{Begun, Swept, AveragedAs, Finished};

use parameters::Trainer;
use refusals::Refusal;
use training::{Progress, Trained, Visit};

// What a run of epochs comes to: the last progress, and how many epochs were run.
#[derive(Clone, Copy)]
pub struct Ran {
    pub progress: Progress,
    pub epochs: u64,
}

// The table beside the weights starts at 0, the covariance at the variance.
fn first_beside(trainer: Trainer) -> f64
    ensures { result ≡ beside_at_first (rule_of trainer) }
{
    match trainer {
        Trainer::Perceptron => 0.0,
        Trainer::Passive { .. } => 0.0,
        Trainer::Arow { variance, gamma: _ } => variance,
    }
}

// Weights at 0, and the order 0 to N−1.
pub fn begin(
    trainer: Trainer,
    features: usize,
    instances: usize,
    order: &mut [u32],
    weights: &mut [f64],
    beside: &mut [f64],
)
    requires { (instances ≤ most the_instances) × (length order.old ≡ instances) × (length weights.old ≡ features) × (length beside.old ≡ features) }
    ensures { Begun (rule_of trainer) features instances order.new weights.new beside.new }
{
    training_tables::count_up(order, instances as u32);
    fronts::fill(weights, features, 0.0);
    fronts::fill(beside, features, first_beside(trainer));
}

// An epoch begins: the order of the epoch before is shuffled. The answer is the generator's state to go on with.
pub fn deal(state: u64, n: usize, order: &mut [u32]) -> u64
    requires { (0 < n) × (n ≤ most the_instances) × (n ≤ length order.old) }
    ensures { ◌≡◌ {A = Deal} (record { state = result; order = order.new }) (shuffled n (record { state = state; order = order.old })) }
{
    shuffle::shuffle(state, n, order)
}

// Whether the trained weights are averaged.
fn is_averaging(trainer: Trainer) -> bool
    ensures { (features : ℕ) (counter : Float) (s : Learned) → averaged_by (rule_of trainer) features counter s ≡ cond result (through (averaged_at counter s.beside) 0 features s.weights) s.weights }
{
    match trainer {
        Trainer::Perceptron => true,
        Trainer::Passive {
            variant: _,
            c: _,
            sensitive: _,
            averaging,
        } => averaging,
        Trainer::Arow { .. } => false,
    }
}

// The final averaging, and whether the weights are finite after it.
fn average(
    trainer: Trainer,
    features: usize,
    counter: f64,
    beside: &[f64],
    weights: &mut [f64],
) -> bool
    requires { (length weights.old ≡ features) × (length beside.now ≡ features) }
    ensures { AveragedAs (rule_of trainer) features counter (record { weights = weights.entry.now; beside = beside.now }) weights.exit.now result }
{
    if is_averaging(trainer) {
        return training_tables::average(features, counter, beside, weights);
    }
    fronts::all_finite(weights, features)
}

// The answer and the trained weights: zero where a visit was refused, or the averaging by 9.
pub fn conclude(
    trainer: Trainer,
    features: usize,
    ran: Ran,
    beside: &[f64],
    weights: &mut [f64],
) -> Result<Trained, Refusal>
    requires { (length weights.old ≡ features) × (length beside.now ≡ features) × (ran.progress.visits ≤ most_visits) }
    ensures { let made : TrainingResult = record { answer = result; weights = weights.new } in
        ((set : Settings) (m : Model) (d : Data) (meant : Run) →
        m.features.count ≡ features →
        Finished ran weights.old beside.now meant →
        made ≡ finished (rule_of trainer) set m d meant.state.progress.visit meant) }
{
    let progress = ran.progress;
    let visit = progress.visit;
    let visits = progress.visits;
    if let Visit::Refused(why) = visit {
        fronts::fill(weights, features, 0.0);
        return Err(why);
    }
    let counter = (visits + 1) as f64;
    if average(trainer, features, counter, beside, weights) {
        return Ok(Trained {
            epochs: ran.epochs,
            visits: visits,
            updates: progress.updates,
        });
    }
    fronts::fill(weights, features, 0.0);
    Err(refusals::numbered(9, visits))
}

// The work tables are zero at the end.
pub fn sweep(
    features: usize,
    instances: usize,
    order: &mut [u32],
    beside: &mut [f64],
    truly: &mut [f64],
    predicted: &mut [f64],
)
    requires { (length order.old ≡ instances) × (length beside.old ≡ features) × (length truly.old ≡ features) × (length predicted.old ≡ features) }
    ensures { Swept features instances order.new beside.new truly.new predicted.new }
{
    fronts::clear(order, instances);
    fronts::fill(beside, features, 0.0);
    fronts::fill(truly, features, 0.0);
    fronts::fill(predicted, features, 0.0);
}
