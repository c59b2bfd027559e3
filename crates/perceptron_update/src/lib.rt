// The averaged perceptron's update: weights and running sums after a visit whose labels differ, and what it adds to the
// epoch's loss.
#![tactic(auto)]

ghost use Rattle.std.specs.Prelude.{◌≡◌, length, Float};
ghost use Rattle.binary64.specs.Numbers.{whole};
ghost use Rattle.training.specs.Rules.{pushed, perceptron, ◌⊗◌, ◌⊘◌};
ghost use Rattle.training_tables.specs.Tables.{Held, Moved, Updated};

use training_tables::Outcome;

// Each feature's difference of counts, weighted, goes to its weight and, times the counter, to its running sum. The answer
// is whether both tables are finite then.
pub fn push(
    features: usize,
    weight: f64,
    counter: f64,
    truly: &[f64],
    predicted: &[f64],
    weights: &mut [f64],
    sums: &mut [f64],
) -> bool
    requires { Held features (length truly.now) (length predicted.now) (length weights.old) (length sums.old) }
    ensures { Moved features (pushed truly.now predicted.now weight counter) (record { weights = weights.old; beside = sums.old }) (record { weights = weights.new; beside = sums.new }) result }
{
    let mut all = true;
    for i in 0..features {
        let delta = (truly[i] - predicted[i]) * weight;
        let w = weights[i] + delta;
        let s = sums[i] + counter * delta;
        weights[i] = w;
        sums[i] = s;
        all &= binary64::are_finite(w, s);
    }
    all
}

// The loss: the share of wrong labels, weighted.
pub fn share(wrong: u32, words: u32, weight: f64) -> f64
    ensures { result ≡ (whole wrong ⊘ whole words) ⊗ weight }
{
    wrong as f64 / words as f64 * weight
}

// The whole update. It looks at no score.
pub fn update(
    features: usize,
    words: u32,
    wrong: u32,
    weight: f64,
    counter: f64,
    truly: &[f64],
    predicted: &[f64],
    weights: &mut [f64],
    sums: &mut [f64],
) -> Outcome
    requires { Held features (length truly.now) (length predicted.now) (length weights.old) (length sums.old) }
    ensures { (true_score predicted_score : Float) →
        Updated perceptron features
        (record { words = words; wrong = wrong; truly = truly.now; predicted = predicted.now; true_score = true_score; predicted_score = predicted_score; weight = weight; counter = counter })
        (record { weights = weights.old; beside = sums.old })
        (record { weights = weights.new; beside = sums.new }) result }
{
    let all = push(features, weight, counter, truly, predicted, weights, sums);
    let loss = share(wrong, words, weight);
    Outcome { loss, finite: all }
}
