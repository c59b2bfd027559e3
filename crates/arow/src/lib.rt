// AROW's update: weights and covariance after a visit whose labels differ, and what it adds to the epoch's loss.
#![tactic(auto)]

ghost use Rattle.std.specs.Prelude.{◌≡◌, length, ◌≤◌, ℕ, Float};
ghost use Rattle.training.specs.Rules.{narrowed, ◌⊘◌, spread, arow, ◌⊕◌, ◌⊖◌};
ghost use Rattle.training_tables.specs.Tables.{Held, Moved, Both, Updated};
ghost use Rattle.lines.specs.Passes.{through};
ghost use Rattle.binary64.specs.Numbers.{whole};

use training_tables::Outcome;

// A square over gamma. A division by 1 changes nothing, and the loop below takes no longer than its divisions do: the compiler
// makes two loops of it, one for each way. 1 is the gamma that the Rust text starts from.
pub fn over(square: f64, gamma: f64) -> f64
    ensures { result ≡ square ⊘ gamma }
{
    if gamma == 1.0 { square } else { square / gamma }
}

// Gamma, and each feature's weighted difference of counts, squared, times its covariance.
pub fn spread_of(
    features: usize,
    weight: f64,
    gamma: f64,
    truly: &[f64],
    predicted: &[f64],
    covariance: &[f64],
) -> f64
    requires { Both features (length truly.now) (length predicted.now) × (features ≤ length covariance.now) }
    ensures { result ≡ through (spread truly.now predicted.now weight covariance.now) 0 features gamma }
{
    let mut frac = gamma;
    for i in 0..features {
        let weighted = (truly[i] - predicted[i]) * weight;
        frac += weighted * weighted * covariance[i];
    }
    frac
}

// Each feature's weight moves by its weighted difference of counts, as far as its covariance allows, and the covariance
// narrows. The answer is whether both tables are finite then.
pub fn narrow(
    features: usize,
    weight: f64,
    gamma: f64,
    alpha: f64,
    truly: &[f64],
    predicted: &[f64],
    weights: &mut [f64],
    covariance: &mut [f64],
) -> bool
    requires { Held features (length truly.now) (length predicted.now) (length weights.old) (length covariance.old) }
    ensures { Moved features (narrowed truly.now predicted.now weight gamma alpha) (record { weights = weights.old; beside = covariance.old }) (record { weights = weights.new; beside = covariance.new }) result }
{
    let mut all = true;
    for i in 0..features {
        let sigma = covariance[i];
        let delta = (truly[i] - predicted[i]) * weight;
        let w = weights[i] + alpha * sigma * delta;
        let narrower = 1.0 / (1.0 / sigma + over(delta * delta, gamma));
        weights[i] = w;
        covariance[i] = narrower;
        all &= binary64::are_finite(w, narrower);
    }
    all
}

// How far the predicted path's score is above the true one's, and the number of wrong labels.
pub fn cost_of(wrong: u32, reached: f64, wanted: f64) -> f64
    ensures { result ≡ (reached ⊖ wanted) ⊕ whole wrong }
{
    reached - wanted + wrong as f64
}

// The whole update. It looks neither at the number of words nor at a counter, and the variance is only the start.
pub fn update(
    features: usize,
    gamma: f64,
    wrong: u32,
    reached: f64,
    wanted: f64,
    weight: f64,
    truly: &[f64],
    predicted: &[f64],
    weights: &mut [f64],
    covariance: &mut [f64],
) -> Outcome
    requires { Held features (length truly.now) (length predicted.now) (length weights.old) (length covariance.old) }
    ensures { (variance : Float) (words : ℕ) (counter : Float) →
        Updated (arow variance gamma) features
        (record { words = words; wrong = wrong; truly = truly.now; predicted = predicted.now; true_score = wanted; predicted_score = reached; weight = weight; counter = counter })
        (record { weights = weights.old; beside = covariance.old })
        (record { weights = weights.new; beside = covariance.new }) result }
{
    let cost = cost_of(wrong, reached, wanted);
    let alpha = cost / spread_of(features, weight, gamma, truly, predicted, covariance);
    let all = narrow(
        features, weight, gamma, alpha, truly, predicted, weights, covariance,
    );
    Outcome {
        loss: cost * weight,
        finite: all,
    }
}
