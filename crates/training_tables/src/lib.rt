// What training does to the front of a lent table, whichever the trainer: the order at the start and the final averaging.
#![tactic(auto)]

ghost use Rattle.std.specs.Prelude.{◌≡◌, ◌++◌, ◌≤◌, length, drop};
ghost use Rattle.training.specs.Epochs.{up_to};
ghost use Rattle.training_tables.specs.Tables.{Both, Averaged};

// What an update adds to the epoch's loss, and whether the tables that it changed are finite.
#[derive(Clone, Copy)]
pub struct Outcome {
    pub loss: f64,
    pub finite: bool,
}

// "Order starts 0 to N−1."
pub fn count_up(order: &mut [u32], n: u32)
    requires { n ≤ length order.old }
    ensures { order.new ≡ up_to n ++ drop n order.old }
{
    for i in 0..n {
        order[i as usize] = i;
    }
}

// The final averaging, and whether the averaged weights are finite.
pub fn average(features: usize, counter: f64, sums: &[f64], weights: &mut [f64]) -> bool
    requires { Both features (length weights.old) (length sums.now) }
    ensures { Averaged features counter sums.now weights.old weights.new result }
{
    let mut all = true;
    for i in 0..features {
        let w = weights[i] - sums[i] / counter;
        weights[i] = w;
        all &= binary64::is_finite(w);
    }
    all
}
