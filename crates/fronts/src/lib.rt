// The needed front of a lent table, whichever the call: whether its numbers are finite, and filling or zeroing it. What lies
// behind is not touched.
#![tactic(auto)]

ghost use Rattle.std.specs.Prelude.{◌≡◌, ◌+◌, ◌≤◌, length};
ghost use Rattle.fronts.specs.Finite.{all_finite_of};
ghost use Rattle.fronts.specs.Cleared.{cleared};

// Both halves of a front are finite. One comparison tells of two entries, and the loop has no way out in the middle: it costs
// less than half of a branch at each entry.
fn halves_finite(table: &[f64], half: usize) -> bool
    requires { half + half ≤ length table.now }
    ensures { result ≡ all_finite_of table.now (half + half) }
{
    let mut all = true;
    for i in 0..half {
        all &= binary64::are_finite(table[i], table[half + i]);
    }
    all
}

// The first n are finite: two halves, and an odd last one.
pub fn all_finite(table: &[f64], n: usize) -> bool
    requires { n ≤ length table.now }
    ensures { result ≡ all_finite_of table.now n }
{
    let half = n / 2;
    let even = half + half;
    let all = halves_finite(table, half);
    if even < n {
        return all & binary64::is_finite(table[even]);
    }
    all
}

// The first n become the value: scores, counts, weights and running sums start at 0, the covariance at the variance.
pub fn fill<T: Copy>(table: &mut [T], n: usize, value: T)
    requires { n ≤ length table.old }
    ensures { table.new ≡ cleared value n table.old }
{
    for entry in &mut table[..n] {
        *entry = value;
    }
}

// The first n of a path or of an order become 0.
pub fn clear(order: &mut [u32], n: usize)
    requires { n ≤ length order.old }
    ensures { order.new ≡ cleared 0 n order.old }
{
    fill(order, n, 0);
}
