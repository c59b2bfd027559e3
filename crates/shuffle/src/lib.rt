// The shuffle: the order in which an epoch visits its instances.
#![tactic(auto)]

ghost use Rattle.std.specs.Prelude.{◌≡◌, ◌<◌, ◌≤◌, length};
ghost use Rattle.shuffle.specs.Shuffle.{Deal, chosen, swapped, shuffled};

// The place among 0 to i that a drawn number stands for: the draw rule.
pub fn choose(number: u64, i: usize) -> usize
    requires { i < 16384 }
    ensures { result ≡ chosen number i }
{
    (number % ((i + 1) as u64)) as usize
}

// Two places of an order change their contents. By hand: with the library's swap a shuffle takes half as long again.
pub fn swap(i: usize, j: usize, order: &mut [u32])
    requires { (i < length order.old) × (j < length order.old) }
    ensures { order.new ≡ swapped order.old i j }
{
    let a = order[i];
    order[i] = order[j];
    order[j] = a;
}

// The first n of an order, shuffled; the answer is the generator's state to go on with.
pub fn shuffle(state: u64, n: usize, order: &mut [u32]) -> u64
    requires { (0 < n) × (n ≤ 16384) × (n ≤ length order.old) }
    ensures { ◌≡◌ {A = Deal} (record { state = result; order = order.new }) (shuffled n (record { state = state; order = order.old })) }
{
    let mut s = state;
    for i in (1..n).rev() {
        let drawn = generator::draw_from(s);
        let j = choose(drawn.number, i);
        swap(i, j, order);
        s = drawn.state;
    }
    s
}
