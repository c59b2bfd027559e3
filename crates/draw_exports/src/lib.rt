// A draw, and the shuffle of an order, for programs in C and Rust.
#![tactic(auto)]

ghost use Rattle.std.specs.Prelude.{◌≡◌};
ghost use Rattle.draw_exports.specs.Draws.{Drew, Shuffled, Shuffling};

use answers::checks::Refused;

// The bound of `the_instances`.
pub const MOST_INSTANCES: usize = 16384;

// One draw of SplitMix64: the number is the answer, and the state is advanced.
#[unsafe(no_mangle)]
pub extern "C" fn bodkinbloom_draw(state: &mut u64) -> u64
    ensures { Drew state.old result state.new }
{
    let drawn = generator::draw_from(*state);
    *state = drawn.state;
    drawn.number
}

// An order of 1 to 16,384 numbers is shuffled, and the generator's state goes on.
#[unsafe(no_mangle)]
pub extern "C" fn bodkinbloom_shuffle(state: &mut u64, order: &mut [u32]) -> Refused
    ensures { Shuffling state.old order.old (record { answer = result; state = state.new; order = order.new }) }
{
    let n = order.len();
    if (n < 1) | (MOST_INSTANCES < n) {
        return Refused {
            number: 2,
            place: 0,
        };
    }
    let next = shuffle::shuffle(*state, n, order);
    *state = next;
    Refused {
        number: 0,
        place: 0,
    }
}
