// The generator's room: what the shuffle draws from. `draw` is lent the generator and advances it; `draw_from` is a draw with plain numbers in and out.
#![tactic(auto)]

ghost use Rattle.std.specs.Prelude.{◌≡◌};
ghost use Rattle.generator.specs.SplitMix64.{folded, wrapped, advanced, mixed};
ghost use Rattle.generator.specs.Draw.{next, number};

// a · b, wrapped at 64 bits: a product of our own, made of halves of 32 bits.
pub fn wrapping_mul(a: u64, b: u64) -> u64
    ensures { result ≡ wrapped a b }
{
    let a0 = a % 4294967296;
    let a1 = a / 4294967296;
    let b0 = b % 4294967296;
    let b1 = b / 4294967296;
    let mid = (a1 * b0).wrapping_add(a0 * b1);
    (a0 * b0).wrapping_add(mid << 32)
}

// The state after a draw.
pub fn advance(state: u64) -> u64
    ensures { result ≡ advanced state }
{
    state.wrapping_add(0x9E3779B97F4A7C15)
}

// The number that is drawn at a state that was advanced.
pub fn mix(z: u64) -> u64
    ensures { result ≡ mixed z }
{
    let a = wrapping_mul(z ^ (z >> 30), 0xBF58476D1CE4E5B9);
    let b = wrapping_mul(a ^ (a >> 27), 0x94D049BB133111EB);
    b ^ (b >> 31)
}

// "The generator's state goes from epoch to epoch", so the generator is lent and not copied.
#[derive(Clone, Copy)]
pub struct Generator {
    pub state: u64,
}

// What a draw gives: the number, and the state to go on with.
#[derive(Clone, Copy)]
pub struct Drawn {
    pub number: u64,
    pub state: u64,
}

// A draw: the generator is advanced, and the number is mixed from its new state.
pub fn draw(generator: &mut Generator) -> u64
    ensures { (result ≡ number generator.old.state) × (generator.new.state ≡ next generator.old.state) }
{
    let before = generator.state;
    let after = advance(before);
    generator.state = after;
    mix(after)
}

// A draw for callers that hold the state as a number: a generator is made at it, lent to `draw`, and read afterwards.
pub fn draw_from(state: u64) -> Drawn
    ensures { (result.number ≡ number state) × (result.state ≡ next state) }
{
    let mut generator = Generator { state };
    let number = draw(&mut generator);
    let after = generator.state;
    Drawn {
        number,
        state: after,
    }
}
