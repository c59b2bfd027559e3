// The operations, each over one call of the crates below.
ghost use Rattle.std.specs.Prelude.{◌<◌, ◌≤◌};

use crate::answer::{Answer, Dealt};
use crate::record::{Record, low_bits};
use generator::Drawn;
use refusals::Refusal;
use std::num::f64_from_bits_with_nan as float;

#[derive(Clone, Copy)]
enum Operation {
    Finite,
    Min,
    Root,
    Draw,
    Order,
    Starts,
    Kinds,
    Ids,
    Sources,
    Numbers,
}

// A number that stands for no operation.
#[derive(Clone, Copy)]
struct UnknownOperation;

impl TryFrom<u64> for Operation {
    type Error = UnknownOperation;

    fn try_from(number: u64) -> Result<Operation, UnknownOperation> {
        match number {
            1 => Ok(Operation::Finite),
            2 => Ok(Operation::Min),
            3 => Ok(Operation::Root),
            4 => Ok(Operation::Draw),
            5 => Ok(Operation::Order),
            6 => Ok(Operation::Starts),
            7 => Ok(Operation::Kinds),
            8 => Ok(Operation::Ids),
            9 => Ok(Operation::Sources),
            10 => Ok(Operation::Numbers),
            _ => Err(UnknownOperation),
        }
    }
}

pub(crate) fn answer(record: &Record) -> Answer {
    match Operation::try_from(record.operation) {
        Ok(operation) => operation.answer(record),
        Err(UnknownOperation) => Answer::Unknown,
    }
}

impl Operation {
    fn answer(self, record: &Record) -> Answer {
        let (a, b) = (record.a, record.b);
        match self {
            Operation::Finite => Answer::Finite(binary64::is_finite(float(a))),
            Operation::Min => Answer::Min(binary64::min(float(a), float(b))),
            Operation::Root => Answer::Root(root(a)),
            Operation::Draw => Answer::Draw(last_of(a, b % 65536)),
            Operation::Order => {
                let n = ((b % 65536 + 11) % 12) as usize + 1;
                Answer::Order(deal(a, n, record.c % 65536))
            }
            Operation::Starts => Answer::Checked(starts(record)),
            Operation::Kinds => Answer::Checked(kinds(record)),
            Operation::Ids => Answer::Checked(ids(record)),
            Operation::Sources => Answer::Checked(sources(record)),
            Operation::Numbers => Answer::Checked(numbers(record)),
        }
    }
}

fn root(n: u64) -> Option<f64> {
    if n <= 128 {
        Some(roots::root(n as u32))
    } else {
        None
    }
}

// The number of the last of so many draws.
fn last_of(seed: u64, draws: u64) -> u64 {
    let mut last = Drawn {
        number: 0,
        state: seed,
    };
    for _ in 0..draws {
        last = generator::draw_from(last.state);
    }
    last.number
}

// The order of n numbers after so many epochs.
fn deal(seed: u64, n: usize, epochs: u64) -> Dealt
    requires above { 0 < n }
    requires within { n ≤ 12 }
{
    let mut order = [0, 1, 2, 3, 4, 5, 6, 7, 8, 9, 10, 11];
    let mut state = seed;
    for _ in 0..epochs {
        state = shuffle::shuffle(state, n, &mut order);
    }
    Dealt { order, n, state }
}

// The checks of a table: the first number says of how many entries, the second is their bound.
fn starts(record: &Record) -> Result<(), Refusal> {
    table_checks::check_starts(
        &record.numbers(),
        (record.a % 12) as usize,
        low_bits(record.b),
    )
}

fn kinds(record: &Record) -> Result<(), Refusal> {
    table_checks::check_kinds(&record.bytes(), (record.a % 13) as usize)
}

fn ids(record: &Record) -> Result<(), Refusal> {
    table_checks::check_ids(
        &record.numbers(),
        (record.a % 13) as usize,
        low_bits(record.b),
    )
}

fn sources(record: &Record) -> Result<(), Refusal> {
    table_checks::check_sources(
        &record.bytes(),
        &record.numbers_above(),
        (record.a % 13) as usize,
        low_bits(record.b),
    )
}

fn numbers(record: &Record) -> Result<(), Refusal> {
    table_checks::check_numbers(&record.values(), (record.a % 13) as usize)
}
