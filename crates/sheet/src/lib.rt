// The sheet file: bytes into the score tables of one line, or a refusal that leaves the lent tables as they were.
#![tactic(auto)]

ghost use Rattle.std.specs.Prelude.{◌≡◌, ◌+◌, ◌*◌, ◌≤◌, ◌<◌, length, drop, get_or, take, Ok};
ghost use Rattle.refusals.specs.Tables.{numbers_checked};
ghost use Rattle.sheet.specs.Fields.{numbers_in, value_of, version_in_of, labels_in_of, words_in, states_from_of, whole_length_of};
ghost use Rattle.sheet.specs.Rows.{wrong_head, wrong_length, file_sized, tables_short, sheet_checked};
ghost use Rattle.std.specs.Float.{binary64};
ghost use Rattle.std.specs.Float.Ieee.{of_bits};
ghost use Rattle.std.specs.Float.Ieee.Scale.{finite};
ghost use Rattle.sheet.specs.Steps.{filled};
ghost use Rattle.sheet.specs.Promise.{Promised};

use refusals::Refusal;
use score_tables::entries;

// A number of 16 bits.
pub fn half_at(bytes: &[u8], at: usize) -> u64
    requires { at + 2 ≤ length bytes.now }
    ensures { (result ≡ get_or bytes.now at 0 + 256 * get_or bytes.now (at + 1) 0) × (result < 65536) }
{
    let low = bytes[at] as u64;
    low + 256 * bytes[at + 1] as u64
}

// A number of 64 bits.
pub fn word_at(bytes: &[u8], at: usize) -> u64
    requires { at + 8 ≤ length bytes.now }
    ensures { result ≡ value_of (take 8 (drop at bytes.now)) }
{
    let a = half_at(bytes, at);
    let b = half_at(bytes, at + 2);
    let c = half_at(bytes, at + 4);
    let d = half_at(bytes, at + 6);
    a + 65536 * (b + 65536 * (c + 65536 * d))
}

// The pattern of a number that is neither a NaN nor an infinity: its exponent's field is not all ones.
pub fn is_finite_pattern(pattern: u64) -> bool
    ensures { result ≡ finite (of_bits binary64 pattern) }
{
    pattern % 9223372036854775808 / 4503599627370496 != 2047
}

// A byte of the file; 0 past its end.
pub fn byte_at(bytes: &[u8], at: usize) -> u64
    ensures { (result ≡ get_or bytes.now at 0) × (result < 256) }
{
    if at < bytes.len() {
        bytes[at] as u64
    } else {
        0
    }
}

pub fn version_in(bytes: &[u8]) -> u64
    ensures { result ≡ version_in_of bytes.now }
{
    let low = byte_at(bytes, 3);
    low + 256 * byte_at(bytes, 4)
}

pub fn labels_in(bytes: &[u8]) -> u32
    ensures { (result ≡ labels_in_of bytes.now) × (result < 256) }
{
    byte_at(bytes, 5) as u32
}

pub fn words_in(bytes: &[u8]) -> u32
    ensures { (result ≡ words_in bytes.now) × (result < 65536) }
{
    let low = byte_at(bytes, 6);
    (low + 256 * byte_at(bytes, 7)) as u32
}

// Where the states stand: after the head and the transitions.
pub fn states_from(bytes: &[u8]) -> usize
    ensures { result ≡ states_from_of bytes.now }
{
    let labels = labels_in(bytes) as usize;
    8 + 8 * (labels * labels)
}

// How long a file with this head has to be.
pub fn whole_length(bytes: &[u8]) -> usize
    ensures { result ≡ whole_length_of bytes.now }
{
    let labels = labels_in(bytes) as usize;
    let words = words_in(bytes) as usize;
    8 + 8 * (labels * labels + words * labels)
}

// 10 on mark, version and the eight bytes of head. The mark is `TLG`, in ASCII 84, 76, 71.
fn is_wrong_head(bytes: &[u8]) -> bool
    ensures { result ≡ wrong_head bytes.now }
{
    (bytes.len() < 8)
        | (byte_at(bytes, 0) != 84)
        | (byte_at(bytes, 1) != 76)
        | (byte_at(bytes, 2) != 71)
        | (version_in(bytes) != 1)
}

// 10 on length.
fn is_wrong_length(bytes: &[u8]) -> bool
    ensures { result ≡ wrong_length bytes.now }
{
    bytes.len() != whole_length(bytes)
}

// Every row before a number is read: 10 on the head, 1 and 4, 2, 10 on length.
#[tactic(auto, using(refusals::proofs::Laws::handed), unfolding(refusals::specs::Refusals::or_next_of, crate::specs::Rows::file_sized))]
fn check_sizes(bytes: &[u8], transitions: &[f64], states: &[f64]) -> Result<(), Refusal>
    ensures { result ≡ file_sized bytes.now (tables_short bytes.now (record { transitions = transitions.now; states = states.now })) }
{
    let labels = labels_in(bytes);
    let words = words_in(bytes);
    refusals::refuse_if(10, 0, is_wrong_head(bytes))?;
    score_tables::check_bounds(labels, words)?;
    score_tables::check_room(labels, words, transitions, states)?;
    refusals::refuse_if(10, 0, is_wrong_length(bytes))
}

// 6 over the n numbers from a place on.
fn check_part(bytes: &[u8], at: usize, n: usize) -> Result<(), Refusal>
    requires { at + 8 * n ≤ length bytes.now }
    ensures { result ≡ numbers_checked (numbers_in n (drop at bytes.now)) n }
{
    for i in 0..n {
        if !is_finite_pattern(word_at(bytes, at + 8 * i)) {
            return refusals::refused(6, i);
        }
    }
    Ok(())
}

// Every row, before anything is stored.
#[tactic(auto, using(refusals::proofs::Laws::handed), unfolding(refusals::specs::Refusals::or_next_of, crate::specs::Rows::file_sized, crate::specs::Rows::file_checked))]
pub fn check_sheet(bytes: &[u8], transitions: &[f64], states: &[f64]) -> Result<(), Refusal>
    ensures { result ≡ sheet_checked (record { bytes = bytes.now }) (record { transitions = transitions.now; states = states.now }) }
{
    check_sizes(bytes, transitions, states)?;
    let labels = labels_in(bytes);
    let words = words_in(bytes);
    check_part(bytes, 8, entries(labels, labels))?;
    check_part(bytes, states_from(bytes), entries(words, labels))
}

// How many labels and words a sheet has.
#[derive(Clone, Copy)]
pub struct Size {
    pub labels: u32,
    pub words: u32,
}

// The n numbers from a place on, into the front of a table.
fn read_part(bytes: &[u8], at: usize, n: usize, table: &mut [f64])
    requires n_in_bounds { at + 8 * n ≤ length bytes.now }
    requires n_in_bounds_2 { n ≤ length table.old }
    requires n_value { numbers_checked (numbers_in n (drop at bytes.now)) n ≡ Ok tt }
    ensures { table.new ≡ filled (numbers_in n (drop at bytes.now)) n table.old }
{
    for i in 0..n {
        table[i] = f64::from_bits(word_at(bytes, at + 8 * i));
    }
}

// The whole file, or a refusal.
pub fn read_sheet(
    bytes: &[u8],
    transitions: &mut [f64],
    states: &mut [f64],
) -> Result<Size, Refusal>
    ensures { Promised (record { bytes = bytes.now }) (record { transitions = transitions.old; states = states.old }) (record { answer = result; transitions = transitions.new; states = states.new }) }
{
    // Not by `?`: the edit `refused_tables_changed` touches a table on this way out.
    if let Err(why) = check_sheet(bytes, transitions, states) {
        return Err(why);
    }
    let labels = labels_in(bytes);
    let words = words_in(bytes);
    read_part(bytes, 8, entries(labels, labels), transitions);
    read_part(bytes, states_from(bytes), entries(words, labels), states);
    Ok(Size { labels, words })
}
