// The answer line: what the program prints of a path or a refusal, written to a lent buffer.
#![tactic(auto)]

ghost use Rattle.std.specs.Prelude.{◌≡◌, not, [], ◌∷◌, ◌+◌, ◌≤◌, ◌<◌, T, length};
ghost use Rattle.std.specs.Float.Ieee.{is_nan};
ghost use Rattle.answer_line.specs.Digits.{digit as Digits·digit, digits, decimal_places, decimal};
ghost use Rattle.byte_buffers.specs.Stored.{RoomFor, Put, Written};
ghost use Rattle.answer_line.specs.Line.{joined_labels, path_line_of, refused_line_of};

// Room for every line of a path of at most 128 labels below 100.
pub const PATH_ROOM: usize = 406;

// A digit below 16 in ASCII.
fn digit(d: u64) -> u8
    requires { d < 16 }
    ensures { result ≡ Digits·digit d }
{
    if d < 10 { 48 + d as u8 } else { 55 + d as u8 }
}

// How many decimal digits a number has.
fn places(n: u64) -> usize
    ensures { result ≡ decimal_places n }
{
    let mut k = 1usize;
    let mut rest = n;
    // A digit less a turn.
    while 9 < rest {
        rest /= 10;
        k += 1;
    }
    k
}

// Each of these writes from `at` on and answers the place after what it wrote.
fn put_text(line: &mut [u8], at: usize, text: &[u8]) -> usize
    requires { RoomFor text.now line.old at }
    ensures { Put text.now line.old at result line.new }
{
    byte_buffers::put_bytes(line, at, text, 0, text.len())
}

// The last k digits of n in a base, from the last to the first.
fn put_digits(line: &mut [u8], at: usize, n: u64, base: u64, k: usize) -> usize
    requires base_nonzero { (0 < base) × (base ≤ 16) }
    requires k_in_bounds { at + k ≤ length line.old }
    ensures { Put (digits base k n) line.old at result line.new }
{
    let mut rest = n;
    for i in (0..k).rev() {
        line[at + i] = digit(rest % base);
        rest /= base;
    }
    at + k
}

fn put_decimal(line: &mut [u8], at: usize, n: u64) -> usize
    requires { RoomFor (decimal n) line.old at }
    ensures { Put (decimal n) line.old at result line.new }
{
    put_digits(line, at, n, 10, places(n))
}

fn put_labels(line: &mut [u8], start: usize, labels: &[u32]) -> usize
    requires labels_nonzero { 0 < length labels.now }
    requires room_for { RoomFor (joined_labels labels.now) line.old start }
    ensures { Put (joined_labels labels.now) line.old start result line.new }
{
    let mut at = put_decimal(line, start, u64::from(labels[0]));
    for label in &labels[1..] {
        let next = byte_buffers::put_byte(line, at, b',');
        at = put_decimal(line, next, u64::from(*label));
    }
    at
}

// `PATH`, the sum's bits and the labels.
pub fn path_line(sum: f64, labels: &[u32], line: &mut [u8]) -> usize
    requires t { T (not (is_nan sum)) }
    requires labels_nonzero { 0 < length labels.now }
    requires room_for { RoomFor (path_line_of sum labels.now) line.old 0 }
    ensures { Written (path_line_of sum labels.now) line.old result line.new }
{
    let word = put_text(line, 0, b"PATH ");
    let bits = put_digits(line, word, f64::to_bits(sum), 16, 16);
    let gap = byte_buffers::put_byte(line, bits, b' ');
    let end = put_labels(line, gap, labels);
    byte_buffers::put_byte(line, end, b'\n')
}

// `REFUSED`, a number and a place.
pub fn refused_line(number: u32, place: u64, line: &mut [u8]) -> usize
    requires { RoomFor (refused_line_of number place) line.old 0 }
    ensures { Written (refused_line_of number place) line.old result line.new }
{
    let word = put_text(line, 0, b"REFUSED ");
    let first = put_decimal(line, word, u64::from(number));
    let gap = byte_buffers::put_byte(line, first, b' ');
    let second = put_decimal(line, gap, place);
    byte_buffers::put_byte(line, second, b'\n')
}
