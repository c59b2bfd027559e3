// The automaton of the layout in code: the class of a byte, and the step from mode to mode.
#![tactic(auto)]

ghost use Rattle.std.specs.Prelude.{◌≡◌, cond, ◌+◌, ltb};
ghost use Rattle.layout.specs.Scan.{class_of, next_mode_of, ends_scale, accepting, alive};

use layout::{Class, Mode};

// What a byte is to the layout.
#[tactic(auto, unfolding(layout::specs::Scan::class_of))]
pub fn class_of(b: u8) -> Class
    ensures { result ≡ class_of b }
{
    match b {
        b'\t' => Class::Tab,
        b'\n' => Class::Feed,
        b':' => Class::Colon,
        b'\\' => Class::Slash,
        b'-' => Class::Minus,
        b'.' => Class::Point,
        b'0'..=b'9' => Class::Digit,
        _ => Class::Other,
    }
}

// The first byte of a line.
fn at_begin(c: Class) -> Mode
    ensures { result ≡ next_mode_of Mode.Begin c }
{
    match c {
        Class::Tab | Class::Colon => Mode::Bad,
        Class::Feed => Mode::Begin,
        Class::Slash => Mode::Slashed(false),
        Class::Minus | Class::Point | Class::Digit | Class::Other => Mode::Inside(false),
    }
}

// A bare colon ends an attribute's name; no label has one.
fn at_colon(attribute: bool) -> Mode
    ensures { result ≡ cond attribute Mode.Value Mode.Bad }
{
    if attribute { Mode::Value } else { Mode::Bad }
}

// Inside a name, an attribute's or a label.
fn in_name(attribute: bool, c: Class) -> Mode
    ensures { result ≡ next_mode_of (Mode.Inside attribute) c }
{
    match c {
        Class::Tab => Mode::Field,
        Class::Feed => Mode::Begin,
        Class::Colon => at_colon(attribute),
        Class::Slash => Mode::Slashed(attribute),
        Class::Minus | Class::Point | Class::Digit | Class::Other => Mode::Inside(attribute),
    }
}

// Behind a backslash.
fn behind_slash(attribute: bool, c: Class) -> Mode
    ensures { result ≡ next_mode_of (Mode.Slashed attribute) c }
{
    match c {
        Class::Colon | Class::Slash => Mode::Inside(attribute),
        _ => Mode::Bad,
    }
}

// Behind a tab.
fn at_field(c: Class) -> Mode
    ensures { result ≡ next_mode_of Mode.Field c }
{
    match c {
        Class::Tab | Class::Feed | Class::Colon => Mode::Bad,
        Class::Slash => Mode::Slashed(true),
        Class::Minus | Class::Point | Class::Digit | Class::Other => Mode::Inside(true),
    }
}

// Behind the colon.
fn at_value(c: Class) -> Mode
    ensures { result ≡ next_mode_of Mode.Value c }
{
    match c {
        Class::Minus => Mode::Digits(0, false),
        Class::Point => Mode::Digits(0, true),
        Class::Digit => Mode::Digits(1, false),
        _ => Mode::Bad,
    }
}

// What follows a scale of so many digits.
fn ended(digits: u32, next: Mode) -> Mode
    ensures { result ≡ ends_scale digits next }
{
    if digits == 0 { Mode::Bad } else { next }
}

fn one_more(digits: u32, point: bool) -> Mode
    ensures { result ≡ cond (ltb digits 15) (Mode.Digits (digits + 1) point) Mode.Bad }
{
    if digits < 15 {
        Mode::Digits(digits + 1, point)
    } else {
        Mode::Bad
    }
}

// In the digits of a scale.
fn in_digits(digits: u32, point: bool, c: Class) -> Mode
    ensures { result ≡ next_mode_of (Mode.Digits digits point) c }
{
    match c {
        Class::Tab => ended(digits, Mode::Field),
        Class::Feed => ended(digits, Mode::Begin),
        Class::Point if !point => Mode::Digits(digits, true),
        Class::Digit => one_more(digits, point),
        _ => Mode::Bad,
    }
}

// One byte more.
pub fn next_mode(mode: Mode, c: Class) -> Mode
    ensures { result ≡ next_mode_of mode c }
{
    match mode {
        Mode::Begin => at_begin(c),
        Mode::Inside(attribute) => in_name(attribute, c),
        Mode::Slashed(attribute) => behind_slash(attribute, c),
        Mode::Field => at_field(c),
        Mode::Value => at_value(c),
        Mode::Digits(digits, point) => in_digits(digits, point, c),
        Mode::Bad => Mode::Bad,
    }
}

// A text may end here.
pub fn may_end(mode: Mode) -> bool
    ensures { result ≡ accepting mode }
{
    match mode {
        Mode::Begin | Mode::Inside(_) => true,
        Mode::Digits(digits, _) => digits != 0,
        _ => false,
    }
}

// Something completes what was read.
pub fn is_alive(mode: Mode) -> bool
    ensures { result ≡ alive mode }
{
    !matches!(mode, Mode::Bad)
}
