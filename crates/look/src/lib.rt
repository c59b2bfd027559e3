// The look through a text for 11, window by window. Through a name the plain-character step and the after-backslash step call each
// other as the remaining bytes fall; a window has at most 64 bytes, so that no text can exhaust the stack.
#![tactic(auto)]

ghost use Rattle.std.specs.Prelude.{true, false, ◌≡◌, ◌+◌, ◌<◌, ◌≤◌, length};
ghost use Rattle.layout.specs.Scan.{look, alive};
ghost use Rattle.look.specs.Windows.{Window, name_mode, Passed, WalkedTo};
ghost use Rattle.look.specs.Turns.{Onward, Turned};

use layout::Mode;

// Where a walk stopped, and in which of its two states.
#[derive(Clone, Copy)]
pub struct Stop {
    pub at: usize,
    pub slashed: bool,
}

// Over a run of plain characters, which need no step each: to the first byte that is none, or to the end of the window.
fn plain_run(text: &[u8], at: usize, end: usize) -> usize
    requires { Window text.now at end }
    ensures { Passed text.now at end result }
{
    for i in at..end {
        let b = text[i];
        if (b == b'\\') | (b == b'\t') | (b == b'\n') | (b == b':') {
            return i;
        }
    }
    end
}

// From a place inside a name.
#[cycle(behind_plain)]
fn plain(text: &[u8], at: usize, end: usize) -> Stop
    requires { Window text.now at end }
    ensures { WalkedTo text.now false at end result }
{
    if at == end {
        return Stop { at, slashed: false };
    }
    let b = text[at];
    if b == b'\\' {
        return behind(text, at + 1, end);
    }
    if (b == b'\t') | (b == b'\n') | (b == b':') {
        return Stop { at, slashed: false };
    }
    plain(text, at + 1, end)
}

// From the place behind a backslash.
#[cycle(behind_plain)]
fn behind(text: &[u8], at: usize, end: usize) -> Stop
    requires { Window text.now at end }
    ensures { WalkedTo text.now true at end result }
{
    if at == end {
        return Stop { at, slashed: true };
    }
    let b = text[at];
    if (b == b':') | (b == b'\\') {
        return plain(text, at + 1, end);
    }
    Stop { at, slashed: true }
}

// How far a look has come.
#[derive(Clone, Copy)]
pub struct Reached {
    pub at: usize,
    pub mode: Mode,
}

// Where a window that begins here ends.
fn window_end(at: usize, n: usize) -> usize
    requires { at < n }
    ensures lower_bound { (at < result) × (result ≤ n) }
    ensures upper_bound { result ≤ at + 64 }
{
    if n - at < 64 { n } else { at + 64 }
}

// Where a walk through a name stopped.
fn in_mode(at: usize, slashed: bool, attribute: bool) -> Reached
    ensures { (result.at ≡ at) × (result.mode ≡ name_mode slashed attribute) }
{
    if slashed {
        Reached {
            at,
            mode: Mode::Slashed(attribute),
        }
    } else {
        Reached {
            at,
            mode: Mode::Inside(attribute),
        }
    }
}

// To the end of a name, where the place is in one.
fn through_name(text: &[u8], at: usize, end: usize, mode: Mode) -> Reached
    requires { Window text.now at end }
    ensures { Onward text.now mode at end result }
{
    match mode {
        Mode::Inside(k) => {
            let i = plain_run(text, at, end);
            let s = plain(text, i, end);
            in_mode(s.at, s.slashed, k)
        }
        Mode::Slashed(k) => {
            let s = behind(text, at, end);
            in_mode(s.at, s.slashed, k)
        }
        _ => Reached { at, mode },
    }
}

// A window: through a name, then one byte.
fn turn(text: &[u8], at: usize, mode: Mode) -> Reached
    requires { (at < length text.now) × (alive mode ≡ true) }
    ensures { Turned text.now mode at result }
{
    let end = window_end(at, text.len());
    let w = through_name(text, at, end, mode);
    let i = w.at;
    if i == end {
        return w;
    }
    let m = w.mode;
    let next = byte_steps::next_mode(m, byte_steps::class_of(text[i]));
    if byte_steps::is_alive(next) {
        return Reached {
            at: i + 1,
            mode: next,
        };
    }
    Reached {
        at: i,
        mode: Mode::Bad,
    }
}

// 11: well-formed, or the first byte after which no well-formed text is possible, or the length at the end.
pub fn look_through(text: &[u8]) -> Result<(), usize>
    ensures { result ≡ look text.now }
{
    let mut at = 0usize;
    let mut mode = Mode::Begin;
    // From window to window: how far it goes is told by the turn.
    while at < text.len() {
        let w = turn(text, at, mode);
        at = w.at;
        mode = w.mode;
        if !byte_steps::is_alive(mode) {
            return Err(at);
        }
    }
    if byte_steps::may_end(mode) {
        Ok(())
    } else {
        Err(at)
    }
}
