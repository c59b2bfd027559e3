// The pieces of a training text that is known to be well-formed, one after another: empty lines, labels, attributes. A cursor stands
// where a piece begins. Nothing is stored: a piece is told by its places in the text.
#![tactic(auto)]

ghost use Rattle.std.specs.Prelude.{◌≡◌, true, false, ℕ, ◌+◌, ◌≤◌, length};
ghost use Rattle.std.proofs.Math.Seq.{slice};
ghost use Rattle.layout.specs.Layout.{Bytes};
ghost use Rattle.byte_buffers.specs.Stored.{RoomFor, Put};
ghost use Rattle.pieces.specs.PieceText.{line_kind_of};
ghost use Rattle.pieces.specs.Standing.{ends_name_of, ends_field_of, Named, SomeName, Fielded, SomePieceAhead, Finds, Follows, AtStart};
ghost use Rattle.pieces.specs.Unescaped.{is_skipped, unescaped};

// An empty line, a word's label, an attribute.
#[derive(Clone, Copy)]
pub enum Kind {
    Blank,
    Label,
    Attribute,
}

// Where a piece begins, and whether it is an attribute; past the text's end behind the last.
#[derive(Clone, Copy)]
pub struct Cursor {
    pub at: usize,
    pub field: bool,
}

// Where a piece stands: its name from `from` to `split`, its colon and scale from there to `to`.
#[derive(Clone, Copy)]
pub struct Span {
    pub kind: Kind,
    pub from: usize,
    pub split: usize,
    pub to: usize,
}

// A bare byte that ends a name.
fn ends_name(b: u8) -> bool
    ensures { result ≡ ends_name_of b }
{
    matches!(b, b'\t' | b'\n' | b':')
}

// A byte that ends a field.
fn ends_field(b: u8) -> bool
    ensures { result ≡ ends_field_of b }
{
    matches!(b, b'\t' | b'\n')
}

// Where the name that begins here ends: at a bare tab, line feed or colon, or at the end of the text.
pub fn name_end(text: &[u8], at: usize) -> usize
    requires { SomeName text.now at }
    ensures { (to : ℕ) (name : Bytes) → Named text.now at to name → result ≡ to }
{
    let mut i = at;
    // At a backslash two places on: the byte behind it ends nothing.
    while i < text.len() {
        let b = text[i];
        if b == b'\\' {
            i += 2;
        } else if ends_name(b) {
            return i;
        } else {
            i += 1;
        }
    }
    i
}

// Where the field that goes on here ends: at a tab, a line feed or the end of the text.
fn scale_end(text: &[u8], at: usize) -> usize
    ensures { (to : ℕ) → Fielded text.now at to → result ≡ to }
{
    for i in at..text.len() {
        if ends_field(text[i]) {
            return i;
        }
    }
    text.len()
}

// The cursor at the start of a text.
pub fn start(text: &[u8]) -> Cursor
    ensures { AtStart text.now result }
{
    Cursor {
        at: 0,
        field: false,
    }
}

// What a line begins with: nothing, or a label.
fn line_kind(empty: bool) -> Kind
    ensures { result ≡ line_kind_of empty }
{
    if empty { Kind::Blank } else { Kind::Label }
}

// The piece at the cursor.
pub fn piece_at(text: &[u8], cursor: Cursor) -> Span
    requires { SomePieceAhead text.now cursor }
    ensures { Finds text.now cursor result }
{
    let at = cursor.at;
    let split = name_end(text, at);
    if cursor.field {
        return Span {
            kind: Kind::Attribute,
            from: at,
            split,
            to: scale_end(text, split),
        };
    }
    Span {
        kind: line_kind(split == at),
        from: at,
        split,
        to: split,
    }
}

// The cursor behind a piece that ends here. A text that is read has at most 4,294,967,295 bytes, so one place more always fits.
pub fn after(text: &[u8], to: usize) -> Cursor
    requires { to ≤ 4294967295 }
    ensures { Follows text.now to result }
{
    let at = to + 1;
    if to < text.len() {
        return Cursor {
            at,
            field: text[to] == b'\t',
        };
    }
    Cursor { at, field: false }
}

// Whether a byte of an escaped name goes: a backslash that stands behind none.
fn skips(b: u8, slashed: bool) -> bool
    ensures { result ≡ is_skipped slashed b }
{
    (b == b'\\') & !slashed
}

// How many bytes the name between two places has without its backslashes.
pub fn unescaped_length(text: &[u8], from: usize, to: usize) -> usize
    requires { (from ≤ to) × (to ≤ length text.now) }
    ensures { result ≡ length (unescaped (slice from to text.now)) }
{
    let mut count = 0usize;
    let mut slashed = false;
    for b in &text[from..to] {
        slashed = skips(*b, slashed);
        if !slashed {
            count += 1;
        }
    }
    count
}

// The name between two places without its backslashes, written from `at` on; the place after it.
pub fn unescape(text: &[u8], from: usize, to: usize, out: &mut [u8], at: usize) -> usize
    requires from_le_to { (from ≤ to) × (to ≤ length text.now) }
    requires room_for { RoomFor (unescaped (slice from to text.now)) out.old at }
    ensures { Put (unescaped (slice from to text.now)) out.old at result out.new }
{
    let mut k = at;
    let mut slashed = false;
    for b in &text[from..to] {
        slashed = skips(*b, slashed);
        if !slashed {
            out[k] = *b;
            k += 1;
        }
    }
    k
}
