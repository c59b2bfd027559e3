// The tables of a text that is known to be well-formed, filled: names from where they first stand, then words and attributes, each
// in one pass over the pieces. Sizes and names are known, and every table has room.
#![tactic(auto)]

ghost use Rattle.std.specs.Prelude.{◌≡◌, cond, List, map, ℕ, ◌+◌, ◌≤◌, ◌<◌, length, set};
ghost use Rattle.std.proofs.Math.Seq.{slice};
ghost use Rattle.layout.specs.Layout.{Bytes, WellFormed, sequences};
ghost use Rattle.scales.specs.Value.{value_of};
ghost use Rattle.text_tables.specs.Pieces.{Piece};
ghost use Rattle.text_tables.specs.Tables.{flat, tables};
ghost use Rattle.byte_buffers.specs.Stored.{RoomFor, Put};
ghost use Rattle.pieces.specs.PieceText.{kept_in};
ghost use Rattle.pieces.specs.Standing.{Stands};
ghost use Rattle.fill_text.specs.Filled.{Placed, NamesReady, StringsLaid, WordsReady, WordsLaid, AttributesReady, AttributesLaid, TextReady};
ghost use Rattle.fill_text.specs.OnePiece.{WordMay, WordBegun, WordPieceMay, WordPieceTaken, AttributeMay, AttributePut, KeptPieceMay, KeptPieceTaken};

use pieces::{Kind, Span};

// How much the tables of words hold so far, and whether a sequence is open.
#[derive(Clone, Copy)]
pub struct WordsSoFar {
    pub sequences: usize,
    pub words: usize,
    pub attributes: usize,
    pub within: bool,
}

// How much the tables of attributes hold so far.
#[derive(Clone, Copy)]
pub struct KeptSoFar {
    pub attributes: usize,
    pub bytes: usize,
}

// The names at the places, without their backslashes, one after another; and where each begins.
pub fn fill_names(
    text: &[u8],
    positions: &[u32],
    count: usize,
    starts: &mut [u32],
    bytes: &mut [u8],
)
    requires { NamesReady text.now positions.now count starts.old bytes.old }
    ensures { (known : List Bytes) → Placed text.now positions.now count known
        → StringsLaid (flat known) starts.old bytes.old starts.new bytes.new }
{
    let mut at = 0usize;
    for i in 0..count {
        let from = lines::at(positions, i);
        let to = pieces::name_end(text, from);
        starts[i] = at as u32;
        at = pieces::unescape(text, from, to, bytes, at);
    }
    starts[count] = at as u32;
}

// A sequence begins where none is open: its start is how many words there are.
fn begin_line(line_starts: &mut [u32], sequences: usize, words: usize, within: bool) -> usize
    requires { (sequences < length line_starts.old) × (sequences ≤ 4294967295) × (words ≤ 4294967295) }
    ensures { (result ≡ cond within sequences (sequences + 1))
        × (line_starts.new ≡ cond within line_starts.old (set line_starts.old sequences words)) }
{
    if within {
        return sequences;
    }
    line_starts[sequences] = words as u32;
    sequences + 1
}

// A word begins: its start is how many attributes there are, its reference the id of its label.
fn begin_word(
    text: &[u8],
    positions: &[u32],
    count: usize,
    from: usize,
    split: usize,
    so_far: WordsSoFar,
    line_starts: &mut [u32],
    word_starts: &mut [u32],
    references: &mut [u32],
) -> WordsSoFar
    requires { WordMay text.now positions.now count from split so_far line_starts.old word_starts.old references.old }
    ensures { WordBegun text.now positions.now count from so_far
        line_starts.old word_starts.old references.old
        result line_starts.new word_starts.new references.new }
{
    let words = so_far.words;
    let attributes = so_far.attributes;
    let id = distinct::label_id(text, positions, count, from, split);
    let sequences = begin_line(line_starts, so_far.sequences, words, so_far.within);
    word_starts[words] = attributes as u32;
    references[words] = id as u32;
    WordsSoFar {
        sequences,
        words: words + 1,
        attributes,
        within: true,
    }
}

// A piece, for the tables of words.
fn word_piece(
    text: &[u8],
    positions: &[u32],
    count: usize,
    span: Span,
    so_far: WordsSoFar,
    line_starts: &mut [u32],
    word_starts: &mut [u32],
    references: &mut [u32],
) -> WordsSoFar
    requires { WordPieceMay text.now positions.now count span so_far line_starts.old word_starts.old references.old }
    ensures { WordPieceTaken text.now positions.now count span so_far
        line_starts.old word_starts.old references.old
        result line_starts.new word_starts.new references.new }
{
    match span.kind {
        Kind::Blank => WordsSoFar {
            within: false,
            ..so_far
        },
        Kind::Label => begin_word(
            text,
            positions,
            count,
            span.from,
            span.split,
            so_far,
            line_starts,
            word_starts,
            references,
        ),
        Kind::Attribute => WordsSoFar {
            attributes: so_far.attributes + 1,
            ..so_far
        },
    }
}

// Words, sequences, references and instance weights: one pass, and the last starts behind the others.
pub fn fill_words(
    text: &[u8],
    positions: &[u32],
    count: usize,
    line_starts: &mut [u32],
    word_starts: &mut [u32],
    references: &mut [u32],
    weights: &mut [f64],
)
    requires { WordsReady text.now positions.now count line_starts.old word_starts.old references.old weights.old }
    ensures { (h : WellFormed text.now) → WordsLaid (tables (sequences h.lines))
        line_starts.old word_starts.old references.old weights.old
        line_starts.new word_starts.new references.new weights.new }
{
    let mut cursor = pieces::start(text);
    let mut so_far = WordsSoFar {
        sequences: 0,
        words: 0,
        attributes: 0,
        within: false,
    };
    // From piece to piece: how far the cursor goes is told by the piece.
    while cursor.at <= text.len() {
        let span = pieces::piece_at(text, cursor);
        so_far = word_piece(
            text,
            positions,
            count,
            span,
            so_far,
            line_starts,
            word_starts,
            references,
        );
        cursor = pieces::after(text, span.to);
    }
    let sequences = so_far.sequences;
    let words = so_far.words;
    let attributes = so_far.attributes;
    line_starts[sequences] = words as u32;
    word_starts[words] = attributes as u32;
    fronts::fill(weights, sequences, 1.0);
}

// The value of an attribute: that of its scale, or 1 without one.
fn value_in(text: &[u8], span: Span) -> f64
    requires { (p : Piece) × Stands text.now span p }
    ensures { (p : Piece) → Stands text.now span p → result ≡ value_of (kept_in p) }
{
    let split = span.split;
    let to = span.to;
    if split < to {
        return scales::value_of(&text[split + 1..to]);
    }
    1.0
}

// The bytes between two places, written from `at` on; the place after them. Without a scale the first place is behind the second.
fn keep(text: &[u8], from: usize, to: usize, scales: &mut [u8], at: usize) -> usize
    requires { (to ≤ length text.now) × RoomFor (slice from to text.now) scales.old at }
    ensures { Put (slice from to text.now) scales.old at result scales.new }
{
    if to < from {
        return at;
    }
    byte_buffers::put_bytes(scales, at, text, from, to)
}

// An attribute: its id, its value, where its kept text begins, and that text; the place after it.
fn put_attribute(
    text: &[u8],
    slots: &[u32],
    positions: &[u32],
    count: usize,
    span: Span,
    so_far: KeptSoFar,
    ids: &mut [u32],
    values: &mut [f64],
    starts: &mut [u32],
    scales: &mut [u8],
) -> usize
    requires { AttributeMay text.now slots.now positions.now count span so_far ids.old values.old starts.old scales.old }
    ensures { AttributePut text.now positions.now count span so_far
        ids.old values.old starts.old scales.old
        result ids.new values.new starts.new scales.new }
{
    let a = so_far.attributes;
    let at = so_far.bytes;
    let id = distinct::id_of(text, slots, positions, count, span.from, span.split);
    ids[a] = id as u32;
    values[a] = value_in(text, span);
    starts[a] = at as u32;
    keep(text, span.split + 1, span.to, scales, at)
}

// A piece, for the tables of attributes.
fn kept_piece(
    text: &[u8],
    slots: &[u32],
    positions: &[u32],
    count: usize,
    span: Span,
    so_far: KeptSoFar,
    ids: &mut [u32],
    values: &mut [f64],
    starts: &mut [u32],
    scales: &mut [u8],
) -> KeptSoFar
    requires { KeptPieceMay text.now slots.now positions.now count span so_far ids.old values.old starts.old scales.old }
    ensures { KeptPieceTaken text.now positions.now count span so_far
        ids.old values.old starts.old scales.old
        result ids.new values.new starts.new scales.new }
{
    match span.kind {
        Kind::Blank | Kind::Label => so_far,
        Kind::Attribute => KeptSoFar {
            attributes: so_far.attributes + 1,
            bytes: put_attribute(
                text, slots, positions, count, span, so_far, ids, values, starts, scales,
            ),
        },
    }
}

// Ids, values and kept texts: one pass, and the last start behind the others.
pub fn fill_attributes(
    text: &[u8],
    slots: &[u32],
    positions: &[u32],
    count: usize,
    ids: &mut [u32],
    values: &mut [f64],
    starts: &mut [u32],
    scales: &mut [u8],
)
    requires { AttributesReady text.now slots.now positions.now count ids.old values.old starts.old scales.old }
    ensures { (h : WellFormed text.now) → AttributesLaid (tables (sequences h.lines))
        ids.old values.old starts.old scales.old
        ids.new values.new starts.new scales.new }
{
    let mut cursor = pieces::start(text);
    let mut so_far = KeptSoFar {
        attributes: 0,
        bytes: 0,
    };
    // From piece to piece: how far the cursor goes is told by the piece.
    while cursor.at <= text.len() {
        let span = pieces::piece_at(text, cursor);
        so_far = kept_piece(
            text, slots, positions, count, span, so_far, ids, values, starts, scales,
        );
        cursor = pieces::after(text, span.to);
    }
    let attributes = so_far.attributes;
    let end = so_far.bytes;
    starts[attributes] = end as u32;
}

// All twelve tables of a text, from what was learnt of its names.
pub fn fill(
    text: &[u8],
    labels: &[u32],
    label_count: usize,
    slots: &[u32],
    positions: &[u32],
    count: usize,
    line_starts: &mut [u32],
    word_starts: &mut [u32],
    ids: &mut [u32],
    values: &mut [f64],
    references: &mut [u32],
    weights: &mut [f64],
    label_starts: &mut [u32],
    label_bytes: &mut [u8],
    name_starts: &mut [u32],
    name_bytes: &mut [u8],
    scale_starts: &mut [u32],
    scales: &mut [u8],
)
    requires { TextReady text.now labels.now label_count slots.now positions.now count
        line_starts.old word_starts.old ids.old values.old references.old weights.old
        label_starts.old label_bytes.old name_starts.old name_bytes.old scale_starts.old scales.old }
    ensures { (h : WellFormed text.now) →
        let t = tables (sequences h.lines) in
        StringsLaid t.labels label_starts.old label_bytes.old label_starts.new label_bytes.new
        × StringsLaid t.names name_starts.old name_bytes.old name_starts.new name_bytes.new
        × WordsLaid t line_starts.old word_starts.old references.old weights.old
        line_starts.new word_starts.new references.new weights.new
        × AttributesLaid t ids.old values.old scale_starts.old scales.old
        ids.new values.new scale_starts.new scales.new }
{
    fill_names(text, labels, label_count, label_starts, label_bytes);
    fill_names(text, positions, count, name_starts, name_bytes);
    fill_words(
        text,
        labels,
        label_count,
        line_starts,
        word_starts,
        references,
        weights,
    );
    fill_attributes(
        text,
        slots,
        positions,
        count,
        ids,
        values,
        scale_starts,
        scales,
    );
}
