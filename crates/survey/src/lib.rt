// The counting pass over a training text that is known to be well-formed: sequences, words, attributes, bytes of scales, the first
// sequence above 128 words, and the names by first appearance, each known by where it first stands. Nothing that is lent to the
// reader's caller is written.
#![tactic(auto)]

ghost use Rattle.std.specs.Prelude.{◌≡◌, cond, List, [], ℕ, ◌+◌, ◌-◌, ◌≤◌, eqb, ltb, length};
ghost use Rattle.std.proofs.Math.Seq.{slice};
ghost use Rattle.layout.specs.Layout.{Bytes, WellFormed};
ghost use Rattle.text_tables.specs.Pieces.{Piece, pieces_of};
ghost use Rattle.text_tables.specs.Tally.{Tally, tallied, tally_of};
ghost use Rattle.pieces.specs.Standing.{Named, Stands};
ghost use Rattle.pieces.specs.Unescaped.{unescaped};
ghost use Rattle.text_tables.specs.Distinct.{learnt};
ghost use Rattle.survey.specs.Surveyed.{untouched, first_above, blanked, worded, attributed, grown, KnowsFront, KnowsNames, FewFigures, LabelAsked, NameAsked, Surveys, StepAsked, SurveyAsked};

use pieces::{Kind, Span};

// Sequences begun, words and attributes so far, the words of the present sequence, the bytes of the scales; the number of
// the first sequence above 128 words, if there is one.
#[derive(Clone, Copy)]
pub struct Figures {
    pub sequences: usize,
    pub words: usize,
    pub attributes: usize,
    pub present: usize,
    pub scales: usize,
    pub long: Option<usize>,
}

// How many names are known, and how many bytes they have.
#[derive(Clone, Copy)]
pub struct NameSums {
    pub count: usize,
    pub bytes: usize,
}

#[derive(Clone, Copy)]
pub struct Survey {
    pub figures: Figures,
    pub labels: NameSums,
    pub names: NameSums,
}

// An empty line ends the sequence; a further one changes nothing.
fn with_blank(f: Figures) -> Figures
    requires { FewFigures f }
    ensures { result ≡ blanked f }
{
    Figures { present: 0, ..f }
}

// Sequences begun once a word begins: one more where none is open.
fn begun(present: usize, sequences: usize) -> usize
    requires { sequences ≤ 4294967295 }
    ensures { result ≡ cond (eqb present 0) (sequences + 1) sequences }
{
    if present == 0 {
        sequences + 1
    } else {
        sequences
    }
}

// The number of the first sequence above 128 words: that of the last begun, if there was none and it has so many now.
fn first_long(long: Option<usize>, present: usize, sequences: usize) -> Option<usize>
    ensures { result ≡ first_above long (ltb 128 present) sequences }
{
    if long.is_none() & (128 < present) {
        sequences.checked_sub(1)
    } else {
        long
    }
}

// A label begins a word.
fn with_word(f: Figures) -> Figures
    requires { FewFigures f }
    ensures { result ≡ worded f }
{
    let sequences = begun(f.present, f.sequences);
    let present = f.present + 1;
    Figures {
        sequences,
        words: f.words + 1,
        present,
        long: first_long(f.long, present, sequences),
        ..f
    }
}

// How many bytes the scale has whose colon stands at `split`; none where nothing does.
fn scale_length(split: usize, to: usize) -> usize
    ensures { result ≡ to - split - 1 }
{
    if split < to { to - split - 1 } else { 0 }
}

// An attribute with so many bytes of scale.
fn with_attribute(f: Figures, scale: usize) -> Figures
    requires { FewFigures f × (scale ≤ 4294967295) }
    ensures { result ≡ attributed f scale }
{
    Figures {
        attributes: f.attributes + 1,
        scales: f.scales + scale,
        ..f
    }
}

// Whether a name with this id is new, where so many are known.
fn is_new(id: usize, count: usize) -> bool
    ensures { result ≡ eqb id count }
{
    id == count
}

// A name with this id: where the id is the count it is new, and its bytes are counted.
fn with_id(text: &[u8], known: NameSums, id: usize, from: usize, to: usize) -> NameSums
    requires from_le_to { (from ≤ to) × (to ≤ length text.now) × (length text.now ≤ 4294967295) }
    requires count_bound { (known.count ≤ 4294967295) × (known.bytes ≤ 4294967295) }
    ensures { result ≡ grown known id (length (unescaped (slice from to text.now))) }
{
    if is_new(id, known.count) {
        let bytes = pieces::unescaped_length(text, from, to);
        return NameSums {
            count: known.count + 1,
            bytes: known.bytes + bytes,
        };
    }
    known
}

// One label more. Where there is no room for another, there are too many already.
fn with_label(text: &[u8], labels: &mut [u32], known: NameSums, from: usize, to: usize) -> NameSums
    requires { LabelAsked text.now labels.old known from to }
    ensures { let t = text.now in
        ((before : List Bytes) (name : Bytes) → KnowsFront t labels.old before known → Named t from to name
        → KnowsFront t labels.new (learnt before name) result) }
{
    if known.count < labels.len() {
        let id = distinct::learn_label(text, labels, known.count, from, to);
        return with_id(text, known, id, from, to);
    }
    known
}

// One attribute name more, likewise.
fn with_name(
    text: &[u8],
    slots: &mut [u32],
    positions: &mut [u32],
    known: NameSums,
    from: usize,
    to: usize,
) -> NameSums
    requires { NameAsked text.now slots.old positions.old known from to }
    ensures { let t = text.now in
        ((before : List Bytes) (name : Bytes) → KnowsNames t slots.old positions.old before known → Named t from to name
        → KnowsNames t slots.new positions.new (learnt before name) result) }
{
    if known.count < positions.len() {
        let id = distinct::learn(text, slots, positions, known.count, from, to);
        return with_id(text, known, id, from, to);
    }
    known
}

// One piece more.
fn with_piece(
    text: &[u8],
    labels: &mut [u32],
    slots: &mut [u32],
    positions: &mut [u32],
    survey: Survey,
    span: Span,
) -> Survey
    requires { StepAsked text.now labels.old slots.old positions.old survey span }
    ensures { let t = text.now in
        ((before : Tally) (p : Piece) → Surveys t labels.old slots.old positions.old survey before → Stands t span p
        → Surveys t labels.new slots.new positions.new result (tallied before p)) }
{
    match span.kind {
        Kind::Blank => Survey {
            figures: with_blank(survey.figures),
            ..survey
        },
        Kind::Label => Survey {
            figures: with_word(survey.figures),
            labels: with_label(text, labels, survey.labels, span.from, span.split),
            ..survey
        },
        Kind::Attribute => Survey {
            figures: with_attribute(survey.figures, scale_length(span.split, span.to)),
            names: with_name(text, slots, positions, survey.names, span.from, span.split),
            ..survey
        },
    }
}

fn nothing() -> Survey
    ensures { result ≡ untouched }
{
    Survey {
        figures: Figures {
            sequences: 0,
            words: 0,
            attributes: 0,
            present: 0,
            scales: 0,
            long: None,
        },
        labels: NameSums { count: 0, bytes: 0 },
        names: NameSums { count: 0, bytes: 0 },
    }
}

// The whole text. Slots are lent free; of labels and names the lent lists hold as many as they have room for.
pub fn survey_text(
    text: &[u8],
    labels: &mut [u32],
    slots: &mut [u32],
    positions: &mut [u32],
) -> Survey
    requires well_formed { WellFormed text.now }
    requires survey_asked { SurveyAsked text.now labels.old slots.old positions.old }
    ensures { let t = text.now in
        ((h : WellFormed t) → Surveys t labels.new slots.new positions.new result (tally_of (pieces_of h.lines))) }
{
    let mut cursor = pieces::start(text);
    let mut found = nothing();
    // From piece to piece: how far the cursor goes is told by the piece.
    while cursor.at <= text.len() {
        let span = pieces::piece_at(text, cursor);
        found = with_piece(text, labels, slots, positions, found, span);
        cursor = pieces::after(text, span.to);
    }
    found
}
