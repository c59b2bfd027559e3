// The training text, for programs in C and Rust: reading, its sizes, writing. Each is thin: one call, and its answer as numbers.
#![tactic(auto)]

ghost use Rattle.std.specs.Prelude.{◌≡◌};
ghost use Rattle.read_text.specs.Promise.{said as reading_said};
ghost use Rattle.read_text.specs.Lent.{buffers_of};
ghost use Rattle.write_check.specs.Rows.{unchecked_was};
ghost use Rattle.write_text.specs.Promise.{said as writing_said};
ghost use Rattle.text_exports.specs.Numbers.{read_numbers, written_numbers};
ghost use Rattle.text_exports.specs.Promise.{Reads, Sizes, Writes};

use lines::Totals;
use read_text::TextSizes;
use refusals::Refusal;
use write_check::Names;

// The refusal's number and place, or how many names, instances, words and attributes there are and how many bytes the names and
// the scales have; what has no value is 0.
#[repr(C)]
#[derive(Clone, Copy)]
pub struct ReadText {
    pub number: u32,
    pub place: u64,
    pub labels: u32,
    pub names: u32,
    pub instances: u32,
    pub words: u32,
    pub attributes: u32,
    pub label_bytes: u32,
    pub name_bytes: u32,
    pub scale_bytes: u32,
}

impl From<Result<TextSizes, Refusal>> for ReadText {
    ghost from_gives = { λ answer told. told ≡ read_numbers (reading_said answer) };

    fn from(answer: Result<TextSizes, Refusal>) -> ReadText {
        match answer {
            Ok(sizes) => ReadText {
                number: 0,
                place: 0,
                labels: sizes.labels,
                names: sizes.names,
                instances: sizes.instances,
                words: sizes.words,
                attributes: sizes.attributes,
                label_bytes: sizes.label_bytes,
                name_bytes: sizes.name_bytes,
                scale_bytes: sizes.scale_bytes,
            },
            Err(refusal) => ReadText {
                number: refusal.number,
                place: refusal.place,
                labels: 0,
                names: 0,
                instances: 0,
                words: 0,
                attributes: 0,
                label_bytes: 0,
                name_bytes: 0,
                scale_bytes: 0,
            },
        }
    }
}

// The tables of a text, at the fronts of those that are lent.
#[unsafe(no_mangle)]
pub extern "C" fn bodkinbloom_read_text(
    text: &[u8],
    line_starts: &mut [u32],
    word_starts: &mut [u32],
    ids: &mut [u32],
    values: &mut [f64],
    references: &mut [u32],
    instance_weights: &mut [f64],
    label_name_starts: &mut [u32],
    label_names: &mut [u8],
    attribute_name_starts: &mut [u32],
    attribute_names: &mut [u8],
    scale_starts: &mut [u32],
    scales: &mut [u8],
) -> ReadText
    ensures { let before = buffers_of line_starts.old word_starts.old ids.old values.old references.old instance_weights.old label_name_starts.old label_names.old attribute_name_starts.old attribute_names.old scale_starts.old scales.old in
        let after = buffers_of line_starts.new word_starts.new ids.new values.new references.new instance_weights.new label_name_starts.new label_names.new attribute_name_starts.new attribute_names.new scale_starts.new scales.new in
        Reads text.now before (record { answer = result; after = after }) }
{
    ReadText::from(read_text::read_text(
        text,
        line_starts,
        word_starts,
        ids,
        values,
        references,
        instance_weights,
        label_name_starts,
        label_names,
        attribute_name_starts,
        attribute_names,
        scale_starts,
        scales,
    ))
}

// The sizes of a text: what reading it answers where every table is long enough.
#[unsafe(no_mangle)]
pub extern "C" fn bodkinbloom_text_sizes(text: &[u8]) -> ReadText
    ensures { Sizes text.now result }
{
    ReadText::from(read_text::text_sizes(text))
}

// The refusal's number and place, or how many bytes were written; what has no value is 0.
#[repr(C)]
#[derive(Clone, Copy)]
pub struct WrittenText {
    pub number: u32,
    pub place: u64,
    pub length: u64,
}

impl From<Result<usize, Refusal>> for WrittenText {
    ghost from_gives = { λ answer told. told ≡ written_numbers (writing_said answer) };

    fn from(answer: Result<usize, Refusal>) -> WrittenText {
        match answer {
            Ok(length) => WrittenText {
                number: 0,
                place: 0,
                length: length as u64,
            },
            Err(why) => WrittenText {
                number: why.number,
                place: why.place,
                length: 0,
            },
        }
    }
}

// The text of tables, at the front of `text`.
#[unsafe(no_mangle)]
pub extern "C" fn bodkinbloom_write_text(
    labels: u32,
    totals: Totals,
    names: Names,
    line_starts: &[u32],
    word_starts: &[u32],
    ids: &[u32],
    references: &[u32],
    label_name_starts: &[u32],
    label_names: &[u8],
    attribute_name_starts: &[u32],
    attribute_names: &[u8],
    scale_starts: &[u32],
    scales: &[u8],
    text: &mut [u8],
) -> WrittenText
    ensures { let given = unchecked_was labels totals names line_starts word_starts ids references label_name_starts label_names attribute_name_starts attribute_names scale_starts scales in
        Writes given text.old (record { answer = result; text = text.new }) }
{
    WrittenText::from(write_text::write_text(
        labels,
        totals,
        names,
        line_starts,
        word_starts,
        ids,
        references,
        label_name_starts,
        label_names,
        attribute_name_starts,
        attribute_names,
        scale_starts,
        scales,
        text,
    ))
}
