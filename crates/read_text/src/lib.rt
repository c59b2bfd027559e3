// The reader of a training text, and the sizes of one. 11 of the text comes first, then 2 of its length; then it is surveyed, and 2
// and 4 come from the figures; only then is anything filled.
#![tactic(auto)]

ghost use Rattle.std.specs.Prelude.{◌≡◌};
ghost use Rattle.layout.specs.Layout.{WellFormed, sequences};
ghost use Rattle.read_text.specs.Promise.{ReadOf, Promised, said};
ghost use Rattle.read_text.specs.Sizes.{sized_of, SizesPromised};
ghost use Rattle.read_text.specs.Lent.{buffers_of};
ghost use Rattle.text_bytes.specs.Bytes.{Readable};
ghost use Rattle.read_text.specs.Steps.{sizes_in_of, SmallSurvey, FreeSlots, SurveyMade};

use refusals::Refusal;
use survey::Survey;
use text_check::Lengths;

// How many names, instances, words and attributes were read, and how many bytes the names and the scales have.
#[derive(Clone, Copy)]
pub struct TextSizes {
    pub labels: u32,
    pub names: u32,
    pub instances: u32,
    pub words: u32,
    pub attributes: u32,
    pub label_bytes: u32,
    pub name_bytes: u32,
    pub scale_bytes: u32,
}

// The figures of a survey as an answer.
fn sizes_in(survey: Survey) -> TextSizes
    requires { SmallSurvey survey }
    ensures { result ≡ sizes_in_of survey }
{
    let figures = survey.figures;
    let labels = survey.labels;
    let names = survey.names;
    TextSizes {
        labels: labels.count as u32,
        names: names.count as u32,
        instances: figures.sequences as u32,
        words: figures.words as u32,
        attributes: figures.attributes as u32,
        label_bytes: labels.bytes as u32,
        name_bytes: names.bytes as u32,
        scale_bytes: figures.scales as u32,
    }
}

// 2 and 4, from the survey; where nothing is refused, all twelve tables are filled.
fn fill_checked(
    text: &[u8],
    labels: &[u32],
    slots: &[u32],
    positions: &[u32],
    survey: Survey,
    line_starts: &mut [u32],
    word_starts: &mut [u32],
    ids: &mut [u32],
    values: &mut [f64],
    references: &mut [u32],
    instance_weights: &mut [f64],
    label_name_starts: &mut [u32],
    label_names: &mut [u8],
    attribute_name_starts: &mut [u32],
    attribute_names: &mut [u8],
    scale_starts: &mut [u32],
    scales: &mut [u8],
) -> Result<TextSizes, Refusal>
    requires { SurveyMade text.now labels.now slots.now positions.now survey }
    ensures { let before = buffers_of line_starts.old word_starts.old ids.old values.old references.old instance_weights.old label_name_starts.old label_names.old attribute_name_starts.old attribute_names.old scale_starts.old scales.old in
        let after = buffers_of line_starts.new word_starts.new ids.new values.new references.new instance_weights.new label_name_starts.new label_names.new attribute_name_starts.new attribute_names.new scale_starts.new scales.new in
        ((h : WellFormed text.now) → ReadOf text.now (sequences h.lines) before (record { answer = result; after = after })) }
{
    let have = Lengths {
        lines: line_starts.len(),
        begins: word_starts.len(),
        ids: ids.len(),
        values: values.len(),
        references: references.len(),
        weights: instance_weights.len(),
        label_starts: label_name_starts.len(),
        label_bytes: label_names.len(),
        name_starts: attribute_name_starts.len(),
        name_bytes: attribute_names.len(),
        scale_starts: scale_starts.len(),
        scale_bytes: scales.len(),
    };
    // Not by `?`: the edit `refused_table_touched` touches a table on this way out.
    if let Err(why) = text_check::check_text(survey, have) {
        return Err(why);
    }
    let known = survey.labels;
    let names = survey.names;
    fill_text::fill(
        text,
        labels,
        known.count,
        slots,
        positions,
        names.count,
        line_starts,
        word_starts,
        ids,
        values,
        references,
        instance_weights,
        label_name_starts,
        label_names,
        attribute_name_starts,
        attribute_names,
        scale_starts,
        scales,
    );
    Ok(sizes_in(survey))
}

// The survey, with lists of its own for the places of names: one more than may be, so that too many are seen. Then the rest.
fn read_with(
    text: &[u8],
    slots: &mut [u32],
    line_starts: &mut [u32],
    word_starts: &mut [u32],
    ids: &mut [u32],
    values: &mut [f64],
    references: &mut [u32],
    instance_weights: &mut [f64],
    label_name_starts: &mut [u32],
    label_names: &mut [u8],
    attribute_name_starts: &mut [u32],
    attribute_names: &mut [u8],
    scale_starts: &mut [u32],
    scales: &mut [u8],
) -> Result<TextSizes, Refusal>
    requires { Readable text.now × FreeSlots slots.old }
    ensures { let before = buffers_of line_starts.old word_starts.old ids.old values.old references.old instance_weights.old label_name_starts.old label_names.old attribute_name_starts.old attribute_names.old scale_starts.old scales.old in
        let after = buffers_of line_starts.new word_starts.new ids.new values.new references.new instance_weights.new label_name_starts.new label_names.new attribute_name_starts.new attribute_names.new scale_starts.new scales.new in
        ((h : WellFormed text.now) → ReadOf text.now (sequences h.lines) before (record { answer = result; after = after })) }
{
    let mut labels = [0u32; 33];
    let mut positions = [0u32; 65536];
    let survey = survey::survey_text(text, &mut labels, slots, &mut positions);
    fill_checked(
        text,
        &labels,
        slots,
        &positions,
        survey,
        line_starts,
        word_starts,
        ids,
        values,
        references,
        instance_weights,
        label_name_starts,
        label_names,
        attribute_name_starts,
        attribute_names,
        scale_starts,
        scales,
    )
}

// The tables of a text at the fronts of what is lent, and their sizes; or the refusal.
pub fn read_text(
    text: &[u8],
    line_starts: &mut [u32],
    word_starts: &mut [u32],
    ids: &mut [u32],
    values: &mut [f64],
    references: &mut [u32],
    instance_weights: &mut [f64],
    label_name_starts: &mut [u32],
    label_names: &mut [u8],
    attribute_name_starts: &mut [u32],
    attribute_names: &mut [u8],
    scale_starts: &mut [u32],
    scales: &mut [u8],
) -> Result<TextSizes, Refusal>
    ensures { let before = buffers_of line_starts.old word_starts.old ids.old values.old references.old instance_weights.old label_name_starts.old label_names.old attribute_name_starts.old attribute_names.old scale_starts.old scales.old in
        let after = buffers_of line_starts.new word_starts.new ids.new values.new references.new instance_weights.new label_name_starts.new label_names.new attribute_name_starts.new attribute_names.new scale_starts.new scales.new in
        Promised text.now before (record { answer = result; after = after }) }
{
    text_bytes::check_bytes(text)?;
    let mut slots = [0u32; 131072];
    read_with(
        text,
        &mut slots,
        line_starts,
        word_starts,
        ids,
        values,
        references,
        instance_weights,
        label_name_starts,
        label_names,
        attribute_name_starts,
        attribute_names,
        scale_starts,
        scales,
    )
}

// 2 and 4 of a well-formed text that is not too long, or its sizes.
fn sizes_readable(text: &[u8]) -> Result<TextSizes, Refusal>
    requires { Readable text.now }
    ensures { (h : WellFormed text.now) → said result ≡ sized_of text.now (sequences h.lines) }
{
    let survey = text_check::survey_alone(text);
    text_check::check_sizes(survey)?;
    Ok(sizes_in(survey))
}

// The sizes of a text; or the refusal.
pub fn text_sizes(text: &[u8]) -> Result<TextSizes, Refusal>
    ensures { SizesPromised text.now result }
{
    text_bytes::check_bytes(text)?;
    sizes_readable(text)
}
