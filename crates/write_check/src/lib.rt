// The checks of the writer: 1, 2, 3, 4 and 5 of the tables that it reads, 2 of the text's room, which only sound tables have a need
// for, and 11 last: names and kept texts that the layout cannot carry, each table in a loop, the lowest index first.
#![tactic(auto)]

ghost use Rattle.std.specs.Prelude.{◌≡◌, ◌||◌, ◌++◌, ℕ, ◌+◌, ◌≤◌, ◌<◌, ltb, length};
ghost use Rattle.std.proofs.Math.Seq.{slice};
ghost use Rattle.refusals.specs.Refusals.{first};
ghost use Rattle.refusals.specs.Tables.{outside};
ghost use Rattle.refusal_rows.specs.Limits.{any_broken};
ghost use Rattle.refusal_rows.specs.Tests.{checks};
ghost use Rattle.text_tables.specs.Written.{string_at};
ghost use Rattle.text_writing.specs.Ready.{strings, StringStands};
ghost use Rattle.write_check.specs.Carry.{unclean, no_name, no_scale, not_kept, Digitwise, names_checked, scales_checked};
ghost use Rattle.write_check.specs.Rows.{unchecked_of, unchecked_was, count_limits, word_limits, string_limits, rising_tests, written_starts, written_lengths, written_ids, text_rows, write_sized_of, write_checked};
ghost use Rattle.write_check.specs.Sound.{WriteFits, SoundUnwritten};

use lines::Totals;
use refusals::Refusal;

pub const MOST_ATTRIBUTE_NAMES: u32 = 65535;

// How many attribute names there are, and how many bytes the names of labels, those of attributes and the kept texts have.
#[repr(C)]
#[derive(Clone, Copy)]
pub struct Names {
    pub attributes: u32,
    pub label_bytes: u32,
    pub attribute_bytes: u32,
    pub scale_bytes: u32,
}

// 2: whether a count is outside its bound.
fn exceeds_written(totals: Totals, attribute_names: u32) -> bool
    ensures { result ≡ any_broken (count_limits attribute_names totals) }
{
    (MOST_ATTRIBUTE_NAMES < attribute_names)
        | refusals::is_outside(1, training_check::MOST_INSTANCES, totals.instances)
        | (training_check::MOST_WORDS_IN_ALL < totals.words)
        | (line_check::MOST_ATTRIBUTES < totals.attributes)
}

// 2: whether a table of the words is too short.
fn lacks_words(
    totals: Totals,
    lines: &[u32],
    begins: &[u32],
    ids: &[u32],
    references: &[u32],
) -> bool
    ensures { result ≡ any_broken (word_limits totals (length lines.now) (length begins.now) (length ids.now) (length references.now)) }
{
    (lines.len() < totals.instances as usize + 1)
        | (begins.len() < totals.words as usize + 1)
        | (ids.len() < totals.attributes as usize)
        | (references.len() < totals.words as usize)
}

// 2: whether a table of names or of kept texts is too short.
fn lacks_strings(
    labels: u32,
    attributes: u32,
    names: Names,
    label_name_starts: &[u32],
    label_names: &[u8],
    attribute_name_starts: &[u32],
    attribute_names: &[u8],
    scale_starts: &[u32],
    scales: &[u8],
) -> bool
    ensures { result ≡ any_broken (string_limits labels attributes names
        (length label_name_starts.now) (length label_names.now) (length attribute_name_starts.now) (length attribute_names.now) (length scale_starts.now) (length scales.now)) }
{
    (label_name_starts.len() < labels as usize + 1)
        | (label_names.len() < names.label_bytes as usize)
        | (attribute_name_starts.len() < names.attributes as usize + 1)
        | (attribute_names.len() < names.attribute_bytes as usize)
        | (scale_starts.len() < attributes as usize + 1)
        | (scales.len() < names.scale_bytes as usize)
}

// 1, then 2 of the counts, then 2 of the rooms: what can be said before any table is read.
#[tactic(auto, using(refusals::proofs::Laws::handed), unfolding(refusals::specs::Refusals::or_next_of, crate::specs::Rows::write_sized_of))]
fn written_sizes(
    labels: u32,
    totals: Totals,
    names: Names,
    lines: &[u32],
    begins: &[u32],
    ids: &[u32],
    references: &[u32],
    label_name_starts: &[u32],
    label_names: &[u8],
    attribute_name_starts: &[u32],
    attribute_names: &[u8],
    scale_starts: &[u32],
    scales: &[u8],
) -> Result<(), Refusal>
    ensures { result ≡ write_sized_of (unchecked_was labels totals names lines begins ids references label_name_starts label_names attribute_name_starts attribute_names scale_starts scales) }
{
    score_tables::check_labels(labels)?;
    refusals::refuse_if(2, 0, exceeds_written(totals, names.attributes))?;
    let words = lacks_words(totals, lines, begins, ids, references);
    let strings = lacks_strings(
        labels,
        totals.attributes,
        names,
        label_name_starts,
        label_names,
        attribute_name_starts,
        attribute_names,
        scale_starts,
        scales,
    );
    refusals::refuse_if(2, 0, words | strings)
}

// 3 of the five tables of starts.
#[tactic(auto, using(refusals::proofs::Laws::handed), unfolding(refusals::specs::Refusals::or_next_of))]
fn check_rising(
    labels: u32,
    totals: Totals,
    names: Names,
    lines: &[u32],
    begins: &[u32],
    label_name_starts: &[u32],
    attribute_name_starts: &[u32],
    scale_starts: &[u32],
) -> Result<(), Refusal>
    requires instances_in_bounds { totals.instances < length lines.now }
    requires words_in_bounds { totals.words < length begins.now }
    requires labels_in_bounds { labels < length label_name_starts.now }
    requires attributes_in_bounds { names.attributes < length attribute_name_starts.now }
    requires attributes_in_bounds_2 { totals.attributes < length scale_starts.now }
    ensures { result ≡ first (checks (rising_tests labels totals names lines.now begins.now label_name_starts.now attribute_name_starts.now scale_starts.now)) }
{
    let instances = totals.instances as usize;
    let known = names.attributes as usize;
    let attributes = totals.attributes as usize;
    table_checks::check_starts(lines, instances, totals.words)?;
    table_checks::check_starts(begins, totals.words as usize, totals.attributes)?;
    table_checks::check_starts(label_name_starts, labels as usize, names.label_bytes)?;
    table_checks::check_starts(attribute_name_starts, known, names.attribute_bytes)?;
    table_checks::check_starts(scale_starts, attributes, names.scale_bytes)
}

// 3, 4 and 5: all that is said of the tables before a name is read.
#[tactic(auto, using(refusals::proofs::Laws::handed), unfolding(refusals::specs::Refusals::or_next_of))]
fn check_lists(
    labels: u32,
    totals: Totals,
    names: Names,
    lines: &[u32],
    begins: &[u32],
    ids: &[u32],
    references: &[u32],
    label_name_starts: &[u32],
    label_names: &[u8],
    attribute_name_starts: &[u32],
    attribute_names: &[u8],
    scale_starts: &[u32],
    scales: &[u8],
) -> Result<(), Refusal>
    requires { WriteFits (unchecked_of labels totals names lines.now begins.now ids.now references.now label_name_starts.now label_names.now attribute_name_starts.now attribute_names.now scale_starts.now scales.now) }
    ensures { let g = unchecked_was labels totals names lines begins ids references label_name_starts label_names attribute_name_starts attribute_names scale_starts scales in
        result ≡ first (checks (written_starts g ++ written_lengths g ++ written_ids g)) }
{
    check_rising(
        labels,
        totals,
        names,
        lines,
        begins,
        label_name_starts,
        attribute_name_starts,
        scale_starts,
    )?;
    training_check::check_lengths(lines, totals.instances as usize)?;
    table_checks::check_ids(ids, totals.attributes as usize, names.attributes)?;
    table_checks::check_ids(references, totals.words as usize, labels)
}

// Whether there is a tab or a line feed among the bytes.
fn is_unclean(bytes: &[u8], from: usize, to: usize) -> bool
    requires { (from ≤ to) × (to ≤ length bytes.now) }
    ensures { result ≡ unclean (slice from to bytes.now) }
{
    for b in &bytes[from..to] {
        if (*b == b'\t') | (*b == b'\n') {
            return true;
        }
    }
    false
}

// Whether string i is no name.
fn lacks_name(starts: &[u32], bytes: &[u8], i: usize) -> bool
    requires { StringStands (strings starts.now bytes.now) i }
    ensures { result ≡ no_name (string_at (strings starts.now bytes.now) i) }
{
    let from = lines::at(starts, i);
    let to = lines::at(starts, i + 1);
    (from == to) | is_unclean(bytes, from, to)
}

// Where the digits begin: behind a minus, if there is one.
fn digits_from(bytes: &[u8], from: usize, to: usize) -> usize
    requires { (from ≤ to) × (to ≤ length bytes.now) }
    ensures { Digitwise bytes.now from to result }
{
    if from < to && bytes[from] == b'-' {
        from + 1
    } else {
        from
    }
}

// Whether so many points and digits make no scale.
fn miscounts(points: usize, digits: usize) -> bool
    ensures { result ≡ (outside 1 15 digits || ltb 1 points) }
{
    (digits < 1) | (15 < digits) | (1 < points)
}

// Whether the bytes are no scale.
fn is_no_scale(bytes: &[u8], from: usize, to: usize) -> bool
    requires { (from ≤ to) × (to ≤ length bytes.now) }
    ensures { result ≡ no_scale (slice from to bytes.now) }
{
    let first = digits_from(bytes, from, to);
    let mut points = 0usize;
    let mut digits = 0usize;
    for b in &bytes[first..to] {
        match *b {
            b'.' => points += 1,
            b'0'..=b'9' => digits += 1,
            _ => return true,
        }
    }
    miscounts(points, digits)
}

// Whether string i is neither empty nor a scale.
fn lacks_scale(starts: &[u32], bytes: &[u8], i: usize) -> bool
    requires { StringStands (strings starts.now bytes.now) i }
    ensures { result ≡ not_kept (string_at (strings starts.now bytes.now) i) }
{
    let from = lines::at(starts, i);
    let to = lines::at(starts, i + 1);
    !(from == to) & is_no_scale(bytes, from, to)
}

// 11 of a table of names.
fn check_names(starts: &[u32], bytes: &[u8], n: usize) -> Result<(), Refusal>
    requires { (i : ℕ) → i < n → StringStands (strings starts.now bytes.now) i }
    ensures { result ≡ names_checked (strings starts.now bytes.now) n }
{
    for i in 0..n {
        let bad = lacks_name(starts, bytes, i);
        if bad {
            return refusals::refused(11, i);
        }
    }
    Ok(())
}

// 11 of a table of kept texts.
fn check_scales(starts: &[u32], bytes: &[u8], n: usize) -> Result<(), Refusal>
    requires { (i : ℕ) → i < n → StringStands (strings starts.now bytes.now) i }
    ensures { result ≡ scales_checked (strings starts.now bytes.now) n }
{
    for i in 0..n {
        let bad = lacks_scale(starts, bytes, i);
        if bad {
            return refusals::refused(11, i);
        }
    }
    Ok(())
}

// 2 of the text's room, then 11 of the labels, the attributes and the scales.
#[tactic(auto, using(refusals::proofs::Laws::handed), unfolding(refusals::specs::Refusals::or_next_of))]
fn check_text(
    labels: u32,
    totals: Totals,
    names: Names,
    lines: &[u32],
    begins: &[u32],
    ids: &[u32],
    references: &[u32],
    label_name_starts: &[u32],
    label_names: &[u8],
    attribute_name_starts: &[u32],
    attribute_names: &[u8],
    scale_starts: &[u32],
    scales: &[u8],
    room: usize,
) -> Result<(), Refusal>
    requires { SoundUnwritten (unchecked_of labels totals names lines.now begins.now ids.now references.now label_name_starts.now label_names.now attribute_name_starts.now attribute_names.now scale_starts.now scales.now) }
    ensures { result ≡ first (text_rows (unchecked_was labels totals names lines begins ids references label_name_starts label_names attribute_name_starts attribute_names scale_starts scales) room) }
{
    let words = totals.words as usize;
    let attributes = totals.attributes as usize;
    let need = text_writing::written_length(
        totals.instances as usize,
        words,
        attributes,
        lines,
        begins,
        ids,
        references,
        label_name_starts,
        label_names,
        attribute_name_starts,
        attribute_names,
        scale_starts,
        scales,
    );
    refusals::refuse_if(2, 0, room < need)?;
    check_names(label_name_starts, label_names, labels as usize)?;
    check_names(
        attribute_name_starts,
        attribute_names,
        names.attributes as usize,
    )?;
    check_scales(scale_starts, scales, attributes)
}

// Every refusal of the writer, into a text with so much room.
pub fn check_written(
    labels: u32,
    totals: Totals,
    names: Names,
    lines: &[u32],
    begins: &[u32],
    ids: &[u32],
    references: &[u32],
    label_name_starts: &[u32],
    label_names: &[u8],
    attribute_name_starts: &[u32],
    attribute_names: &[u8],
    scale_starts: &[u32],
    scales: &[u8],
    room: usize,
) -> Result<(), Refusal>
    ensures { result ≡ write_checked (unchecked_was labels totals names lines begins ids references label_name_starts label_names attribute_name_starts attribute_names scale_starts scales) room }
{
    written_sizes(
        labels,
        totals,
        names,
        lines,
        begins,
        ids,
        references,
        label_name_starts,
        label_names,
        attribute_name_starts,
        attribute_names,
        scale_starts,
        scales,
    )?;
    check_lists(
        labels,
        totals,
        names,
        lines,
        begins,
        ids,
        references,
        label_name_starts,
        label_names,
        attribute_name_starts,
        attribute_names,
        scale_starts,
        scales,
    )?;
    check_text(
        labels,
        totals,
        names,
        lines,
        begins,
        ids,
        references,
        label_name_starts,
        label_names,
        attribute_name_starts,
        attribute_names,
        scale_starts,
        scales,
        room,
    )
}
