// The writer: a training text of tables, which the reader reads back. Everything is checked first; a refusal leaves the text as it was.
#![tactic(auto)]

ghost use Rattle.std.specs.Prelude.{◌≡◌};
ghost use Rattle.write_check.specs.Rows.{unchecked_was};
ghost use Rattle.write_text.specs.Promise.{Promised};

use lines::Totals;
use refusals::Refusal;
use write_check::Names;

// The text of all sequences, at the front of `text`: how many bytes were written, or the refusal.
pub fn write_text(
    labels: u32,
    totals: Totals,
    names: Names,
    lines: &[u32],
    begins: &[u32],
    ids: &[u32],
    references: &[u32],
    label_name_starts: &[u32],
    label_names: &[u8],
    attribute_name_starts: &[u32],
    attribute_names: &[u8],
    scale_starts: &[u32],
    scales: &[u8],
    text: &mut [u8],
) -> Result<usize, Refusal>
    ensures { let given = unchecked_was labels totals names lines begins ids references label_name_starts label_names attribute_name_starts attribute_names scale_starts scales in
        Promised given text.old (record { answer = result; text = text.new }) }
{
    let checked = write_check::check_written(
        labels,
        totals,
        names,
        lines,
        begins,
        ids,
        references,
        label_name_starts,
        label_names,
        attribute_name_starts,
        attribute_names,
        scale_starts,
        scales,
        text.len(),
    );
    checked?;
    let end = text_writing::put_sequences(
        text,
        totals.instances as usize,
        lines,
        begins,
        ids,
        references,
        label_name_starts,
        label_names,
        attribute_name_starts,
        attribute_names,
        scale_starts,
        scales,
    );
    Ok(end)
}
