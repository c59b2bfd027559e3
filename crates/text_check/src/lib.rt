// What the reader of a training text refuses once the text is known to be well-formed, from the figures of its survey and the
// lengths of the twelve tables: 2 of the counts, 2 of the rooms, then 4. 2 of the text's own length comes before the survey.
#![tactic(auto)]

ghost use Rattle.std.specs.Prelude.{◌≡◌, List, [], ℕ, ◌≤◌, length};
ghost use Rattle.refusal_rows.specs.Limits.{any_broken};
ghost use Rattle.layout.specs.Layout.{Word, WellFormed, sequences};
ghost use Rattle.distinct.specs.Slots.{Filed};
ghost use Rattle.text_check.specs.Rows.{text_sized, text_checked};
ghost use Rattle.text_check.specs.Told.{TellsSequences, survey_counts, survey_rooms, long_refused, FewSurvey, TextSurveyed};

use refusals::Refusal;
use survey::Survey;

// How long the tables are that the reader is lent, in the call's order.
#[derive(Clone, Copy)]
pub struct Lengths {
    pub lines: usize,
    pub begins: usize,
    pub ids: usize,
    pub values: usize,
    pub references: usize,
    pub weights: usize,
    pub label_starts: usize,
    pub label_bytes: usize,
    pub name_starts: usize,
    pub name_bytes: usize,
    pub scale_starts: usize,
    pub scale_bytes: usize,
}

// 2: whether a count is outside its bound. No word at all is no instance.
fn exceeds_text(survey: Survey) -> bool
    ensures { result ≡ any_broken (survey_counts survey) }
{
    let figures = survey.figures;
    let labels = survey.labels;
    let names = survey.names;
    (32 < labels.count)
        | (65535 < names.count)
        | ((figures.sequences < 1) | (16384 < figures.sequences))
        | (1048576 < figures.words)
        | (4194304 < figures.attributes)
}

// 2: whether a table is too short.
fn lacks_text(survey: Survey, have: Lengths) -> bool
    requires { FewSurvey survey }
    ensures { result ≡ any_broken (survey_rooms survey have) }
{
    let figures = survey.figures;
    let labels = survey.labels;
    let names = survey.names;
    let lines = figures.sequences + 1;
    let begins = figures.words + 1;
    let label_starts = labels.count + 1;
    let name_starts = names.count + 1;
    let scale_starts = figures.attributes + 1;
    (have.lines < lines)
        | (have.begins < begins)
        | (have.ids < figures.attributes)
        | (have.values < figures.attributes)
        | (have.references < figures.words)
        | (have.weights < figures.sequences)
        | (have.label_starts < label_starts)
        | (have.label_bytes < labels.bytes)
        | (have.name_starts < name_starts)
        | (have.name_bytes < names.bytes)
        | (have.scale_starts < scale_starts)
        | (have.scale_bytes < figures.scales)
}

// 4: the first sequence above 128 words, if there is one.
fn check_long(long: Option<usize>) -> Result<(), Refusal>
    ensures { result ≡ long_refused long }
{
    match long {
        Some(number) => refusals::refused(4, number),
        None => Ok(()),
    }
}

// 2 and 4, where nothing is to be filled.
pub fn check_sizes(survey: Survey) -> Result<(), Refusal>
    ensures { (bytes : ℕ) (ss : List (List Word)) → bytes ≤ 4294967295 → TellsSequences ss survey → result ≡ text_sized bytes ss }
{
    refusals::refuse_if(2, 0, exceeds_text(survey))?;
    check_long(survey.figures.long)
}

// 2, 2 and 4, with tables of these lengths.
pub fn check_text(survey: Survey, have: Lengths) -> Result<(), Refusal>
    requires { FewSurvey survey }
    ensures { (bytes : ℕ) (ss : List (List Word)) → bytes ≤ 4294967295 → TellsSequences ss survey → result ≡ text_checked bytes ss have }
{
    let figures = survey.figures;
    refusals::refuse_if(2, 0, exceeds_text(survey))?;
    refusals::refuse_if(2, 0, lacks_text(survey, have))?;
    check_long(figures.long)
}

// The survey, with lists of its own for the places of names: one more than may be, so that too many are seen.
fn survey_with(text: &[u8], slots: &mut [u32]) -> Survey
    requires well_formed { WellFormed text.now }
    requires text_len_bound { (length text.now ≤ 4294967295) × (length slots.old ≡ 131072) × Filed (length slots.old) [] slots.old }
    ensures { (h : WellFormed text.now) → TextSurveyed (sequences h.lines) result }
{
    let mut labels = [0u32; 33];
    let mut positions = [0u32; 65536];
    survey::survey_text(text, &mut labels, slots, &mut positions)
}

// The survey of a text whose tables are not filled.
pub fn survey_alone(text: &[u8]) -> Survey
    requires well_formed { WellFormed text.now }
    requires text_len_bound { length text.now ≤ 4294967295 }
    ensures { (h : WellFormed text.now) → TextSurveyed (sequences h.lines) result }
{
    let mut slots = [0u32; 131072];
    survey_with(text, &mut slots)
}
