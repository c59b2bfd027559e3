// Features and the model that holds them, after `feature_gen.rs`: kinds State 0 and Transition 1, and the check of a model: of
// its tables, and of its weights apart. Every call that is lent a model takes the sooner of these checks and its own.
#![tactic(auto)]

ghost use Rattle.std.specs.Prelude.{◌≡◌, [], ◌∷◌, ◌<◌, ◌≤◌, length};
ghost use Rattle.refusals.specs.Refusals.{first};
ghost use Rattle.refusal_rows.specs.Limits.{any_broken};
ghost use Rattle.refusals.specs.Bounds.{Table, attribute_list_table, label_list_table};
ghost use Rattle.refusal_rows.specs.Tests.{starts_rise, ids_below, checks};
ghost use Rattle.feature_gen.specs.Rows.{count_limits, feature_rooms, list_rooms, feature_tests};
ghost use Rattle.feature_gen.specs.Parts.{tables_sized_of, tables_checked, weights_checked, weighted_checked};
ghost use Rattle.feature_gen.specs.Lent.{features_of, attribute_lists_for, label_lists_for, model_was};
ghost use Rattle.feature_gen.specs.CheckModel.{ModelChecked};

use refusals::Refusal;

pub const STATE: u8 = 0;

pub const TRANSITION: u8 = 1;

pub const MOST_FEATURES: u32 = 65535;

pub const MOST_ATTRIBUTE_LISTS: u32 = 65535;

pub const MOST_LABEL_LISTS: u32 = 32;

pub const MOST_ENTRIES: u32 = 1048576;

// The counts of a model, which are numbers of their own beside the tables.
#[repr(C)]
#[derive(Clone, Copy)]
pub struct Counts {
    pub features: u32,
    pub attribute_lists: u32,
    pub label_lists: u32,
    pub attribute_entries: u32,
    pub label_entries: u32,
}

// 2: whether a count is outside its bound.
fn exceeds(counts: Counts) -> bool
    ensures { result ≡ any_broken (count_limits counts.features counts.attribute_lists counts.label_lists counts.attribute_entries counts.label_entries) }
{
    (MOST_FEATURES < counts.features)
        | (MOST_ATTRIBUTE_LISTS < counts.attribute_lists)
        | (MOST_LABEL_LISTS < counts.label_lists)
        | (MOST_ENTRIES < counts.attribute_entries)
        | (MOST_ENTRIES < counts.label_entries)
}

// 2: whether a table of the features is too short.
fn lacks_features(counts: Counts, kinds: &[u8], destinations: &[u32], sources: &[u32]) -> bool
    ensures { result ≡ any_broken (feature_rooms (features_of counts kinds.now destinations.now sources.now)) }
{
    let n = counts.features as usize;
    (kinds.len() < n) | (destinations.len() < n) | (sources.len() < n)
}

// 2: whether a table of the lists is too short.
fn lacks_lists(
    counts: Counts,
    attribute_starts: &[u32],
    attribute_entries: &[u32],
    label_starts: &[u32],
    label_entries: &[u32],
) -> bool
    ensures { result ≡ any_broken (list_rooms (attribute_lists_for counts attribute_starts.now attribute_entries.now) (label_lists_for counts label_starts.now label_entries.now)) }
{
    (attribute_starts.len() < counts.attribute_lists as usize + 1)
        | (attribute_entries.len() < counts.attribute_entries as usize)
        | (label_starts.len() < counts.label_lists as usize + 1)
        | (label_entries.len() < counts.label_entries as usize)
}

// 3 for the lists: attribute lists, then label lists.
#[tactic(auto, using(refusals::proofs::Laws::handed), unfolding(refusals::specs::Refusals::or_next_of))]
fn check_starts(
    counts: Counts,
    attribute_starts: &[u32],
    label_starts: &[u32],
) -> Result<(), Refusal>
    requires attribute_lists_in_bounds { counts.attribute_lists < length attribute_starts.now }
    requires label_lists_in_bounds { counts.label_lists < length label_starts.now }
    ensures { result ≡ first (checks (starts_rise attribute_list_table attribute_starts.now counts.attribute_lists counts.attribute_entries ∷ starts_rise label_list_table label_starts.now counts.label_lists counts.label_entries ∷ [])) }
{
    let attributes = counts.attribute_lists as usize;
    let labels = counts.label_lists as usize;
    table_checks::check_starts(attribute_starts, attributes, counts.attribute_entries)?;
    table_checks::check_starts(label_starts, labels, counts.label_entries)
}

// 5 for the features: kinds, then destinations, then sources.
#[tactic(auto, using(refusals::proofs::Laws::handed), unfolding(refusals::specs::Refusals::or_next_of))]
fn check_features(
    labels: u32,
    counts: Counts,
    kinds: &[u8],
    destinations: &[u32],
    sources: &[u32],
) -> Result<(), Refusal>
    requires features_in_bounds { counts.features ≤ length kinds.now }
    requires features_in_bounds_2 { counts.features ≤ length destinations.now }
    requires features_in_bounds_3 { counts.features ≤ length sources.now }
    ensures { result ≡ first (checks (feature_tests labels (features_of counts kinds.now destinations.now sources.now))) }
{
    let n = counts.features as usize;
    table_checks::check_kinds(kinds, n)?;
    table_checks::check_ids(destinations, n, labels)?;
    table_checks::check_sources(kinds, sources, n, labels)
}

// 5 for the lists: entries of attribute lists, then of label lists.
#[tactic(auto, using(refusals::proofs::Laws::handed), unfolding(refusals::specs::Refusals::or_next_of))]
fn check_entries(
    counts: Counts,
    attribute_entries: &[u32],
    label_entries: &[u32],
) -> Result<(), Refusal>
    requires attribute_entries_in_bounds { counts.attribute_entries ≤ length attribute_entries.now }
    requires label_entries_in_bounds { counts.label_entries ≤ length label_entries.now }
    ensures { result ≡ first (checks (ids_below attribute_list_table attribute_entries.now counts.attribute_entries counts.features ∷ ids_below label_list_table label_entries.now counts.label_entries counts.features ∷ [])) }
{
    let attributes = counts.attribute_entries as usize;
    let labels = counts.label_entries as usize;
    table_checks::check_ids(attribute_entries, attributes, counts.features)?;
    table_checks::check_ids(label_entries, labels, counts.features)
}

// 2 of a model's tables: what can be said of them before any is read.
fn check_sizes(
    labels: u32,
    counts: Counts,
    kinds: &[u8],
    destinations: &[u32],
    sources: &[u32],
    attribute_starts: &[u32],
    attribute_entries: &[u32],
    label_starts: &[u32],
    label_entries: &[u32],
) -> Result<(), Refusal>
    ensures { let m = model_was labels counts kinds destinations sources attribute_starts attribute_entries label_starts label_entries in
        result ≡ tables_sized_of m }
{
    let outside = exceeds(counts);
    let features = lacks_features(counts, kinds, destinations, sources);
    let lists = lacks_lists(
        counts,
        attribute_starts,
        attribute_entries,
        label_starts,
        label_entries,
    );
    refusals::refuse_if(2, 0, outside | (features | lists))
}

// 2, 3 and 5 of a model's tables, its weights apart.
#[tactic(auto, using(refusals::proofs::Laws::handed), unfolding(refusals::specs::Refusals::or_next_of, refusal_rows::specs::Parts::part_checked, crate::specs::Parts::tables_sized_of, crate::specs::Parts::tables_checked))]
pub fn check_tables(
    labels: u32,
    counts: Counts,
    kinds: &[u8],
    destinations: &[u32],
    sources: &[u32],
    attribute_starts: &[u32],
    attribute_entries: &[u32],
    label_starts: &[u32],
    label_entries: &[u32],
) -> Result<(), Refusal>
    ensures { let m = model_was labels counts kinds destinations sources attribute_starts attribute_entries label_starts label_entries in
        result ≡ tables_checked m }
{
    check_sizes(
        labels,
        counts,
        kinds,
        destinations,
        sources,
        attribute_starts,
        attribute_entries,
        label_starts,
        label_entries,
    )?;
    check_starts(counts, attribute_starts, label_starts)?;
    check_features(labels, counts, kinds, destinations, sources)?;
    check_entries(counts, attribute_entries, label_entries)
}

// 2 and 6 of so many weights: those of the features, or those of a trainer's instances.
#[tactic(auto, using(refusals::proofs::Laws::handed), unfolding(refusals::specs::Refusals::or_next_of, refusal_rows::specs::Parts::part_checked, crate::specs::Parts::weights_checked))]
pub fn check_weights(weights: &[f64], count: u32) -> Result<(), Refusal>
    ensures { (which : Table) → result ≡ weights_checked which count weights.now }
{
    let n = count as usize;
    refusals::refuse_if(2, 0, refusals::is_short(weights.len(), n))?;
    table_checks::check_numbers(weights, n)
}

// 2, 3, 5 and 6 of a model with its weights.
pub fn check_weighted(
    labels: u32,
    counts: Counts,
    kinds: &[u8],
    destinations: &[u32],
    sources: &[u32],
    weights: &[f64],
    attribute_starts: &[u32],
    attribute_entries: &[u32],
    label_starts: &[u32],
    label_entries: &[u32],
) -> Result<(), Refusal>
    ensures { let m = model_was labels counts kinds destinations sources attribute_starts attribute_entries label_starts label_entries in
        result ≡ weighted_checked m weights.now }
{
    let tables = check_tables(
        labels,
        counts,
        kinds,
        destinations,
        sources,
        attribute_starts,
        attribute_entries,
        label_starts,
        label_entries,
    );
    refusals::sooner(tables, check_weights(weights, counts.features))
}

// Whether a model is one that document 01 accepts: 1, then 2, 3, 5 and 6.
pub fn check_model(
    labels: u32,
    counts: Counts,
    kinds: &[u8],
    destinations: &[u32],
    sources: &[u32],
    weights: &[f64],
    attribute_starts: &[u32],
    attribute_entries: &[u32],
    label_starts: &[u32],
    label_entries: &[u32],
) -> Result<(), Refusal>
    ensures { let m = model_was labels counts kinds destinations sources attribute_starts attribute_entries label_starts label_entries in
        ModelChecked (record { model = m; weights = weights.now }) result }
{
    score_tables::check_labels(labels)?;
    check_weighted(
        labels,
        counts,
        kinds,
        destinations,
        sources,
        weights,
        attribute_starts,
        attribute_entries,
        label_starts,
        label_entries,
    )
}
