// The checks of one table, which every call shares: a refusal at the lowest bad place. A pass without a way out in the middle tells
// first whether all is well, at a fraction of what a branch an entry costs; only where it is not does a search find the place.
#![tactic(auto)]

ghost use Rattle.std.specs.Prelude.{◌≡◌, true, ◌<◌, ◌≤◌, length, Ok};
ghost use Rattle.refusals.specs.Tables.{starts_checked, kinds_checked, ids_checked, sources_checked, numbers_checked};

use refusals::Refusal;

// 3: n lists have n + 1 starts, the first 0, none below the one before it, the last equal to the entry count.
pub fn check_starts(starts: &[u32], n: usize, entries: u32) -> Result<(), Refusal>
    requires { n < length starts.now }
    ensures { result ≡ starts_checked starts.now n entries }
{
    let mut low = 0;
    for i in 0..n + 1 {
        let start = starts[i];
        let bad = ((i == 0) & (start != 0)) | (start < low) | ((i == n) & (start != entries));
        if bad {
            return refusals::refused(3, i);
        }
        low = start;
    }
    Ok(())
}

// True only where every kind is 0 or 1.
fn all_kinds(kinds: &[u8], n: usize) -> bool
    requires { n ≤ length kinds.now }
    ensures { result ≡ true → kinds_checked kinds.now n ≡ Ok tt }
{
    let mut all = true;
    for i in 0..n {
        all &= kinds[i] <= 1;
    }
    all
}

// 5: a kind is 0 or 1.
pub fn check_kinds(kinds: &[u8], n: usize) -> Result<(), Refusal>
    requires { n ≤ length kinds.now }
    ensures { result ≡ kinds_checked kinds.now n }
{
    if all_kinds(kinds, n) {
        return Ok(());
    }
    for i in 0..n {
        let bad = 1 < kinds[i];
        if bad {
            return refusals::refused(5, i);
        }
    }
    Ok(())
}

// True only where every id is below the bound.
fn all_below(ids: &[u32], n: usize, bound: u32) -> bool
    requires { n ≤ length ids.now }
    ensures { result ≡ true → ids_checked ids.now n bound ≡ Ok tt }
{
    let mut all = true;
    for i in 0..n {
        all &= ids[i] < bound;
    }
    all
}

// 5: a destination or label is below L, a list id below F.
pub fn check_ids(ids: &[u32], n: usize, bound: u32) -> Result<(), Refusal>
    requires { n ≤ length ids.now }
    ensures { result ≡ ids_checked ids.now n bound }
{
    if all_below(ids, n, bound) {
        return Ok(());
    }
    for i in 0..n {
        let bad = bound <= ids[i];
        if bad {
            return refusals::refused(5, i);
        }
    }
    Ok(())
}

// True only where every Transition's source is below L.
fn all_sources(kinds: &[u8], sources: &[u32], n: usize, labels: u32) -> bool
    requires n_in_bounds { n ≤ length kinds.now }
    requires n_in_bounds_2 { n ≤ length sources.now }
    ensures { result ≡ true → sources_checked kinds.now sources.now n labels ≡ Ok tt }
{
    let mut all = true;
    for i in 0..n {
        all &= (kinds[i] != 1) | (sources[i] < labels);
    }
    all
}

// 5: a Transition's source is below L; a State feature's may be anything.
pub fn check_sources(kinds: &[u8], sources: &[u32], n: usize, labels: u32) -> Result<(), Refusal>
    requires n_in_bounds { n ≤ length kinds.now }
    requires n_in_bounds_2 { n ≤ length sources.now }
    ensures { result ≡ sources_checked kinds.now sources.now n labels }
{
    if all_sources(kinds, sources, n, labels) {
        return Ok(());
    }
    for i in 0..n {
        let bad = (kinds[i] == 1) & (labels <= sources[i]);
        if bad {
            return refusals::refused(5, i);
        }
    }
    Ok(())
}

// 6: neither a NaN nor an infinity.
pub fn check_numbers(numbers: &[f64], n: usize) -> Result<(), Refusal>
    requires { n ≤ length numbers.now }
    ensures { result ≡ numbers_checked numbers.now n }
{
    if fronts::all_finite(numbers, n) {
        return Ok(());
    }
    for i in 0..n {
        let bad = !binary64::is_finite(numbers[i]);
        if bad {
            return refusals::refused(6, i);
        }
    }
    Ok(())
}
