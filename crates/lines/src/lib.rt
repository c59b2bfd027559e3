// The tables of a model and of lines, what the scores and the feature counts of a line are, and the laws of these definitions.
// Of code only what scoring and counting share: the attribute that they hand on, and how an attribute and the places of its list
// are read. The loops over these are in compute_scores and extract_features.
#![tactic(auto)]

ghost use Rattle.std.specs.Prelude.{◌≡◌, ◌≤◌, ◌<◌, length, get_or};
ghost use Rattle.lines.specs.Spans.{attribute_before_of, span_of};

// "An attribute is an id with a value."
#[derive(Clone, Copy)]
pub struct Attribute {
    pub id: u32,
    pub value: f64,
}

// Instances, words in all and attributes in all, which are numbers of their own beside the tables.
#[repr(C)]
#[derive(Clone, Copy)]
pub struct Totals {
    pub instances: u32,
    pub words: u32,
    pub attributes: u32,
}

// The places of a list among the entries: from the first up to the last, which is not one of them.
#[derive(Clone, Copy)]
pub struct Span {
    pub first: usize,
    pub last: usize,
}

// The number at a place, as an index.
pub fn at(table: &[u32], i: usize) -> usize
    requires { i < length table.now }
    ensures { result ≡ get_or table.now i 0 }
{
    table[i] as usize
}

// The attribute at a place, or the last before the end where the place is past that: a loop that looks one attribute ahead stays
// in the table, and does so without a branch.
pub fn attribute_before(ids: &[u32], values: &[f64], end: usize, a: usize) -> Attribute
    requires end_nonzero { 0 < end }
    requires end_in_bounds { end ≤ length ids.now }
    requires end_in_bounds_2 { end ≤ length values.now }
    ensures { result ≡ attribute_before_of ids.now values.now end a }
{
    let i = a.min(end - 1);
    Attribute {
        id: ids[i],
        value: values[i],
    }
}

// The places of a list, of so many; none where there is no such list.
pub fn list_span(lists: usize, starts: &[u32], list: usize) -> Span
    requires { lists < length starts.now }
    ensures { result ≡ span_of lists starts.now list }
{
    if list < lists {
        return Span {
            first: at(starts, list),
            last: at(starts, list + 1),
        };
    }
    Span { first: 0, last: 0 }
}

// The places of an attribute's list: "An attribute id without a list is ignored".
pub fn attribute_span(lists: usize, starts: &[u32], attribute: Attribute) -> Span
    requires { lists < length starts.now }
    ensures { result ≡ span_of lists starts.now attribute.id }
{
    list_span(lists, starts, attribute.id as usize)
}
