// What the writer writes, and how long it is, part by part. Each function that writes appends from a place on, leaves the rest as it
// was, and answers the place after what it wrote: that there is room is known before, from the length. Tables within their bounds
// make a length that a 64-bit number holds: at most 8,589,934,591 bytes a word, and half as much more an attribute.
#![tactic(auto)]

ghost use Rattle.std.specs.Prelude.{◌≡◌, ◌||◌, [], ◌∷◌, ℕ, ◌+◌, ◌*◌, ◌-◌, ◌≤◌, ◌<◌, eqb, length, get_or};
ghost use Rattle.std.proofs.Math.Seq.{slice};
ghost use Rattle.refusals.specs.Meaning.{Starts};
ghost use Rattle.layout.specs.Layout.{escaped, scale_text};
ghost use Rattle.byte_buffers.specs.Stored.{RoomFor, Put};
ghost use Rattle.text_tables.specs.Written.{string_at, written_text};
ghost use Rattle.text_writing.specs.Ready.{strings, StringStands, AttributeStands, WordStands, SequenceStands, word_tables, lent_tables, attribute_bytes, word_bytes, sequence_bytes, each_from};
ghost use Rattle.text_writing.specs.Sums.{sum_to, label_bytes_of, attribute_size, LabelStands, Measurable};

// Whether a byte of a name has a backslash before it.
fn needs_slash(b: u8) -> bool
    ensures { result ≡ (eqb b 58 || eqb b 92) }
{
    matches!(b, b':' | b'\\')
}

// The bytes of a name, a backslash before each colon and each backslash.
fn put_escaped(text: &mut [u8], at: usize, bytes: &[u8], from: usize, to: usize) -> usize
    requires from_le_to { (from ≤ to) × (to ≤ length bytes.now) }
    requires room_for { RoomFor (escaped (slice from to bytes.now)) text.old at }
    ensures { Put (escaped (slice from to bytes.now)) text.old at result text.new }
{
    let mut k = at;
    for b in &bytes[from..to] {
        if needs_slash(*b) {
            text[k] = b'\\';
            text[k + 1] = *b;
            k += 2;
        } else {
            text[k] = *b;
            k += 1;
        }
    }
    k
}

// String i of a list of names.
fn put_name(text: &mut [u8], at: usize, starts: &[u32], bytes: &[u8], i: usize) -> usize
    requires string_stands { StringStands (strings starts.now bytes.now) i }
    requires room_for { RoomFor (escaped (string_at (strings starts.now bytes.now) i)) text.old at }
    ensures { Put (escaped (string_at (strings starts.now bytes.now) i)) text.old at result text.new }
{
    let from = lines::at(starts, i);
    let to = lines::at(starts, i + 1);
    put_escaped(text, at, bytes, from, to)
}

// String i of a list of kept texts, behind a colon; nothing where it is empty.
fn put_scale(text: &mut [u8], at: usize, starts: &[u32], bytes: &[u8], i: usize) -> usize
    requires string_stands { StringStands (strings starts.now bytes.now) i }
    requires room_for { RoomFor (scale_text (string_at (strings starts.now bytes.now) i)) text.old at }
    ensures { Put (scale_text (string_at (strings starts.now bytes.now) i)) text.old at result text.new }
{
    let from = lines::at(starts, i);
    let to = lines::at(starts, i + 1);
    if from == to {
        return at;
    }
    let colon = byte_buffers::put_byte(text, at, b':');
    byte_buffers::put_bytes(text, colon, bytes, from, to)
}

// A tab, the name of attribute a, and its kept text.
fn put_attribute(
    text: &mut [u8],
    at: usize,
    ids: &[u32],
    name_starts: &[u32],
    names: &[u8],
    scale_starts: &[u32],
    scales: &[u8],
    a: usize,
) -> usize
    requires attribute_stands { AttributeStands ids.now (strings name_starts.now names.now) (strings scale_starts.now scales.now) a }
    requires room_for { RoomFor (attribute_bytes ids.now (strings name_starts.now names.now) (strings scale_starts.now scales.now) a) text.old at }
    ensures { let bytes = attribute_bytes ids.now (strings name_starts.now names.now) (strings scale_starts.now scales.now) a in
        Put bytes text.old at result text.new }
{
    let tab = byte_buffers::put_byte(text, at, b'\t');
    let id = lines::at(ids, a);
    let name = put_name(text, tab, name_starts, names, id);
    put_scale(text, name, scale_starts, scales, a)
}

// The attributes from one place up to another.
fn put_attributes(
    text: &mut [u8],
    at: usize,
    ids: &[u32],
    name_starts: &[u32],
    names: &[u8],
    scale_starts: &[u32],
    scales: &[u8],
    first: usize,
    end: usize,
) -> usize
    requires by_index { (a : ℕ) → a < end → AttributeStands ids.now (strings name_starts.now names.now) (strings scale_starts.now scales.now) a }
    requires room_for { RoomFor (each_from (attribute_bytes ids.now (strings name_starts.now names.now) (strings scale_starts.now scales.now)) first (end - first)) text.old at }
    ensures { let f = attribute_bytes ids.now (strings name_starts.now names.now) (strings scale_starts.now scales.now) in
        Put (each_from f first (end - first)) text.old at result text.new }
{
    let mut k = at;
    for a in first..end {
        k = put_attribute(text, k, ids, name_starts, names, scale_starts, scales, a);
    }
    k
}

// Word w as one line: its label, its attributes, a line feed.
fn put_word(
    text: &mut [u8],
    at: usize,
    begins: &[u32],
    ids: &[u32],
    references: &[u32],
    label_starts: &[u32],
    labels: &[u8],
    name_starts: &[u32],
    names: &[u8],
    scale_starts: &[u32],
    scales: &[u8],
    w: usize,
) -> usize
    requires word_stands { WordStands (word_tables begins.now ids.now references.now (strings label_starts.now labels.now) (strings name_starts.now names.now) (strings scale_starts.now scales.now)) w }
    requires room_for { RoomFor (word_bytes (word_tables begins.now ids.now references.now (strings label_starts.now labels.now) (strings name_starts.now names.now) (strings scale_starts.now scales.now)) w) text.old at }
    ensures { let t = word_tables begins.now ids.now references.now (strings label_starts.now labels.now) (strings name_starts.now names.now) (strings scale_starts.now scales.now) in
        Put (word_bytes t w) text.old at result text.new }
{
    let label = lines::at(references, w);
    let name = put_name(text, at, label_starts, labels, label);
    let first = lines::at(begins, w);
    let end = lines::at(begins, w + 1);
    let last = put_attributes(
        text,
        name,
        ids,
        name_starts,
        names,
        scale_starts,
        scales,
        first,
        end,
    );
    byte_buffers::put_byte(text, last, b'\n')
}

// The words from one place up to another.
fn put_words(
    text: &mut [u8],
    at: usize,
    begins: &[u32],
    ids: &[u32],
    references: &[u32],
    label_starts: &[u32],
    labels: &[u8],
    name_starts: &[u32],
    names: &[u8],
    scale_starts: &[u32],
    scales: &[u8],
    first: usize,
    end: usize,
) -> usize
    requires by_index { (w : ℕ) → w < end → WordStands (word_tables begins.now ids.now references.now (strings label_starts.now labels.now) (strings name_starts.now names.now) (strings scale_starts.now scales.now)) w }
    requires room_for { RoomFor (each_from (word_bytes (word_tables begins.now ids.now references.now (strings label_starts.now labels.now) (strings name_starts.now names.now) (strings scale_starts.now scales.now))) first (end - first)) text.old at }
    ensures { let t = word_tables begins.now ids.now references.now (strings label_starts.now labels.now) (strings name_starts.now names.now) (strings scale_starts.now scales.now) in
        Put (each_from (word_bytes t) first (end - first)) text.old at result text.new }
{
    let mut k = at;
    for w in first..end {
        k = put_word(
            text,
            k,
            begins,
            ids,
            references,
            label_starts,
            labels,
            name_starts,
            names,
            scale_starts,
            scales,
            w,
        );
    }
    k
}

// One more line feed, an empty line, ends each sequence.
fn end_sequence(text: &mut [u8], at: usize) -> usize
    requires { RoomFor (10 ∷ []) text.old at }
    ensures { Put (10 ∷ []) text.old at result text.new }
{
    byte_buffers::put_byte(text, at, b'\n')
}

// All sequences, each with one more line feed behind it.
pub fn put_sequences(
    text: &mut [u8],
    instances: usize,
    lines: &[u32],
    begins: &[u32],
    ids: &[u32],
    references: &[u32],
    label_starts: &[u32],
    labels: &[u8],
    name_starts: &[u32],
    names: &[u8],
    scale_starts: &[u32],
    scales: &[u8],
) -> usize
    requires by_index { (i : ℕ) → i < instances → SequenceStands (lent_tables instances lines.now begins.now ids.now references.now (strings label_starts.now labels.now) (strings name_starts.now names.now) (strings scale_starts.now scales.now)) i }
    requires fact { let t = lent_tables instances lines.now begins.now ids.now references.now (strings label_starts.now labels.now) (strings name_starts.now names.now) (strings scale_starts.now scales.now) in
        RoomFor (each_from (sequence_bytes t) 0 instances) text.old 0 }
    ensures { let t = lent_tables instances lines.now begins.now ids.now references.now
        (strings label_starts.now labels.now) (strings name_starts.now names.now) (strings scale_starts.now scales.now) in
        Put (each_from (sequence_bytes t) 0 instances) text.old 0 result text.new }
{
    let mut k = 0usize;
    for i in 0..instances {
        let first = lines::at(lines, i);
        let end = lines::at(lines, i + 1);
        let last = put_words(
            text,
            k,
            begins,
            ids,
            references,
            label_starts,
            labels,
            name_starts,
            names,
            scale_starts,
            scales,
            first,
            end,
        );
        k = end_sequence(text, last);
    }
    k
}

// How many bytes a name has with its backslashes. As a loop, which counts many bytes at a time.
fn escaped_length(bytes: &[u8], from: usize, to: usize) -> usize
    requires { (from ≤ to) × (to ≤ length bytes.now) × (to ≤ 4294967295) }
    ensures value { result ≡ length (escaped (slice from to bytes.now)) }
    ensures upper_bound { result ≤ 8589934590 }
{
    let mut count = 0;
    for b in &bytes[from..to] {
        if needs_slash(*b) {
            count += 2;
        } else {
            count += 1;
        }
    }
    count
}

// String i of a list of names.
fn name_length(starts: &[u32], bytes: &[u8], i: usize) -> usize
    requires { StringStands (strings starts.now bytes.now) i }
    ensures value { result ≡ length (escaped (string_at (strings starts.now bytes.now) i)) }
    ensures upper_bound { result ≤ 8589934590 }
{
    let from = starts[i] as usize;
    let to = starts[i + 1] as usize;
    escaped_length(bytes, from, to)
}

// String i of a list of kept texts, with its colon; 0 where it is empty.
fn scale_length(starts: &[u32], bytes: &[u8], i: usize) -> usize
    requires { StringStands (strings starts.now bytes.now) i }
    ensures value { result ≡ length (scale_text (string_at (strings starts.now bytes.now) i)) }
    ensures upper_bound { result ≤ 4294967296 }
{
    let from = starts[i] as usize;
    let to = starts[i + 1] as usize;
    if from == to {
        return 0;
    }
    to - from + 1
}

// The labels of all words, each with its line feed.
fn labels_length(references: &[u32], starts: &[u32], bytes: &[u8], words: usize) -> usize
    requires words_bound { words ≤ 1048576 }
    requires by_index { (w : ℕ) → w < words → LabelStands references.now (strings starts.now bytes.now) w }
    ensures value { result ≡ sum_to (label_bytes_of references.now (strings starts.now bytes.now)) words }
    ensures upper_bound { result ≤ words * 8589934591 }
{
    let mut total = 0usize;
    for w in 0..words {
        let label = lines::at(references, w);
        total += name_length(starts, bytes, label) + 1;
    }
    total
}

// One attribute: its tab, its name, its kept text.
fn attribute_length(
    ids: &[u32],
    name_starts: &[u32],
    names: &[u8],
    scale_starts: &[u32],
    scales: &[u8],
    a: usize,
) -> usize
    requires { AttributeStands ids.now (strings name_starts.now names.now) (strings scale_starts.now scales.now) a }
    ensures value { result ≡ attribute_size ids.now (strings name_starts.now names.now) (strings scale_starts.now scales.now) a }
    ensures upper_bound { result ≤ 12884901887 }
{
    let id = lines::at(ids, a);
    1 + (name_length(name_starts, names, id) + scale_length(scale_starts, scales, a))
}

// All attributes.
fn attributes_length(
    ids: &[u32],
    name_starts: &[u32],
    names: &[u8],
    scale_starts: &[u32],
    scales: &[u8],
    attributes: usize,
) -> usize
    requires attributes_bound { attributes ≤ 4194304 }
    requires by_index { (a : ℕ) → a < attributes → AttributeStands ids.now (strings name_starts.now names.now) (strings scale_starts.now scales.now) a }
    ensures value { result ≡ sum_to (attribute_size ids.now (strings name_starts.now names.now) (strings scale_starts.now scales.now)) attributes }
    ensures upper_bound { result ≤ attributes * 12884901887 }
{
    let mut total = 0usize;
    for a in 0..attributes {
        total += attribute_length(ids, name_starts, names, scale_starts, scales, a);
    }
    total
}

// The whole text: labels, attributes, and a line feed for each sequence.
pub fn written_length(
    instances: usize,
    words: usize,
    attributes: usize,
    lines: &[u32],
    begins: &[u32],
    ids: &[u32],
    references: &[u32],
    label_starts: &[u32],
    labels: &[u8],
    name_starts: &[u32],
    names: &[u8],
    scale_starts: &[u32],
    scales: &[u8],
) -> usize
    requires { Measurable (lent_tables instances lines.now begins.now ids.now references.now (strings label_starts.now labels.now) (strings name_starts.now names.now) (strings scale_starts.now scales.now)) words attributes }
    ensures { let t = lent_tables instances lines.now begins.now ids.now references.now
        (strings label_starts.now labels.now) (strings name_starts.now names.now) (strings scale_starts.now scales.now) in
        result ≡ length (written_text t) }
{
    let named = labels_length(references, label_starts, labels, words);
    let marked = attributes_length(ids, name_starts, names, scale_starts, scales, attributes);
    instances + named + marked
}
