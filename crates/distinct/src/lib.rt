// Ids of names by first appearance, over places in the text: nothing is copied, a name is known by where it first stands. Attribute
// names are found by open addressing in lent slots, labels are compared one by one. The search is right whatever the slots' homes
// are; homes that lie apart make it short.
#![tactic(auto)]

ghost use Rattle.std.specs.Prelude.{◌≡◌, List, ◌+◌, ◌*◌, ◌/◌, ◌%◌, ◌≤◌, ◌<◌, length};
ghost use Rattle.std.proofs.Math.Seq.{slice};
ghost use Rattle.layout.specs.Layout.{Bytes};
ghost use Rattle.text_tables.specs.Distinct.{same, id_in};
ghost use Rattle.distinct.specs.Names.{ends_at, name_at, names_at, NameStands, Listed, Known, LearntLabel};
ghost use Rattle.distinct.specs.Slots.{home, slot_for, Searchable, Tabled, LearntName};

// One byte more in the number of a name.
fn hash_byte(h: u64, b: u8) -> u64
    requires { h < 4294967296 }
    ensures { result ≡ (h * 16777619 + b) % 4294967296 }
{
    (h * 16777619 + u64::from(b)) % 4294967296
}

// Where the search for the bytes from one place up to another begins, among so many slots. No division: the upper bits of a product.
fn home_of(text: &[u8], from: usize, to: usize, size: usize) -> usize
    requires { (from ≤ to) × (to ≤ length text.now) × (size ≤ 4294967295) }
    ensures { result ≡ home size (slice from to text.now) }
{
    let mut h = 0u64;
    for b in &text[from..to] {
        h = hash_byte(h, *b);
    }
    (h * 2654435769 % 4294967296 * (size as u64) / 4294967296) as usize
}

// Whether a name may end before a place: at the text's end, or where a tab, a line feed or a colon stands.
fn ends_at(text: &[u8], at: usize) -> bool
    ensures { result ≡ ends_at text.now at }
{
    if at < text.len() {
        let b = text[at];
        return (b == b'\t') | (b == b'\n') | (b == b':');
    }
    true
}

// Whether the name at a place is the one that stands from one place up to another: its bytes are, and it ends with them.
fn same_name(text: &[u8], p: usize, from: usize, to: usize) -> bool
    requires { NameStands text.now from to × (p ≤ length text.now) }
    ensures { result ≡ same (name_at text.now p) (name_at text.now from) }
{
    let n = to - from;
    if text.len() - p < n {
        return false;
    }
    for k in 0..n {
        if text[p + k] != text[from + k] {
            return false;
        }
    }
    ends_at(text, p + n)
}

// The slot behind a slot: the first behind the last.
fn slot_after(i: usize, size: usize) -> usize
    requires { i < size }
    ensures { result ≡ (i + 1) % size }
{
    if i + 1 < size { i + 1 } else { 0 }
}

// The slot where the search for a name ends: with its id, or free.
fn seek(
    text: &[u8],
    slots: &[u32],
    positions: &[u32],
    count: usize,
    from: usize,
    to: usize,
) -> usize
    requires { Searchable text.now slots.now positions.now count × NameStands text.now from to }
    ensures { let t = text.now in
        let s = slots.now in
        result ≡ slot_for (length s) (names_at t positions.now count) s (name_at t from) }
{
    let size = slots.len();
    let mut i = home_of(text, from, to, size);
    for _ in 0..size {
        let v = lines::at(slots, i);
        if v == 0 {
            return i;
        }
        let p = lines::at(positions, v - 1);
        if same_name(text, p, from, to) {
            return i;
        }
        i = slot_after(i, size);
    }
    i
}

// The id of a name, which is the count where it is not known.
pub fn id_of(
    text: &[u8],
    slots: &[u32],
    positions: &[u32],
    count: usize,
    from: usize,
    to: usize,
) -> usize
    requires { Tabled text.now slots.now positions.now count × NameStands text.now from to }
    ensures { let t = text.now in
        ((known : List Bytes) → Known t positions.now count known → result ≡ id_in known (name_at t from)) }
{
    let i = seek(text, slots, positions, count, from, to);
    let v = lines::at(slots, i);
    if v == 0 { count } else { v - 1 }
}

// What the slot of a name holds: its id and one, since 0 is a free slot.
fn in_slot(id: usize) -> u32
    requires { id < 4294967295 }
    ensures { result ≡ id + 1 }
{
    (id + 1) as u32
}

// The id of a name, which is learnt where it is new: then the id is the count.
pub fn learn(
    text: &[u8],
    slots: &mut [u32],
    positions: &mut [u32],
    count: usize,
    from: usize,
    to: usize,
) -> usize
    requires tabled { Tabled text.now slots.old positions.old count × NameStands text.now from to }
    requires count_in_bounds { (count < length positions.old) × (length text.now ≤ 4294967295) }
    ensures { let t = text.now in
        ((known : List Bytes) → Known t positions.old count known
        → LearntName t known (name_at t from) slots.new positions.new result) }
{
    let i = seek(text, slots, positions, count, from, to);
    let v = lines::at(slots, i);
    if v == 0 {
        slots[i] = in_slot(count);
        positions[count] = from as u32;
        return count;
    }
    v - 1
}

// The id of a label, compared with those known one by one; the count where it is not known.
pub fn label_id(text: &[u8], positions: &[u32], count: usize, from: usize, to: usize) -> usize
    requires { Listed text.now positions.now count × NameStands text.now from to }
    ensures { let t = text.now in
        ((known : List Bytes) → Known t positions.now count known → result ≡ id_in known (name_at t from)) }
{
    for i in 0..count {
        let p = lines::at(positions, i);
        if same_name(text, p, from, to) {
            return i;
        }
    }
    count
}

// The id of a label, which is learnt where it is new.
pub fn learn_label(
    text: &[u8],
    positions: &mut [u32],
    count: usize,
    from: usize,
    to: usize,
) -> usize
    requires listed { Listed text.now positions.old count × NameStands text.now from to }
    requires count_in_bounds { (count < length positions.old) × (length text.now ≤ 4294967295) }
    ensures { let t = text.now in
        ((known : List Bytes) → Known t positions.old count known
        → LearntLabel t known (name_at t from) positions.new result) }
{
    let id = label_id(text, positions, count, from, to);
    if id == count {
        positions[count] = from as u32;
    }
    id
}
