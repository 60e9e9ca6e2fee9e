// The intervals that the entry conditions of a production leave, one for each inherited attribute: one pass over its fields.
ghost use Rattle.std.specs.Prelude.{◌≡◌, ◌<◌, ◌≤◌, min, max, true, false, T, eqb, ◌+◌};
ghost use Rattle.clash_entries.specs.conditions.Ranks.{rank};
ghost use Rattle.meaning.specs.Limits.{attributes_limit};
ghost use Rattle.meaning.specs.Grammar.{Production};
ghost use Rattle.meaning.specs.Table.{signed};
ghost use Rattle.theory_sets.specs.Intervals.{entry};
ghost use Rattle.clash_entries.specs.conditions.BoundWords.{biased};
ghost use Rattle.clash_entries.specs.conditions.EntryConditions.{field_size, entry_here, condition_here, after_field, raise_by, lower_by, rank_by, Stretch};
ghost use Rattle.clash_entries.specs.conditions.Walk.{after_all};

use limits::ATTRIBUTES;

// What entry conditions a production has.
#[derive(Clone, Copy, Debug, PartialEq, Eq)]
pub enum Entry {
    // none
    Free,
    // ranges alone
    Ranges,
    // a comparison
    Compared,
}

impl Entry {
    pub fn is_free(self) -> bool
        ensures { result ≡ eqb (rank self) 0 }
    {
        matches!(self, Entry::Free)
    }

    pub fn is_ranges(self) -> bool
        ensures { result ≡ eqb (rank self) 1 }
    {
        matches!(self, Entry::Ranges)
    }

    // The number that is kept of it: 0 none, 1 ranges, 2 a comparison.
    pub fn rank(self) -> u8
        ensures { result ≡ rank self }
    {
        match self {
            Entry::Free => 0,
            Entry::Ranges => 1,
            Entry::Compared => 2,
        }
    }

    // What a kept number says; any above 1 says a comparison.
    pub fn of_rank(number: u8) -> Entry
        ensures said { rank result ≡ min 2 number }
        ensures ranges { eqb (rank result) 1 ≡ eqb number 1 }
    {
        match number {
            0 => Entry::Free,
            1 => Entry::Ranges,
            _ => Entry::Compared,
        }
    }

    // Whether the intervals of two productions do not tell all of their entry conditions: both have some, and one of them compares.
    pub fn need_differences(self, other: Entry) -> bool
        ensures yes { result ≡ true → 2 < rank self + rank other }
        ensures no { result ≡ false → rank self + rank other ≤ 2 }
    {
        match self {
            Entry::Free => false,
            Entry::Ranges => matches!(other, Entry::Compared),
            Entry::Compared => !matches!(other, Entry::Free),
        }
    }

    // With a range more.
    fn with_range(self) -> Entry
        ensures { rank result ≡ max 1 (rank self) }
    {
        match self {
            Entry::Free => Entry::Ranges,
            Entry::Ranges | Entry::Compared => self,
        }
    }
}

// A bound's word that orders as the bounds do.
fn biased_word(word: u32) -> u32
    ensures { result ≡ biased (signed word) }
{
    word.wrapping_add(0x8000_0000)
}

// The bytes of the field at the front.
pub fn field_size(field: &[u8]) -> usize
    ensures { (result ≡ field_size field.now) × (3 ≤ result) × (result < 65539) }
{
    let high = value::byte_at(field, 1) as usize;
    let low = value::byte_at(field, 2) as usize;
    3 + (high * 256 + low)
}

// Whether the field at the front is an entry condition: it reads position 0 alone.
#[tactic(auto, unfolding(crate::specs::conditions::EntryConditions::entry_here))]
pub fn is_entry(field: &[u8]) -> bool
    ensures { result ≡ entry_here field.now }
{
    value::byte_at(field, 0) == 5
        && value::byte_at(field, 4) == 0
        && (value::byte_at(field, 3) == 0 || value::byte_at(field, 6) == 0)
}

// The intervals narrowed by the field at the front, if it is a range and an entry condition; what entry conditions there have been so far.
fn narrow(
    field: &[u8],
    found: Entry,
    lows: &mut [u32; ATTRIBUTES],
    highs: &mut [u32; ATTRIBUTES],
) -> Entry
    requires { entry_here field.now ≡ true → T (entry attributes_limit (condition_here field.now)) }
    ensures said { rank result ≡ after_field rank_by field.now (rank found) }
    ensures low { lows.new ≡ after_field raise_by field.now lows.old }
    ensures high { highs.new ≡ after_field lower_by field.now highs.old }
{
    if !is_entry(field) {
        return found;
    }
    if value::byte_at(field, 3) != 0 {
        return Entry::Compared;
    }
    let i = value::byte_at(field, 5) as usize - 1;
    lows[i] = biased_word(value::word_at(field, 6)).max(lows[i]);
    highs[i] = biased_word(value::word_at(field, 10)).min(highs[i]);
    found.with_range()
}

// The intervals narrowed by all entry conditions of the production whose stretch is at the front; what it has of them.
pub fn narrow_by(
    stretch: &[u8],
    lows: &mut [u32; ATTRIBUTES],
    highs: &mut [u32; ATTRIBUTES],
) -> Entry
    requires { (p : Production) × Stretch stretch.now p }
    ensures said { (p : Production) → Stretch stretch.now p → rank result ≡ after_all rank_by p 0 }
    ensures low { (p : Production) → Stretch stretch.now p → lows.new ≡ after_all raise_by p lows.old }
    ensures high { (p : Production) → Stretch stretch.now p → highs.new ≡ after_all lower_by p highs.old }
{
    let mut found = Entry::Free;
    let mut at = field_size(stretch);
    // Kept: no range, since a field's own size says where the next begins.
    while at < stretch.len() {
        let field = &stretch[at..];
        if value::byte_at(field, 0) == 3 {
            return found;
        }
        found = narrow(field, found, lows, highs);
        at += field_size(field);
    }
    found
}
