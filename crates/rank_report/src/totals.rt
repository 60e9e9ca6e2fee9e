// What the entries of ranked suggestions come to: the total of their values, and how many have one.
ghost use Rattle.std.specs.Prelude.{◌+◌, ◌*◌, ◌≤◌, ◌≡◌, length};
ghost use Rattle.meaning.specs.Limits.{candidates_limit};
ghost use Rattle.meaning_ranking.specs.Ranking.{worth, valued, total_of, valued_of};
ghost use Rattle.theory_ranking.specs.Entries.{Ranged, entries_of, entry_at};

use rank_order::Entry;

// Whether the entry at place i has a value.
fn valued_at(list: &[i64], i: usize) -> bool
    requires { 3 * i + 3 ≤ length list.now }
    ensures { result ≡ valued (entry_at list.now i) }
{
    Entry::at(list, i).is_valued()
}

fn worth_at(list: &[i64], i: usize) -> i64
    requires { 3 * i + 3 ≤ length list.now }
    ensures { result ≡ worth (entry_at list.now i) }
{
    let entry = Entry::at(list, i);
    if entry.is_valued() { entry.value } else { 0 }
}

// The exact total of the values.
pub fn total(list: &[i64], count: usize) -> i64
    requires { (count ≤ candidates_limit) × (3 * count ≤ length list.now) × Ranged (entries_of count list.now) }
    ensures { result ≡ total_of (entries_of count list.now) }
{
    let mut sum = 0;
    for i in 0..count {
        sum += worth_at(list, i);
    }
    sum
}

// How many have a value.
pub fn valued_count(list: &[i64], count: usize) -> usize
    requires { 3 * count ≤ length list.now }
    ensures { result ≡ valued_of (entries_of count list.now) }
{
    let mut found = 0;
    let mut i = 0;
    // Kept: tried as `(0..count).filter(..).count()`, whose result the proof didn't tie to the entries.
    while i < count {
        if valued_at(list, i) {
            found += 1;
            i += 1;
            continue;
        }
        i += 1;
    }
    found
}
