// The entry of a candidate of 02 (b), in the list.
ghost use Rattle.std.specs.Prelude.{◌+◌, ◌*◌, ◌≤◌, ◌≡◌, length, pos};
ghost use Rattle.meaning_ranking.specs.Ranking.{rank_entry};
ghost use Rattle.meaning_ranking.specs.RankCall.{rank_entry_of};
ghost use Rattle.records.specs.Records.{answer_is};
ghost use Rattle.rank_order.specs.Entries.{entry_is};
ghost use Rattle.rank_report.specs.entries.Entries.{put_at};

use rank_order::Entry;
use records::Answer;

// An entry's three cells.
pub fn put_entry(list: &mut [i64], i: usize, entry: Entry)
    requires { 3 * i + 3 ≤ length list.old }
    ensures { list.new ≡ put_at list.old i (entry_is entry) }
{
    list[3 * i] = entry.number;
    list[3 * i + 1] = entry.value;
    list[3 * i + 2] = entry.refusal;
}

// A candidate's, by its value or its refusal.
fn put_cells(list: &mut [i64], i: usize, value: i64, refusal: u32)
    requires { 3 * i + 3 ≤ length list.old }
    ensures { list.new ≡ put_at list.old i (rank_entry (pos i) value (pos refusal)) }
{
    put_entry(
        list,
        i,
        Entry {
            number: i as i64,
            value,
            refusal: i64::from(refusal),
        },
    );
}

// 02: "an entry is its number, counted from 0, its value or else 0, its refusal or else 0".
pub fn put(list: &mut [i64], i: usize, answer: Answer)
    requires { 3 * i + 3 ≤ length list.old }
    ensures { list.new ≡ put_at list.old i (rank_entry_of i (answer_is answer)) }
{
    match answer {
        Answer::Value(value, _) => put_cells(list, i, value, 0),
        Answer::Refused { number, .. } => put_cells(list, i, 0, number),
        Answer::TableRefused { number, .. } => put_cells(list, i, 0, number),
        Answer::More(_) => put_cells(list, i, 0, 0),
    }
}
