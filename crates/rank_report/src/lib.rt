// What a ranking answers, and the report of the entries: in order, with how many are valued and their total.
#![tactic(auto)]

ghost use Rattle.std.specs.Prelude.{◌*◌, ◌≤◌, length};
ghost use Rattle.meaning.specs.Limits.{candidates_limit};
ghost use Rattle.theory_ranking.specs.Entries.{Distinct, Ranged, entries_of};
ghost use Rattle.rank_report.specs.Report.{Reported};

pub mod copy;
pub mod entries;
pub mod sort;
pub mod totals;

#[derive(Clone, Copy, Debug, PartialEq, Eq)]
pub enum Ranked {
    // How many were valued, the total of their values, the number of entries written.
    Done {
        valued: usize,
        total: i64,
        entries: usize,
    },
    // 37, 30 or 38 with 0, or one of the table's numbers with its offset.
    Refused {
        number: u32,
        offset: u32,
    },
}

// The first `count` entries in order, and what they come to.
pub fn report(list: &mut [i64], count: usize) -> Ranked
    requires { (count ≤ candidates_limit) × (3 * count ≤ length list.old) × Ranged (entries_of count list.old) × Distinct (entries_of count list.old) }
    ensures { Reported count list.old list.new result }
{
    crate::sort::rank(list, count);
    let valued = crate::totals::valued_count(list, count);
    let total = crate::totals::total(list, count);
    Ranked::Done {
        valued,
        total,
        entries: count,
    }
}
