// The answer of a ranking as lent numbers.
ghost use Rattle.rank_report.specs.Answers.{rank_answer_is};
ghost use Rattle.host_answers.specs.ranked.Suggested.{Suggested};

use rank_report::Ranked;

// How many were valued, the total of their values and the number of entries; number and offset are then 0. On a refusal these are the
// refusal's, and the others are 0.
pub fn lend(
    answer: Ranked,
    valued: &mut usize,
    total: &mut i64,
    entries: &mut usize,
    number: &mut u32,
    offset: &mut u32,
)
    ensures { Suggested valued.new total.new entries.new number.new offset.new (rank_answer_is answer) }
{
    match answer {
        Ranked::Done {
            valued: n,
            total: t,
            entries: k,
        } => {
            *valued = n;
            *total = t;
            *entries = k;
            *number = 0;
            *offset = 0;
        }
        Ranked::Refused {
            number: n,
            offset: o,
        } => {
            *valued = 0;
            *total = 0;
            *entries = 0;
            *number = n;
            *offset = o;
        }
    }
}
