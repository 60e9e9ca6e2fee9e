// The answer of the call that writes a tree's sheet as lent numbers.
#![tactic(auto)]

ghost use Rattle.host_sheet_numbers.specs.SheetLent.{answer_of, LentAs};

use sheet_answers::Answer;

// 0, the value, the moves and the sheet's length. On a refusal the number is the refusal's, the count its tokens read or the table's offset,
// and value and length are 0.
pub fn lend(answer: Answer, number: &mut u32, value: &mut i64, count: &mut u64, length: &mut u64)
    ensures { LentAs (answer_of answer) number.new value.new count.new length.new }
{
    match answer {
        Answer::Value(v, moves, size) => {
            *number = 0;
            *value = v;
            *count = moves;
            *length = size;
        }
        Answer::Refused {
            number: n,
            tokens: t,
        } => {
            *number = n;
            *value = 0;
            *count = t;
            *length = 0;
        }
        Answer::TableRefused {
            number: n,
            offset: o,
        } => {
            *number = n;
            *value = 0;
            *count = o;
            *length = 0;
        }
    }
}
