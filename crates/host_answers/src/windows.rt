// A finish's answer from the three numbers that `segment_finish` hands out, and a window's answer as four.
ghost use Rattle.std.specs.Prelude.{◌≡◌};
ghost use Rattle.records.specs.Records as Records;
ghost use Rattle.window.specs.Answers as Answers;
ghost use Rattle.host_answers.specs.windows.Windows.{finished_as, NumbersOf};

use records::Answer;
use window::WindowAnswer;

// The answer of a finish, from its numbers.
pub fn finished(number: u32, value: i64, count: u64) -> Answer
    ensures { Records.answer_is result ≡ finished_as number value count }
{
    if number == 0 {
        return Answer::Value(value, count);
    }
    Answer::Refused {
        number,
        tokens: count,
    }
}

// 42 or 0, the total, the largest, and 1, or 0 where there is none.
pub fn hand_out(
    answer: WindowAnswer,
    number: &mut u32,
    total: &mut i64,
    largest: &mut i64,
    known: &mut u32,
)
    ensures { NumbersOf (Answers.answer_is answer) number.new total.new largest.new known.new }
{
    match answer {
        WindowAnswer::Totals {
            total: sum,
            largest: top,
        } => {
            *number = 0;
            *total = sum;
            *largest = top;
            *known = 1;
        }
        WindowAnswer::Empty => {
            *number = 0;
            *total = 0;
            *largest = 0;
            *known = 0;
        }
        WindowAnswer::Refused => {
            *number = 42;
            *total = 0;
            *largest = 0;
            *known = 0;
        }
    }
}
