// The answer of a check of a sheet as lent numbers.
ghost use Rattle.judge_sheet.specs.Judged.{judgement_is};
ghost use Rattle.host_answers.specs.judged.JudgeLent.{LentAs};

use judge_sheet::Judgement;

// The value of a sheet that is accepted; number and offset are then 0. On a refusal these are the refusal's (38 or 43 with 0, or the
// table's), and the value is 0.
pub fn lend(judged: Judgement, number: &mut u32, value: &mut i64, offset: &mut u32)
    ensures { LentAs (judgement_is judged) number.new value.new offset.new }
{
    match judged {
        Judgement::Value(v) => {
            *number = 0;
            *value = v;
            *offset = 0;
        }
        Judgement::Uneven => {
            *number = 38;
            *value = 0;
            *offset = 0;
        }
        Judgement::Wrong => {
            *number = 43;
            *value = 0;
            *offset = 0;
        }
        Judgement::Unusable {
            number: n,
            offset: o,
        } => {
            *number = n;
            *value = 0;
            *offset = o;
        }
    }
}
