// A later call on a window brings a finish's answer: a value enters, anything else changes nothing and gets total and largest as they stand.
#![tactic(auto)]

ghost use Rattle.std.specs.Prelude.{◌≡◌};
ghost use Rattle.meaning_window.specs.Window.{brings_answer};
ghost use Rattle.records.specs.Records.{answer_is};
ghost use Rattle.window.specs.Answers.{outcome_is};

use records::Answer;
use window::{WindowAnswer, window_state, window_value};

pub fn window_brings(answer: Answer, buffer: &mut [i64]) -> WindowAnswer
    ensures { outcome_is result buffer.new ≡ brings_answer (answer_is answer) buffer.old }
{
    match answer {
        Answer::Value(value, _) => window_value(value, buffer),
        Answer::More(_) | Answer::Refused { .. } | Answer::TableRefused { .. } => {
            window_state(buffer)
        }
    }
}
