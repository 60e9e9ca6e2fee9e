// A window over the values of the last finished segments, kept in a lent buffer: docs/WINDOW.md states its cells.
#![tactic(auto)]

ghost use Rattle.std.specs.Prelude.{◌≡◌, true};
ghost use Rattle.meaning.specs.Value.{in_range};
ghost use Rattle.meaning_window.specs.Window.{opens_window, brings_value, brings_refusal};
ghost use Rattle.theory_window.specs.Parts.{answer_of};
ghost use Rattle.window_push.specs.Parts as Parts;
ghost use Rattle.window.specs.Answers.{answer_is, outcome_is};

use limits::{PAST_WINDOW, WINDOW};
use value::in_range;
use window_found::Found;
use window_kept::check;
use window_push::renew;

#[derive(Clone, Copy)]
pub enum WindowAnswer {
    Totals { total: i64, largest: i64 },
    // No value yet: total 0, and no largest.
    Empty,
    // 42.
    Refused,
}

// Total and largest where a value is held.
fn standing(held: usize, total: i64, largest: i64) -> WindowAnswer
    ensures { answer_is result ≡ answer_of held total largest }
{
    match held {
        0 => WindowAnswer::Empty,
        _ => WindowAnswer::Totals { total, largest },
    }
}

// The value enters: total and largest with it are what the check has found.
fn push(value: i64, buffer: &mut [i64], found: Found, leaders: &[u8]) -> WindowAnswer
    requires { Parts.ValueBrought buffer.old found value leaders.now × (in_range value ≡ true) }
    ensures { outcome_is result buffer.new ≡ brings_value value buffer.old }
{
    renew(buffer, found, value, leaders);
    WindowAnswer::Totals {
        total: found.sum,
        largest: found.top,
    }
}

// Opens a window of a size from 1 to 64 in the first 5 + 2 * size cells of the buffer.
pub fn window_open(size: u64, buffer: &mut [i64]) -> WindowAnswer
    ensures { outcome_is result buffer.new ≡ opens_window size buffer.old }
{
    if size < 1 || (WINDOW as u64) < size {
        return WindowAnswer::Refused;
    }
    let length = 5 + 2 * size as usize;
    if buffer.len() < length {
        return WindowAnswer::Refused;
    }
    buffer[..length].fill(0);
    buffer[0] = size as i64;
    WindowAnswer::Empty
}

// Brings the value of an accepted segment.
pub fn window_value(value: i64, buffer: &mut [i64]) -> WindowAnswer
    ensures { outcome_is result buffer.new ≡ brings_value value buffer.old }
{
    if !in_range(value) {
        return WindowAnswer::Refused;
    }
    let mut leaders = [0u8; PAST_WINDOW];
    let Some(found) = check(buffer, value, &mut leaders) else {
        return WindowAnswer::Refused;
    };
    push(value, buffer, found, &leaders)
}

// A refused segment changes nothing, and gets total and largest as they stand: the value that the check takes along plays no part.
pub fn window_state(buffer: &[i64]) -> WindowAnswer
    ensures { answer_is result ≡ brings_refusal buffer.now }
{
    let mut leaders = [0u8; PAST_WINDOW];
    let Some(found) = check(buffer, 0, &mut leaders) else {
        return WindowAnswer::Refused;
    };
    standing(found.held, found.total, found.largest)
}
