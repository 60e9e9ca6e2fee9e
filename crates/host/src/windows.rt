// The window over the last values: a finish's answer comes as the three numbers that `segment_finish` hands out.
ghost use Rattle.meaning_window.specs.Window.{opens_window, brings_answer};
ghost use Rattle.host_answers.specs.windows.Windows.{finished_as, WindowPassedOn};

use window::window_open;
use window_answers::window_brings;

// Opens a window of a size from 1 to 64 in the first 5 + 2 * size cells of the buffer.
#[unsafe(no_mangle)]
pub extern "C" fn segment_window_open(
    size: u64,
    buffer: &mut [i64],
    number: &mut u32,
    total: &mut i64,
    largest: &mut i64,
    known: &mut u32,
)
    ensures { WindowPassedOn (opens_window size buffer.old) buffer.new number.new total.new largest.new known.new }
{
    let answer = window_open(size, buffer);
    host_answers::windows::hand_out(answer, number, total, largest, known);
}

// Brings a finish's answer: a value enters where the finish's number is 0; otherwise nothing changes.
#[unsafe(no_mangle)]
pub extern "C" fn segment_window_value(
    finish: u32,
    value: i64,
    count: u64,
    buffer: &mut [i64],
    number: &mut u32,
    total: &mut i64,
    largest: &mut i64,
    known: &mut u32,
)
    ensures { WindowPassedOn (brings_answer (finished_as finish value count) buffer.old) buffer.new number.new total.new largest.new known.new }
{
    let answer = host_answers::windows::finished(finish, value, count);
    let answer = window_brings(answer, buffer);
    host_answers::windows::hand_out(answer, number, total, largest, known);
}
