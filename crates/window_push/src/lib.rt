// One more value in a well kept buffer: the oldest leaves where the window is full, and the leaders are those that still lead and the value's slot.
#![tactic(auto)]

ghost use Rattle.std.specs.Prelude.{◌+◌, ◌<◌, ◌≤◌, ◌≡◌, length};
ghost use Rattle.meaning_window.specs.Window as Window;
ghost use Rattle.meaning_window.specs.Window.{leader_cells, size_in_value, next_in, written, values_with, window_limit, past_window};
ghost use Rattle.theory_window.specs.Ring as Ring;
ghost use Rattle.window_push.specs.Parts as Parts;
ghost use Rattle.window_push.specs.Parts.{stored};

use limits::PAST_WINDOW;
use window_cells::put;
use window_found::Found;

fn after(size: usize, slot: usize) -> usize
    requires { slot < size }
    ensures { (result ≡ Window.after size slot) × (result ≤ size) }
{
    if slot + 1 == size { 0 } else { slot + 1 }
}

fn grown(size: usize, held: usize) -> usize
    requires { held ≤ size }
    ensures { (result ≡ Ring.grown size held) × (result ≤ size) }
{
    if held < size { held + 1 } else { held }
}

// The leaders' cells: these slots, and 0 in the rest.
fn lay(area: &mut [i64], leaders: &[u8])
    requires { length leaders.now ≤ length area.old }
    ensures { area.new ≡ leader_cells (length area.old) leaders.now }
{
    let count = leaders.len();
    put(&mut area[..count], leaders);
    area[count..].fill(0);
}

// The numbers of a window and the value in its slot.
fn store(
    buffer: &mut [i64],
    held: usize,
    next: usize,
    sum: i64,
    count: usize,
    slot: usize,
    value: i64,
)
    requires { (held ≤ past_window) × (next ≤ past_window) × (count ≤ past_window) × (slot ≤ window_limit) × (5 + slot < length buffer.old) }
    ensures { buffer.new ≡ stored buffer.old held next sum count slot value }
{
    buffer[1] = held as i64;
    buffer[2] = next as i64;
    buffer[3] = sum;
    buffer[4] = count as i64;
    buffer[5 + slot] = value;
}

// The buffer with one more value, from what the check has found: no cell is read.
pub fn renew(buffer: &mut [i64], found: Found, value: i64, leaders: &[u8])
    requires { Parts.ValueBrought buffer.old found value leaders.now }
    ensures { buffer.new ≡ written (size_in_value buffer.old) (Window.after (size_in_value buffer.old) (next_in buffer.old)) (values_with value buffer.old) buffer.old }
{
    let Found {
        size,
        next,
        from,
        ..
    } = found;
    store(
        buffer,
        grown(size, found.held),
        after(size, next),
        found.sum,
        PAST_WINDOW - from,
        next,
        value,
    );
    lay(&mut buffer[5 + size..5 + 2 * size], &leaders[from..]);
}
