// Whether an opening and values after it can have left a window's buffer so, and what the window is with one more value: by one walk that
// reads no cell twice.
#![tactic(auto)]

ghost use Rattle.std.specs.Prelude.{◌+◌, ◌*◌, ◌≤◌, ◌≡◌, true, length};
ghost use Rattle.meaning.specs.Value.{in_range};
ghost use Rattle.meaning_window.specs.Window.{place_fits, window_limit, past_window};
ghost use Rattle.theory_window.specs.Parts.{rest_zero};
ghost use Rattle.window_found.specs.Checks.{CheckedParts, CheckedIn};

use limits::{PAST_WINDOW, WINDOW};
use window_cells::{all_zero, number_at};
use window_found::{Found, Numbers};
use window_walk::walk_back;

fn place_fits(size: usize, held: usize, next: usize) -> bool
    ensures { result ≡ place_fits size held next }
{
    held <= size && next < size && (held == size || next == held)
}

// 0 in the slots that hold no value yet and in the leader cells past the leaders.
fn rest_zero(slots: &[i64], area: &[i64], held: usize, count: usize) -> bool
    requires { (held ≤ length slots.now) × (count ≤ length area.now) }
    ensures { result ≡ rest_zero held slots.now count area.now }
{
    all_zero(&slots[held..]) && all_zero(&area[count..])
}

fn parts_kept(
    buffer: &[i64],
    size: usize,
    value: i64,
    leaders: &mut [u8; PAST_WINDOW],
) -> Option<Found>
    requires { (size ≤ window_limit) × (5 + 2 * size ≤ length buffer.now) × (in_range value ≡ true) × (length leaders.old ≡ past_window) }
    ensures { CheckedParts buffer.now size value result leaders.new }
{
    let held = number_at(buffer, 1);
    let next = number_at(buffer, 2);
    if !place_fits(size, held, next) {
        return None;
    }
    let count = number_at(buffer, 4);
    if size < count {
        return None;
    }
    let slots = &buffer[5..5 + size];
    let area = &buffer[5 + size..5 + 2 * size];
    if !rest_zero(slots, area, held, count) {
        return None;
    }
    let at = Numbers {
        held,
        next,
        count,
        total: buffer[3],
    };
    walk_back(slots, area, at, value, leaders)
}

// Whether the buffer is well kept, what the test has read of it, and what the window is with the value. No cell is read twice.
pub fn check(buffer: &[i64], value: i64, leaders: &mut [u8; PAST_WINDOW]) -> Option<Found>
    requires { (in_range value ≡ true) × (length leaders.old ≡ past_window) }
    ensures { CheckedIn buffer.now value result leaders.new }
{
    let size = number_at(buffer, 0);
    if size < 1 || WINDOW < size || buffer.len() < 5 + 2 * size {
        return None;
    }
    parts_kept(buffer, size, value, leaders)
}
