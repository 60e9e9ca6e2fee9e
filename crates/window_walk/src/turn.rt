// One more value of the walk along a window's ring.
ghost use Rattle.std.specs.Prelude.{◌*◌, ◌<◌, ◌≤◌, ◌≡◌, T, nat_abs};
ghost use Rattle.meaning.specs.Value as Value;
ghost use Rattle.meaning_window.specs.Window.{window_limit};
ghost use Rattle.value.specs.Overflow.{reach};
ghost use Rattle.theory_window.specs.Leaders as Leaders;
ghost use Rattle.window_found.specs.Turns.{ReadyForTurn, matched_at, stays_at, passing, turned, cells_after};

use limits::PAST_WINDOW;
use value::in_range;
use window_cells::number_at;
use window_found::Walk;

fn before(size: usize, slot: usize) -> usize
    requires { slot < size }
    ensures { (result ≡ Leaders.before size slot) × (result < size) }
{
    if slot == 0 { size - 1 } else { slot - 1 }
}

// Whether the last leader cell that is not matched yet names the slot.
fn is_matched(area: &[i64], unmatched: usize, slot: usize) -> bool
    ensures { result ≡ matched_at area.now unmatched slot }
{
    unmatched != 0 && number_at(area, unmatched - 1) == slot
}

// Whether a leader stays: it does not leave, and is greater than the value.
fn is_staying(slot: usize, next: usize, leader: i64, value: i64) -> bool
    ensures { result ≡ stays_at slot next leader value }
{
    slot != next && value < leader
}

// The walk after a slot with a value that does not lead.
fn passed_by(w: Walk, slot: usize, value: i64) -> Walk
    requires { (nat_abs w.sum ≤ reach * window_limit) × T (Value.in_range value) }
    ensures { result ≡ passing w slot value }
{
    Walk {
        slot,
        last: value,
        sum: w.sum + value,
        ..w
    }
}

// One more value of the walk, the one before in the ring. A leader that stays is put before those that were found.
pub fn one_turn(
    slots: &[i64],
    area: &[i64],
    next: usize,
    value: i64,
    w: Walk,
    leaders: &mut [u8; PAST_WINDOW],
) -> Option<Walk>
    requires { ReadyForTurn slots.now w }
    ensures { (result ≡ turned slots.now area.now next value w) × (leaders.new ≡ cells_after slots.now area.now next value w leaders.old) }
{
    let slot = before(slots.len(), w.slot);
    let v = slots[slot];
    if !in_range(v) {
        return None;
    }
    let passed = passed_by(w, slot, v);
    if v <= w.top {
        return Some(passed);
    }
    if !is_matched(area, w.unmatched, slot) {
        return None;
    }
    let matched = Walk {
        top: v,
        unmatched: w.unmatched - 1,
        ..passed
    };
    if !is_staying(slot, next, v, value) {
        return Some(matched);
    }
    let from = w.from - 1;
    leaders[from] = slot as u8;
    Some(Walk {
        from,
        best: v,
        ..matched
    })
}
