// The walk along the values that a window holds, and what is found at its end.
#![tactic(auto)]

ghost use Rattle.std.specs.Prelude.{◌≡◌, true, length};
ghost use Rattle.meaning_window.specs.Window.{past_window};
ghost use Rattle.meaning.specs.Value.{in_range};
ghost use Rattle.theory_window.specs.Next.{leaving_of};
ghost use Rattle.window_found.specs.Parts as Parts;
ghost use Rattle.window_found.specs.Turns.{Ended, concluded};
ghost use Rattle.window_found.specs.Checks.{Walked};

use crate::turn::one_turn;
use limits::{PAST_WINDOW, WINDOW};
use value::MARK;
use window_found::{Found, Numbers, Walk};

pub mod turn;

// The value that leaves, by the one that the walk has read last: none where there is room.
fn leaving(size: usize, held: usize, last: i64) -> i64
    ensures { result ≡ leaving_of size held last }
{
    if held == size { last } else { 0 }
}

// The end of the walk: each leader cell is matched, and the total's cell is the sum.
fn conclude(size: usize, at: Numbers, value: i64, w: Walk) -> Option<Found>
    requires { Ended value w }
    ensures { result ≡ concluded size at value w }
{
    if w.unmatched != 0 || at.total != w.sum {
        return None;
    }
    let less = at.total - leaving(size, at.held, w.last);
    Some(Found {
        size,
        held: at.held,
        next: at.next,
        total: at.total,
        largest: w.top,
        sum: less + value,
        top: w.best,
        from: w.from,
    })
}

// The values held, by one walk: each in range, their total and their leaders as the cells say.
pub fn walk_back(
    slots: &[i64],
    area: &[i64],
    at: Numbers,
    value: i64,
    leaders: &mut [u8; PAST_WINDOW],
) -> Option<Found>
    requires { Parts.Window slots.now area.now at × (in_range value ≡ true) × (length leaders.old ≡ past_window) }
    ensures { Walked slots.now area.now at value result leaders.new }
{
    leaders[WINDOW] = at.next as u8;
    let mut w = Walk {
        slot: at.next,
        last: 0,
        sum: 0,
        top: MARK,
        unmatched: at.count,
        from: WINDOW,
        best: value,
    };
    for _ in 0..at.held {
        w = one_turn(slots, area, at.next, value, w, leaders)?;
    }
    conclude(slots.len(), at, value, w)
}
