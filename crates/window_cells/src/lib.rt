// Cells of a window's buffer: small numbers read from them, and tests and copies of stretches.
#![tactic(auto)]

ghost use Rattle.std.specs.Prelude.{◌≤◌, ◌≡◌, map, length, take, pos};
ghost use Rattle.meaning.specs.Base.{all};
ghost use Rattle.meaning_window.specs.Window as Window;
ghost use Rattle.meaning_window.specs.Window.{zeros, number_at, past_window};
ghost use Rattle.theory_window.specs.Parts.{is_zero};

use limits::{PAST_WINDOW, WINDOW};
use value::in_bounds;

// A number from 0 to 64, and 65 for anything else.
// Kept: 65 and no Option, since the tests that follow turn 65 back: with an Option each of the five reads of a buffer is a branch more.
pub fn small(v: i64) -> usize
    ensures { (result ≡ Window.small v) × (result ≤ past_window) }
{
    if in_bounds(v, 0, WINDOW as i64) {
        v as usize
    } else {
        PAST_WINDOW
    }
}

pub fn number_at(cells: &[i64], at: usize) -> usize
    ensures { (result ≡ number_at cells.now at) × (result ≤ past_window) }
{
    small(cells.get(at).copied().unwrap_or(0))
}

pub fn all_zero(cells: &[i64]) -> bool
    ensures { result ≡ all is_zero cells.now }
{
    cells.iter().all(|v| *v == 0)
}

pub fn clear(cells: &mut [i64])
    ensures { cells.new ≡ zeros (length cells.old) }
{
    cells.fill(0);
}

// Small numbers written into the cells.
pub fn put(cells: &mut [i64], from: &[u8])
    requires { length cells.old ≤ length from.now }
    ensures { cells.new ≡ map pos (take (length cells.old) from.now) }
{
    for (i, cell) in cells.iter_mut().enumerate() {
        *cell = i64::from(from[i]);
    }
}
