// The levels of a production's positions, and what its places wait at.
#![tactic(auto)]

ghost use Rattle.std.specs.Prelude.{ℕ, ◌+◌, ◌≤◌, ◌≡◌, List, length};
ghost use Rattle.meaning.specs.Limits.{positions_limit, symbols_limit};
ghost use Rattle.program_body_words.specs.OfProduction.{OfProduction, Carried};
ghost use Rattle.program_body_words.specs.Waits.{LeveledAndWaiting};

use limits::POSITIONS;
use outline::{count_of, synthesized_of};
use program_zeros::clear;
use token_set::TokenSet;

// The levels of the positions. On the way what the production's places wait at is written: a word for each symbol, then zeros.
pub fn find_levels(
    row: &[u8],
    inherited: &[u8],
    synthesized: &[u8],
    carrying: TokenSet,
    area: &mut [u32],
    wait: usize,
) -> [u32; POSITIONS]
    requires { ((fs : List ℕ) × OfProduction row.now fs inherited.now synthesized.now) × (wait + symbols_limit ≤ length area.old) }
    ensures { (length result ≡ positions_limit) × ((fs : List ℕ) (x : OfProduction row.now fs inherited.now synthesized.now) → Carried carrying.0 x.grammar → LeveledAndWaiting x result area.old area.new wait) }
{
    let mut levels = [0u32; POSITIONS];
    let left = outline::row_left(row);
    let size = outline::row_size(row) as usize;
    let mut sum = 0u32;
    for k in 0..size {
        let symbol = outline::row_symbol(row, k);
        let marked = count_of(synthesized, symbol as usize) as u32;
        let own = count_of(inherited, symbol as usize) as u32;
        area[wait + k] = program_parts::wait_word(left, sum, marked, own, symbol);
        sum += synthesized_of(carrying, synthesized, symbol as usize) as u32;
        levels[k + 1] = sum + own;
    }
    clear(area, wait + size, wait + program_parts::WAIT_WORDS);
    levels
}
