// The builder: it writes the program of an accepted table, in the layout of docs/PROGRAM.md.
#![tactic(auto)]

ghost use Rattle.std.specs.Prelude.{◌≤◌, length};
ghost use Rattle.meaning.specs.Limits.{area_length};
ghost use Rattle.outline.specs.Outline.{grammar_in, Outlined};
ghost use Rattle.program.specs.Building.{ProgramWrote};

use limits::{NONTERMINALS, PRODUCTIONS, ROWS};
use outline::Sizes;

pub mod directory;
pub mod productions;
pub mod record;
pub mod segment;

// Writes the program; answers its length. Words beyond it stay as they are.
pub fn build(
    table: &[u8],
    rows: &[u8; ROWS],
    inherited: &[u8; NONTERMINALS],
    synthesized: &[u8; NONTERMINALS],
    offsets: &[u32; PRODUCTIONS],
    sets: &[u64; PRODUCTIONS],
    sizes: Sizes,
    area: &mut [u32],
) -> usize
    requires { Outlined table.now sizes inherited.now synthesized.now rows.now offsets.now sets.now × (area_length ≤ length area.old) }
    ensures { ProgramWrote (grammar_in table.now) area.old area.new result }
{
    crate::segment::write_segment(synthesized, sizes, area);
    let end = crate::productions::write_productions(
        table,
        rows,
        inherited,
        synthesized,
        offsets,
        sets,
        sizes,
        area,
    );
    crate::directory::write_directory(rows, sets, sizes.nonterminals, sizes.productions, area);
    end
}
