// The records and the bodies of all productions, and between them what the places wait at.
ghost use Rattle.std.specs.Prelude.{◌≤◌, length};
ghost use Rattle.meaning.specs.Limits.{area_length};
ghost use Rattle.outline.specs.Outline.{grammar_in, Outlined};
ghost use Rattle.program_words.specs.Built.{LinksFit, AllWrote};

use limits::{NONTERMINALS, PRODUCTIONS, ROWS};
use outline::Sizes;

// All records and bodies, and what all places wait at; answers the address behind the last body. The chains of each production's
// rules and conditions are made in `links`.
fn write_each(
    table: &[u8],
    rows: &[u8; ROWS],
    inherited: &[u8; NONTERMINALS],
    synthesized: &[u8; NONTERMINALS],
    offsets: &[u32; PRODUCTIONS],
    sets: &[u64; PRODUCTIONS],
    sizes: Sizes,
    links: &mut [u32],
    area: &mut [u32],
) -> usize
    requires { Outlined table.now sizes inherited.now synthesized.now rows.now offsets.now sets.now × (area_length ≤ length area.old) × LinksFit (length table.now) (length links.old) }
    ensures { AllWrote (grammar_in table.now) area.old area.new result }
{
    let count = sizes.productions;
    let mut at = program_parts::DIRECTORY + program_parts::DIRECTORY_WORDS * sizes.nonterminals;
    let mut body = at + 20 * count;
    let nexts = crate::record::find_nexts(rows, count);
    for p in 0..count {
        body = crate::record::write_production(
            table,
            rows,
            inherited,
            synthesized,
            offsets,
            sets,
            sizes,
            &nexts,
            links,
            p,
            area,
            at,
            body,
        );
        at += program_parts::RECORD_WORDS;
    }
    body
}

// The records and bodies of all productions, with an array for the chains: 104 rules and 512 conditions are the most that a production can have, and each takes eight
// bytes of the table at least, so that a short table does with a short array.
pub fn write_productions(
    table: &[u8],
    rows: &[u8; ROWS],
    inherited: &[u8; NONTERMINALS],
    synthesized: &[u8; NONTERMINALS],
    offsets: &[u32; PRODUCTIONS],
    sets: &[u64; PRODUCTIONS],
    sizes: Sizes,
    area: &mut [u32],
) -> usize
    requires { Outlined table.now sizes inherited.now synthesized.now rows.now offsets.now sets.now × (area_length ≤ length area.old) }
    ensures { AllWrote (grammar_in table.now) area.old area.new result }
{
    if table.len() <= 512 {
        let mut links = [0u32; 64];
        return write_each(
            table,
            rows,
            inherited,
            synthesized,
            offsets,
            sets,
            sizes,
            &mut links,
            area,
        );
    }
    let mut links = [0u32; 616];
    write_each(
        table,
        rows,
        inherited,
        synthesized,
        offsets,
        sets,
        sizes,
        &mut links,
        area,
    )
}
