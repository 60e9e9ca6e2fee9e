// The body of a production: the addresses of its expects, its entry tests, its scheme; and what its places wait at.
#![tactic(auto)]

ghost use Rattle.std.specs.Prelude.{ℕ, ◌≡◌, List, length};
ghost use Rattle.meaning.specs.Scheme.{syn_between};
ghost use Rattle.program_block_words.specs.Patch.{Wrote};
ghost use Rattle.program_body_words.specs.SchemeWords.{end_words};
ghost use Rattle.program_body_words.specs.OfProduction.{right_of, Prepared, EndFits, BodyFits, BodyWrote};

use crate::symbols::write_symbols;
use outline::count_of;
use program_blocks::{write_block, write_entry_tests};
use program_body_levels::find_levels;
use program_parts::Items;
use token_set::TokenSet;
use value::word_or_zero;

pub mod symbols;

// The synthesized attributes of all symbols.
fn whole_sum(row: &[u8], inherited: &[u8], levels: &[u32]) -> u32
    requires { (fs : List ℕ) × ((ss : List ℕ) × ((ms : List ℕ) × ((ls : List ℕ) × Prepared row.now fs inherited.now ss ms ls levels.now))) }
    ensures { (fs ss ms ls : List ℕ) (x : Prepared row.now fs inherited.now ss ms ls levels.now) → result ≡ syn_between x.given.grammar x.given.production 0 (length (right_of x.given)) }
{
    let size = outline::row_size(row) as usize;
    if size == 0 {
        return 0;
    }
    let own = count_of(inherited, outline::row_symbol(row, size - 1) as usize) as u32;
    word_or_zero(levels, size) - own
}

const REMOVE: u32 = operations::REMOVE as u32;

// The left side's synthesized attributes, and the remove.
fn write_end(
    row: &[u8],
    fields: &[u8],
    inherited: &[u8],
    marks: &[u32],
    links: &[u32],
    levels: &[u32],
    area: &mut [u32],
    address: usize,
) -> usize
    requires { EndFits row.now fields.now inherited.now marks.now links.now levels.now area.old address }
    ensures { (x : EndFits row.now fields.now inherited.now marks.now links.now levels.now area.old address)
        → Wrote area.old area.new address result (end_words x.prepared.given.grammar x.prepared.given.production) }
{
    let sum = whole_sum(row, inherited, levels);
    let own = value::byte_at(inherited, outline::row_left(row) as usize);
    let rules = Items::Rules;
    let remove = write_block(fields, marks, links, rules, 0, sum, levels, area, address);
    area[remove] = program_parts::head(REMOVE, own + sum);
    remove + 1
}

// The body from an address on, and from another one on what the places wait at.
pub fn write_body(
    row: &[u8],
    fields: &[u8],
    inherited: &[u8],
    synthesized: &[u8],
    carrying: TokenSet,
    marks: &[u32],
    links: &[u32],
    area: &mut [u32],
    address: usize,
    wait: usize,
) -> usize
    requires { BodyFits row.now fields.now inherited.now synthesized.now carrying.0 marks.now links.now area.old address wait }
    ensures { (x : BodyFits row.now fields.now inherited.now synthesized.now carrying.0 marks.now links.now area.old address wait) → BodyWrote x area.new result }
{
    let levels = find_levels(row, inherited, synthesized, carrying, area, wait);
    let entry = address + outline::row_size(row) as usize;
    let first = write_entry_tests(fields, marks, links, &levels, area, entry);
    let end = write_symbols(
        row,
        fields,
        inherited,
        synthesized,
        marks,
        links,
        &levels,
        area,
        first,
        address,
    );
    write_end(row, fields, inherited, marks, links, &levels, area, end)
}
