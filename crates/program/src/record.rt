// The record and the body of a production, and what its places wait at.
ghost use Rattle.std.specs.Prelude.{◌≡◌, length, ◌≤◌, ◌<◌};
ghost use Rattle.program_block_words.specs.Patch.{Wrote};
ghost use Rattle.meaning.specs.Limits.{nonterminals_limit, productions_limit};
ghost use Rattle.meaning.specs.Grammar.{Grammar};
ghost use Rattle.outline.specs.Images.{ImageOf};
ghost use Rattle.outline.specs.Outline.{grammar_in};
ghost use Rattle.program_words.specs.Records.{Nexts, record_at};
ghost use Rattle.program_words.specs.Waits.{wait_from};
ghost use Rattle.program_words.specs.Built.{LinksFit, RecordFits, ProductionFits, ProductionWrote};

use limits::{NONTERMINALS, PRODUCTIONS};
use outline::Sizes;
use program_fields::fields_of;

// For each production the number plus 1 of the next one with the same left side, or 0: the last production first, with the first
// one so far of each nonterminal.
pub fn find_nexts(rows: &[u8], count: usize) -> [u8; PRODUCTIONS]
    requires { (g : Grammar) × ImageOf rows.now count g }
    ensures { Nexts rows.now count result }
{
    let mut nexts = [0u8; PRODUCTIONS];
    let mut firsts = [0u8; NONTERMINALS];
    for p in (0..count).rev() {
        let left = outline::left_of(rows, p) as usize;
        nexts[p] = firsts[left];
        firsts[left] = (p + 1) as u8;
    }
    nexts
}

// The record of production p, whose body begins at an address.
fn write_record(
    rows: &[u8],
    sets: &[u64],
    p: usize,
    body: usize,
    entries: u32,
    next: u32,
    area: &mut [u32],
    at: usize,
) -> usize
    requires { RecordFits rows.now sets.now p body entries next area.old at }
    ensures { (x : RecordFits rows.now sets.now p body entries next area.old at) → Wrote area.old area.new at result (record_at x.grammar p body) }
{
    let left = outline::left_of(rows, p) as u32;
    let size = outline::size_of(rows, p) as u32;
    let set = crate::directory::set_at(sets, p);
    let low = (set.0 % 4294967296) as u32;
    let high = (set.0 / 4294967296) as u32;
    let from = body as u32;
    let half = crate::segment::put(area, at, &[left, next, low, high]);
    let scheme = from + size + 3 * entries;
    crate::segment::put(area, half, &[from, entries, scheme, size])
}

// The address of what the places of production p wait at, behind the segment's code, the directory and the records.
fn wait_at(sizes: Sizes, p: usize) -> usize
    requires { (sizes.nonterminals ≤ nonterminals_limit) × (sizes.productions ≤ productions_limit) × (p < productions_limit) }
    ensures { result ≡ wait_from sizes.nonterminals sizes.productions p }
{
    program_parts::DIRECTORY
        + program_parts::DIRECTORY_WORDS * sizes.nonterminals
        + program_parts::RECORD_WORDS * sizes.productions
        + program_parts::WAIT_WORDS * p
}

// The record and the body of production p, and what its places wait at; answers the address behind the body. The chains of
// its rules and conditions are made in `links`.
pub fn write_production(
    table: &[u8],
    rows: &[u8],
    inherited: &[u8],
    synthesized: &[u8],
    offsets: &[u32],
    sets: &[u64],
    sizes: Sizes,
    nexts: &[u8],
    links: &mut [u32],
    p: usize,
    area: &mut [u32],
    at: usize,
    body: usize,
) -> usize
    requires { ProductionFits table.now sizes inherited.now synthesized.now rows.now offsets.now sets.now p area.old at body × Nexts rows.now sizes.productions nexts.now × LinksFit (length table.now) (length links.old) }
    ensures { (length links.new ≡ length links.old)
        × ProductionWrote (grammar_in table.now) p area.old area.new at body result }
{
    let fields = fields_of(table, rows, offsets, sizes.productions, p);
    let row = outline::row_of(rows, p);
    let mut marks = [0u32; 64];
    program_blocks::chains::find_items(fields, links, &mut marks);
    let next = value::byte_at(nexts, p);
    write_record(rows, sets, p, body, marks[1], next, area, at);
    program_bodies::write_body(
        row,
        fields,
        inherited,
        synthesized,
        sizes.carrying,
        &marks,
        links,
        area,
        body,
        wait_at(sizes, p),
    )
}
