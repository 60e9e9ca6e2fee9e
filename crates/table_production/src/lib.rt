// The field of a production, with its rules and conditions.
#![tactic(auto)]

ghost use Rattle.std.specs.Prelude.{◌≡◌, ℕ, ◌+◌, ◌<◌, ◌≤◌, length, replicate, IfOk, OnOk};
ghost use Rattle.refusals.specs.Numbers.{fault_or_zero};
ghost use Rattle.outline.specs.Images.{rows_length};
ghost use Rattle.meaning.specs.Limits.{table_limit, nonterminals_limit, positions_limit, productions_limit};
ghost use Rattle.meaning.specs.Table.{byte};
ghost use Rattle.table_counts.specs.Counted.{SmallCounts};
ghost use Rattle.table_items.specs.Progress.{Next, place_of};
ghost use Rattle.table_sound_items.specs.Sound.{BodyTaken};
ghost use Rattle.table_production.specs.Productions.{width_in, HeadJudged, FieldRead, SmallBody, WordsPlaced, BodyRead, ProductionRead, refusal_of};
ghost use Rattle.table_production.specs.Rights.{RightsTo};

use limits::{NONTERMINALS, POSITIONS, PRODUCTIONS, ROWS};
use nonterminal_set::NonterminalSet;
use outline::Sizes;
use refusals::{TableFault, TableRefusal};
use table_fields::Refused;
use table_items::{Items, read_items};
use table_occurrence_words::read_right;
use table_rows::place_counts;
use table_sound_items::{all_settled, walk};
use token_set::TokenSet;

// The lowest fault of the field of production p, but for its symbols on the right.
#[tactic(auto, using(crate::proofs::Producing::head_cut, crate::proofs::Producing::head_right, table_counts::proofs::Steps::part_body))]
fn judge_head(table: &[u8], at: usize, p: usize, nonterminals: usize) -> Result<(), TableFault>
    requires { (at < length table.now) × (0 < p → byte table.now at ≡ 3) × (byte table.now at ≡ 6 → ⊥) }
    ensures { HeadJudged table.now at p nonterminals (fault_or_zero result) }
{
    let Some(size) = table_fields::size_at(table, at) else {
        return Err(TableFault::CutShort);
    };
    if table[at] != 3 {
        return Err(TableFault::OutOfOrder);
    }
    let from = at + 3;
    let end = from + size;
    table_fields::head_fault(nonterminals, p, &table[from..end])
}

// The rules and conditions of the production at an offset, one by one, with what is wrong with them, from the field on where the walk past sound
// ones stopped, with the note of the rules before it, which the words that are settled tell.
// Kept: out of line, since few productions come here, and what it holds would drive what the walk past sound fields holds out of the registers.
#[inline(never)]
fn judge_body(
    table: &[u8],
    at: usize,
    carrying: TokenSet,
    inherited: &[u8; NONTERMINALS],
    synthesized: &[u8; NONTERMINALS],
    settled: &[u16; POSITIONS],
    sound: Items,
) -> Result<Items, Refused>
    requires { (at + 5 + width_in table.now at ≤ sound.at) × SmallBody table.now at carrying.0 inherited.now synthesized.now
        × (length inherited.now ≡ nonterminals_limit) × (length synthesized.now ≡ nonterminals_limit) × (sound.at ≤ length table.now) × (sound.rules ≤ sound.at) × (sound.conditions ≤ sound.at) }
    ensures read { (p q : ℕ) → BodyTaken table.now at carrying.0 inherited.now synthesized.now p q settled.now sound.at sound.rules sound.conditions
        → BodyRead table.now at carrying.0 inherited.now synthesized.now p q result }
    ensures next { IfOk result (λ u. Next table.now (at + 5) u) }
    ensures inside { place_of result ≤ length table.now }
{
    let width = table_fields::wide(table[at + 4]);
    let from = at + 3;
    let end = at + 5 + width;
    let body = &table[from..end];
    let mut inh = [0u8; POSITIONS];
    let mut syn = [0u8; POSITIONS];
    place_counts(body, carrying, inherited, synthesized, &mut inh, &mut syn);
    let mut note = table_occurrences::note_of(width, &inh, &syn, settled);
    read_items(table, sound, at, width, &inh, &syn, &mut note)
}

// The rules and conditions of the production at an offset, which is where those of the productions before it end, by the words at its positions.
// Mostly they are sound and complete; else they are judged one by one from the first on that is not, or at their end.
fn read_body(
    table: &[u8],
    before: Items,
    carrying: TokenSet,
    inherited: &[u8; NONTERMINALS],
    synthesized: &[u8; NONTERMINALS],
    inputs: &[u16; POSITIONS],
    settled: &mut [u16; POSITIONS],
) -> Result<Items, Refused>
    requires { (before.at + 5 + width_in table.now before.at ≤ length table.now) × SmallBody table.now before.at carrying.0 inherited.now synthesized.now
        × (length inherited.now ≡ nonterminals_limit) × (length synthesized.now ≡ nonterminals_limit) × (before.rules ≤ before.at) × (before.conditions ≤ before.at)
        × WordsPlaced table.now before.at carrying.0 inherited.now synthesized.now inputs.now settled.old }
    ensures read { BodyRead table.now before.at carrying.0 inherited.now synthesized.now before.rules before.conditions result }
    ensures next { IfOk result (λ u. Next table.now (before.at + 5) u) }
    ensures inside { place_of result ≤ length table.now }
{
    let width = table_fields::wide(table[before.at + 4]);
    let from = Items {
        at: before.at + 5 + width,
        ..before
    };
    let stopped = match walk(table, from, inputs, settled) {
        Ok(end) => {
            if all_settled(settled, width) {
                return Ok(end);
            }
            end
        }
        Err(stopped) => stopped,
    };
    judge_body(
        table,
        before.at,
        carrying,
        inherited,
        synthesized,
        settled,
        stopped,
    )
}

// The field of production p, with its row, the word of its right side and the words at its positions.
fn read_field(
    table: &[u8],
    at: usize,
    p: usize,
    sizes: Sizes,
    inherited: &[u8; NONTERMINALS],
    synthesized: &[u8; NONTERMINALS],
    rows: &mut [u8; ROWS],
    inputs: &mut [u16; POSITIONS],
    settled: &mut [u16; POSITIONS],
) -> Result<NonterminalSet, TableFault>
    requires { (at < length table.now) × (0 < p → byte table.now at ≡ 3) × (byte table.now at ≡ 6 → ⊥) × SmallCounts inherited.now synthesized.now sizes.nonterminals
        × (sizes.nonterminals ≤ nonterminals_limit) × (length rows.old ≡ rows_length) × (inputs.old ≡ replicate positions_limit 0) × (settled.old ≡ replicate positions_limit 65535) }
    ensures { FieldRead table.now at p sizes.terminals sizes.nonterminals sizes.carrying.0 inherited.now synthesized.now
        rows.old rows.new inputs.new settled.new result }
{
    judge_head(table, at, p, sizes.nonterminals)?;
    let from = at + 3;
    let end = at + 5 + table_fields::wide(table[at + 4]);
    let body = &table[from..end];
    read_right(
        rows,
        p,
        body,
        sizes,
        inherited,
        synthesized,
        inputs,
        settled,
    )
    .ok_or(TableFault::Unknown)
}

// The refusal of a table for the fault at an offset.
fn refusal_at(fault: TableFault, at: usize) -> TableRefusal
    requires { at ≤ table_limit }
    ensures { result ≡ refusal_of fault at }
{
    let offset = at as u32;
    TableRefusal { fault, offset }
}

// Production p, with its row, its offset, the word of its right side, its rules and conditions, from where those of the productions before it
// end.
pub fn read_production(
    table: &[u8],
    before: Items,
    p: usize,
    sizes: Sizes,
    inh: &[u8; NONTERMINALS],
    syn: &[u8; NONTERMINALS],
    rows: &mut [u8; ROWS],
    offsets: &mut [u32; PRODUCTIONS],
    words: &mut [u64; PRODUCTIONS],
) -> Result<Items, TableRefusal>
    requires { (before.at < length table.now) × (length table.now ≤ table_limit) × (0 < p → byte table.now before.at ≡ 3) × (byte table.now before.at ≡ 6 → ⊥)
        × SmallCounts inh.now syn.now sizes.nonterminals × (length inh.now ≡ nonterminals_limit) × (length syn.now ≡ nonterminals_limit)
        × (length rows.old ≡ rows_length) × (length offsets.old ≡ productions_limit) × (before.rules ≤ before.at) × (before.conditions ≤ before.at) × (length words.old ≡ productions_limit)
        × (sizes.nonterminals ≤ nonterminals_limit) }
    ensures read { ProductionRead table.now before.at p sizes.terminals sizes.nonterminals sizes.carrying.0 inh.now syn.now
        rows.old offsets.old before.rules before.conditions rows.new offsets.new result }
    ensures kept { length words.new ≡ productions_limit }
    ensures words { OnOk result (RightsTo rows.old p words.old → RightsTo rows.new (p + 1) words.new) }
{
    let at = before.at;
    let mut inputs = [0u16; POSITIONS];
    let mut full = [65535u16; POSITIONS];
    match read_field(table, at, p, sizes, inh, syn, rows, &mut inputs, &mut full) {
        Ok(word) => words[p] = word.0,
        Err(fault) => return Err(refusal_at(fault, at)),
    }
    offsets[p] = at as u32;
    match read_body(table, before, sizes.carrying, inh, syn, &inputs, &mut full) {
        Ok(items) => Ok(items),
        Err(refused) => Err(refusal_at(refused.fault, refused.at)),
    }
}
