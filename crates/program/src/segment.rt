// The words of the program on the whole segment.
ghost use Rattle.std.specs.Prelude.{ℕ, ◌+◌, ◌≤◌, List, length};
ghost use Rattle.meaning.specs.Limits.{area_length};
ghost use Rattle.meaning.specs.Program.{segment_words};
ghost use Rattle.program_block_words.specs.Patch.{Wrote};
ghost use Rattle.outline.specs.Outline.{grammar_in, Outline};

use outline::Sizes;

// Words one after the other; answers the address behind them.
pub fn put(area: &mut [u32], at: usize, words: &[u32]) -> usize
    requires { at + length words.now ≤ length area.old }
    ensures { Wrote area.old area.new at result words.now }
{
    let end = at + words.len();
    area[at..end].copy_from_slice(words);
    end
}

const PREDICT: u32 = operations::PREDICT as u32;

const NOTHING: u32 = operations::NOTHING as u32;

// The words on the whole segment.
pub fn write_segment(synthesized: &[u8], sizes: Sizes, area: &mut [u32]) -> usize
    requires { ((table inherited rows offsets : List ℕ) × Outline table sizes inherited synthesized.now rows offsets) × (area_length ≤ length area.old) }
    ensures { (table inherited rows offsets : List ℕ) → Outline table sizes inherited synthesized.now rows offsets → Wrote area.old area.new 0 result (segment_words (grammar_in table)) }
{
    let start = sizes.start as u32;
    let records = (program_parts::DIRECTORY
        + program_parts::DIRECTORY_WORDS * sizes.nonterminals) as u32;
    let terminals = sizes.terminals as u32;
    let registers = value::byte_at(synthesized, sizes.start);
    let result = sizes.result as u32;
    let productions = sizes.productions as u32;
    let low = (sizes.carrying.0 % 4294967296) as u32;
    let high = (sizes.carrying.0 / 4294967296) as u32;
    let head = program_parts::head(PREDICT, start);
    let next = put(area, 0, &[head, NOTHING, records, terminals]);
    let last = put(area, next, &[registers, result, productions, low]);
    area[last] = high;
    last + 1
}
