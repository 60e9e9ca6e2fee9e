// The directory: 64 words for each nonterminal.
ghost use Rattle.std.specs.Prelude.{◌+◌, ◌≤◌, ◌<◌, ◌≡◌, length, get_or};
ghost use Rattle.meaning.specs.Limits.{area_length, productions_limit};
ghost use Rattle.program_block_words.specs.Patch.{Wrote};
ghost use Rattle.program_words.specs.Directory.{Alternatives, Marked, Recorded, entry_at};
ghost use Rattle.meaning.specs.Program.{directory};

use program_parts::{DIRECTORY, DIRECTORY_SCHEME, DIRECTORY_WORDS, RECORD_WORDS};
use token_set::TokenSet;

// The set whose word stands at an index; none past the end.
pub fn set_at(sets: &[u64], at: usize) -> TokenSet
    ensures { (result.0 ≡ get_or sets.now at 0) × (result.0 < 18446744073709551616) }
{
    if sets.len() <= at {
        return TokenSet::EMPTY;
    }
    TokenSet(sets[at])
}

// The number is written at each bit of a set, in a row of 64 words.
fn mark(set: TokenSet, number: u32, area: &mut [u32], from: usize)
    requires { from + 64 ≤ length area.old }
    ensures { Marked area.old area.new from set.0 number 64 }
{
    let mut rest = set.0;
    let mut u: usize = 0;
    // Kept: from one bit that is set to the next by the processor's count of trailing zeros, so that bits that are not set cost no turn
    while rest != 0 {
        let zeros = u64::trailing_zeros(rest) as usize;
        area[from + u + zeros] = number;
        rest = (rest >> zeros) / 2;
        u = u + zeros + 1;
    }
}

// What the directory says of a production, by its number plus 1 and the address of its record: the number, and where its scheme begins if it has no entry tests.
fn entry(area: &[u32], at: usize, number: u32) -> u32
    requires { (at + 8 ≤ length area.now) × (number ≤ productions_limit) × (get_or area.now (at + 6) 0 ≤ area_length) }
    ensures { result ≡ entry_at area.now at number }
{
    if area[at + program_parts::TESTS] == 0 {
        return number + DIRECTORY_SCHEME as u32 * area[at + program_parts::SCHEME];
    }
    number
}

// Behind the records, which it reads. The last production first, so that the first one of a token stays.
pub fn write_directory(
    rows: &[u8],
    sets: &[u64],
    nonterminals: usize,
    count: usize,
    area: &mut [u32],
) -> usize
    requires { ((x : Alternatives rows.now sets.now nonterminals count) × Recorded x.grammar area.old) × (area_length ≤ length area.old) }
    ensures { (x : Alternatives rows.now sets.now nonterminals count) → Recorded x.grammar area.old → Wrote area.old area.new 9 result (directory x.grammar) }
{
    let end = DIRECTORY + DIRECTORY_WORDS * nonterminals;
    program_zeros::clear(area, DIRECTORY, end);
    for p in (0..count).rev() {
        let left = outline::left_of(rows, p) as usize;
        let said = entry(area, end + RECORD_WORDS * p, p as u32 + 1);
        mark(
            set_at(sets, p),
            said,
            area,
            DIRECTORY + DIRECTORY_WORDS * left,
        );
    }
    end
}
