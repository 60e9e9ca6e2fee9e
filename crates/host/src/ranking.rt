// Ranked suggestions.
ghost use Rattle.meaning.specs.Program.{program_of};
ghost use Rattle.meaning.specs.PublicCalls.{stacks_of};
ghost use Rattle.meaning_ranking.specs.RankCall.{rank_of};
ghost use Rattle.host_answers.specs.ranked.Suggested.{RankPassedOn};

// Candidate segments, as one list of kinds, one of values and their lengths, evaluated and listed, highest value first: three cells an
// entry, its candidate's number, its value or 0, its refusal or 0. How many were valued, the exact total of their values and the number of
// entries; number and offset are then 0. On a refusal these are the refusal's, the others are 0, and no cell of the list changes.
#[unsafe(no_mangle)]
pub extern "C" fn segment_rank(
    table: &[u8],
    registers: &mut [i64],
    places: &mut [u32],
    program: &mut [u32],
    list: &mut [i64],
    kinds: &[u8],
    values: &[i32],
    lengths: &[u32],
    valued: &mut usize,
    total: &mut i64,
    entries: &mut usize,
    number: &mut u32,
    offset: &mut u32,
)
    ensures { RankPassedOn valued.new total.new entries.new number.new offset.new list.new registers.new places.new program.new
        (rank_of program_of table.now program.old lengths.now kinds.now values.now list.old (stacks_of registers.old places.old)) }
{
    let answer = rank::rank(
        table, registers, places, program, list, kinds, values, lengths,
    );
    host_answers::ranked::lend(answer, valued, total, entries, number, offset);
}
