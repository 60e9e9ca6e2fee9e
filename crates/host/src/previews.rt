// What may be typed now.
ghost use Rattle.meaning.specs.Program.{program_of};
ghost use Rattle.meaning.specs.PublicCalls.{stacks_of};
ghost use Rattle.meaning_preview.specs.Preview.{previews, mays};
ghost use Rattle.host_numbers.specs.Lent.{brought_in, PassedOn};
ghost use Rattle.host.specs.may_numbers.Previewed.{MayPassedOn};

// What feeding a token would answer, and in `after` the record that it would hand back. The run's own record and stacks are only
// read; the scratch is as long as the part of each stack that a run may use, and that part of it ends cleared.
#[unsafe(no_mangle)]
pub extern "C" fn segment_preview(
    table: &[u8],
    record: &[u64; 8],
    registers: &[i64],
    places: &[u32],
    scratch_registers: &mut [i64],
    scratch_places: &mut [u32],
    program: &mut [u32],
    kind: u8,
    value: i32,
    after: &mut [u64; 8],
    number: &mut u32,
    count: &mut u64,
)
    ensures { PassedOn after.new number.new count.new scratch_registers.new scratch_places.new program.new
        (previews program_of table.now program.old (brought_in «record».now) (stacks_of registers.now places.now) (stacks_of scratch_registers.old scratch_places.old) kind value) }
{
    let called = preview::preview(
        host_numbers::brought(record),
        table,
        registers,
        places,
        scratch_registers,
        scratch_places,
        program,
        kind,
        value,
    );
    host_numbers::pass_on(called, after, number, count);
}

// The tokens that may come next, with one value to try for all of them: a word with bit t for token t; number and count are then 0.
// On a refusal the word is 0.
#[unsafe(no_mangle)]
pub extern "C" fn segment_may(
    table: &[u8],
    record: &[u64; 8],
    registers: &[i64],
    places: &[u32],
    scratch_registers: &mut [i64],
    scratch_places: &mut [u32],
    program: &mut [u32],
    value: i32,
    tokens: &mut u64,
    number: &mut u32,
    count: &mut u64,
)
    ensures { MayPassedOn tokens.new number.new count.new scratch_registers.new scratch_places.new program.new
        (mays program_of table.now program.old (brought_in «record».now) (stacks_of registers.now places.now) (stacks_of scratch_registers.old scratch_places.old) value) }
{
    let may = preview::may_follow(
        host_numbers::brought(record),
        table,
        registers,
        places,
        scratch_registers,
        scratch_places,
        program,
        value,
    );
    *tokens = crate::may_numbers::tokens_of(may);
    *number = crate::may_numbers::may_number(may);
    *count = crate::may_numbers::may_count(may);
}
