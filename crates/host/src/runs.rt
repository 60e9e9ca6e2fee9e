// The calls on a run.
ghost use Rattle.std.specs.Prelude.{◌≡◌};
ghost use Rattle.meaning.specs.Program.{program_of};
ghost use Rattle.meaning.specs.PublicCalls.{opens, performs, feed, finish, stacks_of};
ghost use Rattle.host_numbers.specs.Lent.{brought_in, answer_value, PassedOn};

use engine::Record;

// Opens a run. A refusal hands back a closed record, all zero.
#[unsafe(no_mangle)]
pub extern "C" fn segment_open(
    table: &[u8],
    record: &mut [u64; 8],
    registers: &mut [i64],
    places: &mut [u32],
    program: &mut [u32],
    number: &mut u32,
    count: &mut u64,
)
    ensures { PassedOn «record».new number.new count.new registers.new places.new program.new (opens program_of table.now program.old (stacks_of registers.old places.old)) }
{
    let called = Record::open(table, registers, places, program);
    host_numbers::pass_on(called, record, number, count);
}

// Feeds tokens, as a list of kinds and one of values.
#[unsafe(no_mangle)]
pub extern "C" fn segment_feed(
    table: &[u8],
    record: &mut [u64; 8],
    registers: &mut [i64],
    places: &mut [u32],
    program: &mut [u32],
    kinds: &[u8],
    values: &[i32],
    number: &mut u32,
    count: &mut u64,
)
    ensures { PassedOn «record».new number.new count.new registers.new places.new program.new
        (performs program_of table.now program.old (brought_in «record».old) (stacks_of registers.old places.old) (feed kinds.now values.now)) }
{
    let called = host_numbers::brought(record).feed(
        table, registers, places, program, kinds, values,
    );
    host_numbers::pass_on(called, record, number, count);
}

// Feeds tokens as `segment_feed` does, through the call that changes a record in place.
#[unsafe(no_mangle)]
pub extern "C" fn segment_feed_in_place(
    table: &[u8],
    record: &mut [u64; 8],
    registers: &mut [i64],
    places: &mut [u32],
    program: &mut [u32],
    kinds: &[u8],
    values: &[i32],
    number: &mut u32,
    count: &mut u64,
)
    ensures { PassedOn «record».new number.new count.new registers.new places.new program.new
        (performs program_of table.now program.old (brought_in «record».old) (stacks_of registers.old places.old) (feed kinds.now values.now)) }
{
    let brought = host_numbers::brought(record);
    let called = crate::in_place::fed(brought, table, registers, places, program, kinds, values);
    host_numbers::pass_on(called, record, number, count);
}

// Finishes the segment.
#[unsafe(no_mangle)]
pub extern "C" fn segment_finish(
    table: &[u8],
    record: &mut [u64; 8],
    registers: &mut [i64],
    places: &mut [u32],
    program: &mut [u32],
    number: &mut u32,
    value: &mut i64,
    count: &mut u64,
)
    ensures { PassedOn «record».new number.new count.new registers.new places.new program.new
        (performs program_of table.now program.old (brought_in «record».old) (stacks_of registers.old places.old) finish)
        × (value.new ≡ answer_value (performs program_of table.now program.old (brought_in «record».old) (stacks_of registers.old places.old) finish).answer) }
{
    let called = host_numbers::brought(record).finish(table, registers, places, program);
    let answer = called.answer;
    *value = host_numbers::answer_value(answer);
    host_numbers::pass_on(called, record, number, count);
}
