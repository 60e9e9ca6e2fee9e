// The calls on an inner run.
ghost use Rattle.std.specs.Prelude.{◌≡◌};
ghost use Rattle.meaning.specs.Program.{program_of};
ghost use Rattle.meaning.specs.PublicCalls.{stacks_of, feed, finish};
ghost use Rattle.meaning_inner.specs.Inner as Inner;
ghost use Rattle.meaning_inner.specs.Inner.{give_up, inner_opens, inner_performs};
ghost use Rattle.host_numbers.specs.Lent.{brought_in, answer_value};
ghost use Rattle.host.specs.Both.{NumbersPassed, BothPassedOn};

use inner::InnerCalled;

// Both records and the answer as numbers.
fn pass_on(
    called: InnerCalled,
    outer: &mut [u64; 8],
    inner: &mut [u64; 8],
    number: &mut u32,
    count: &mut u64,
)
    ensures { NumbersPassed called outer.new inner.new number.new count.new }
{
    host_numbers::hand_back(called.outer, outer);
    host_numbers::hand_back(called.inner, inner);
    let answer = called.answer;
    *number = host_numbers::answer_number(answer);
    *count = host_numbers::answer_count(answer);
}

// Opens an inner run above an outer one, which then waits. A refusal sets no mark, and hands back an inner record closed and all zero.
#[unsafe(no_mangle)]
pub extern "C" fn segment_inner_open(
    outer_table: &[u8],
    inner_table: &[u8],
    outer: &mut [u64; 8],
    inner: &mut [u64; 8],
    registers: &mut [i64],
    places: &mut [u32],
    program: &mut [u32],
    number: &mut u32,
    count: &mut u64,
)
    ensures { BothPassedOn outer.new inner.new number.new count.new registers.new places.new program.new
        (inner_opens program_of outer_table.now inner_table.now program.old (brought_in outer.old) (stacks_of registers.old places.old)) }
{
    let opened = inner::open_inner(
        host_numbers::brought(outer),
        outer_table,
        inner_table,
        registers,
        places,
        program,
    );
    pass_on(opened, outer, inner, number, count);
}

// Feeds tokens to the inner run, as a list of kinds and one of values.
#[unsafe(no_mangle)]
pub extern "C" fn segment_inner_feed(
    table: &[u8],
    outer: &mut [u64; 8],
    inner: &mut [u64; 8],
    registers: &mut [i64],
    places: &mut [u32],
    program: &mut [u32],
    kinds: &[u8],
    values: &[i32],
    number: &mut u32,
    count: &mut u64,
)
    ensures { BothPassedOn outer.new inner.new number.new count.new registers.new places.new program.new
        (inner_performs program_of table.now program.old (brought_in outer.old) (brought_in inner.old) (stacks_of registers.old places.old) (Inner.engine (feed kinds.now values.now))) }
{
    let fed = inner::feed_inner(
        host_numbers::brought(outer),
        host_numbers::brought(inner),
        table,
        registers,
        places,
        program,
        kinds,
        values,
    );
    pass_on(fed, outer, inner, number, count);
}

// Finishes the inner run's segment: the run ends.
#[unsafe(no_mangle)]
pub extern "C" fn segment_inner_finish(
    table: &[u8],
    outer: &mut [u64; 8],
    inner: &mut [u64; 8],
    registers: &mut [i64],
    places: &mut [u32],
    program: &mut [u32],
    number: &mut u32,
    value: &mut i64,
    count: &mut u64,
)
    ensures { BothPassedOn outer.new inner.new number.new count.new registers.new places.new program.new
        (inner_performs program_of table.now program.old (brought_in outer.old) (brought_in inner.old) (stacks_of registers.old places.old) (Inner.engine finish))
        × (value.new ≡ answer_value (inner_performs program_of table.now program.old (brought_in outer.old) (brought_in inner.old) (stacks_of registers.old places.old) (Inner.engine finish)).answer) }
{
    let ended = inner::finish_inner(
        host_numbers::brought(outer),
        host_numbers::brought(inner),
        table,
        registers,
        places,
        program,
    );
    let answer = ended.answer;
    *value = host_numbers::answer_value(answer);
    pass_on(ended, outer, inner, number, count);
}

// Gives the inner run up: it ends as it stands.
#[unsafe(no_mangle)]
pub extern "C" fn segment_inner_give_up(
    table: &[u8],
    outer: &mut [u64; 8],
    inner: &mut [u64; 8],
    registers: &mut [i64],
    places: &mut [u32],
    program: &mut [u32],
    number: &mut u32,
    count: &mut u64,
)
    ensures { BothPassedOn outer.new inner.new number.new count.new registers.new places.new program.new
        (inner_performs program_of table.now program.old (brought_in outer.old) (brought_in inner.old) (stacks_of registers.old places.old) give_up) }
{
    let given_up = inner::give_up(
        host_numbers::brought(outer),
        host_numbers::brought(inner),
        table,
        registers,
        places,
        program,
    );
    pass_on(given_up, outer, inner, number, count);
}
