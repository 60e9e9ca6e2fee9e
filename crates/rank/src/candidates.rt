// The candidates of 02 (b), one after the other: "evaluate each in turn on stacks opened afresh", and an entry for each.
ghost use Rattle.std.specs.Prelude.{◌+◌, ◌*◌, ◌≤◌, ◌≡◌, length};
ghost use Rattle.meaning.specs.Base.{total};
ghost use Rattle.run_fit.specs.HasProgram.{Readable};
ghost use Rattle.rank.specs.candidates.Each.{AllDone};

// The entries in candidate order. Before the first candidate nothing is known of the lent cells, after each they are clear above its heights.
pub fn evaluate_all(
    registers: &mut [i64],
    places: &mut [u32],
    program: &[u32],
    list: &mut [i64],
    kinds: &[u8],
    values: &[i32],
    lengths: &[u32],
)
    requires { Readable program.now × (length kinds.now ≡ length values.now) × (total lengths.now ≡ length kinds.now) × (3 * length lengths.now ≤ length list.old) }
    ensures { AllDone program.now lengths.now kinds.now values.now list.old registers.old places.old list.new registers.new places.new }
{
    let mut a = run_cells::smaller(registers.len(), limits::REGISTERS);
    let mut b = run_cells::smaller(places.len(), limits::PLACES);
    let mut at = 0;
    for i in 0..lengths.len() {
        let end = at + run_moves::word_at(lengths, i);
        let done = crate::evaluate::evaluate(
            registers,
            places,
            program,
            a,
            b,
            &kinds[at..end],
            &values[at..end],
        );
        rank_report::entries::put(list, i, done.answer);
        a = done.registers;
        b = done.places;
        at = end;
    }
}
