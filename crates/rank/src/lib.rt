// Ranked suggestions, 02 (b): candidate segments under one table, evaluated and listed, highest value first.
#![tactic(auto)]

ghost use Rattle.std.specs.Prelude.{◌≡◌, true, length};
ghost use Rattle.meaning.specs.Program.{program_of};
ghost use Rattle.meaning.specs.PublicCalls.{stacks_of};
ghost use Rattle.meaning_ranking.specs.RankCall.{in_order_value, rank_of};
ghost use Rattle.run_fit.specs.HasProgram.{Readable};
ghost use Rattle.rank_report.specs.Answers.{rank_is};
ghost use Rattle.rank.specs.Listing.{ListedAs};

use prepare::Made;
use rank_report::Ranked;

pub mod afresh;
pub mod candidates;
pub mod evaluate;

// 38, and the candidates, under a program that is at hand.
fn rank_under(
    registers: &mut [i64],
    places: &mut [u32],
    program: &[u32],
    list: &mut [i64],
    kinds: &[u8],
    values: &[i32],
    lengths: &[u32],
) -> Ranked
    requires { Readable program.now × (in_order_value lengths.now kinds.now list.old ≡ true) }
    ensures { ListedAs program.now lengths.now kinds.now values.now list.old registers.old places.old list.new registers.new places.new result }
{
    if kinds.len() != values.len() {
        return Ranked::Refused {
            number: 38,
            offset: 0,
        };
    }
    crate::candidates::evaluate_all(registers, places, program, list, kinds, values, lengths);
    rank_report::report(list, lengths.len())
}

// Any bytes as a table, any program area, stacks, list, kinds, values and lengths.
pub fn rank(
    table: &[u8],
    registers: &mut [i64],
    places: &mut [u32],
    program: &mut [u32],
    list: &mut [i64],
    kinds: &[u8],
    values: &[i32],
    lengths: &[u32],
) -> Ranked
    ensures { rank_is result list.new registers.new places.new program.new
        ≡ rank_of program_of table.now program.old lengths.now kinds.now values.now list.old (stacks_of registers.old places.old) }
{
    if rank_suits::in_order(lengths, kinds, list) {
        return match prepare::program_of(table, program) {
            Made::Short => Ranked::Refused {
                number: 30,
                offset: 0,
            },
            Made::Refused { number, offset } => Ranked::Refused { number, offset },
            Made::Written(length) => {
                rank_under(registers, places, program, list, kinds, values, lengths)
            }
        };
    }
    Ranked::Refused {
        number: 37,
        offset: 0,
    }
}
