// The plan of a table: the offsets of its fields in house order, from the first production on.
#![tactic(auto)]

ghost use Rattle.std.specs.Prelude.{◌+◌, ◌-◌, ◌<◌, ◌≤◌, length, take};
ghost use Rattle.house_sort.specs.arrange.Promises.{Room};
ghost use Rattle.house_plan.specs.Plans.{GathersBehind, ProductionRoom, ProductionPlanned, TableRoom, TablePlanned};

// The fields with a tag, in the order of their keys, behind the first n offsets of the plan. Answers how many there are then.
fn gather_behind(
    table: &[u8],
    body: usize,
    tag: u32,
    width: usize,
    plan: &mut [u32],
    n: usize,
) -> usize
    requires { (length table.now < 4294967296) × (width ≤ 11) × (n ≤ length plan.old) × Room table.now body tag (length plan.old - n) × (length plan.old ≤ 1664) }
    ensures { GathersBehind table.now body tag width plan.old n plan.new result }
{
    let found = house_sort::arrange::gather(table, body, tag, width, &mut plan[n..]);
    n + found
}

// One production behind the first n offsets of the plan: its own field, its rules, its conditions. Answers how many there are then.
fn plan_production(table: &[u8], from: usize, plan: &mut [u32], n: usize) -> usize
    requires { (length table.now < 4294967296) × (from < 4294967296) × ProductionRoom table.now from n (length plan.old) × (length plan.old ≤ 1664) }
    ensures { ProductionPlanned table.now from plan.old n plan.new result }
{
    let body = house_sort::keys::end_of(table, from);
    plan[n] = from as u32;
    let rules = gather_behind(table, body, 4, 2, plan, n + 1);
    gather_behind(table, body, 5, 11, plan, rules)
}

// The plan of the productions at the first `count` offsets. Answers its length.
pub fn plan_table(table: &[u8], offsets: &[u32], count: usize, plan: &mut [u32]) -> usize
    requires { (length table.now < 4294967296) × (count ≤ length offsets.now) × TableRoom table.now (take count offsets.now) (length plan.old) × (length plan.old ≤ 1664) }
    ensures { TablePlanned table.now (take count offsets.now) plan.new result }
{
    let mut n = 0;
    for from in &offsets[..count] {
        n = plan_production(table, *from as usize, plan, n);
    }
    n
}
