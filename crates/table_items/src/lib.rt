// The tag 4 and tag 5 fields of one production, with the note of the occurrences set.
#![tactic(auto)]

ghost use Rattle.std.specs.Prelude.{◌≡◌, true, false, ◌+◌, ◌<◌, ◌≤◌, length, IfOk};
ghost use Rattle.refusals.specs.Numbers.{fault_or_zero};
ghost use Rattle.meaning.specs.Table.{byte};
ghost use Rattle.table_fields.specs.Field.{length_at};
ghost use Rattle.table_rules.specs.Rule.{Small};
ghost use Rattle.table_items.specs.Progress.{Over, setting_of, ItemTaken, ItemsReadFrom, ItemRead, Next, end_of, place_of};

use limits::POSITIONS;
use refusals::TableFault;
use table_fields::Refused;
use table_rule_fields::conditions::condition_fault;
use table_rule_fields::take_rule;

// Where the rules and conditions of a table that were read end, and how many they are.
#[derive(Clone, Copy, Debug, PartialEq, Eq)]
pub struct Items {
    pub at: usize,
    pub rules: usize,
    pub conditions: usize,
}

// Whether the table is over or a tag byte 3 follows.
fn is_over(table: &[u8], at: usize) -> bool
    requires { at ≤ length table.now }
    ensures over { result ≡ true → Over table.now at }
    ensures more { result ≡ false → (at < length table.now) × (byte table.now at ≡ 3 → ⊥) }
{
    table.len() <= at || table[at] == 3
}

// Takes the rule or condition behind what was read before and tells where it ends, or its fault; what a rule sets is noted.
#[tactic(auto, using(crate::proofs::Walking::use_cut, crate::proofs::Walking::use_other))]
pub fn take_item(
    table: &[u8],
    done: Items,
    width: usize,
    inh: &[u8; POSITIONS],
    syn: &[u8; POSITIONS],
    note: &mut [u8; POSITIONS],
) -> Result<usize, TableFault>
    requires { (done.at < length table.now) × (byte table.now done.at ≡ 3 → ⊥) × Small width inh.now syn.now }
    ensures taken { ItemTaken table.now done.at (length_at table.now done.at) done.rules done.conditions width inh.now syn.now note.old note.new (fault_or_zero result) }
    ensures end { IfOk result (λ end. end ≡ done.at + 3 + length_at table.now done.at) }
{
    let Some(size) = table_fields::size_at(table, done.at) else {
        return Err(TableFault::CutShort);
    };
    let from = done.at + 3;
    let end = from + size;
    let body = &table[from..end];
    match table[done.at] {
        4 => take_rule(done.rules, width, inh, syn, note, body).and(Ok(end)),
        5 => condition_fault(done.conditions, width, inh, syn, body).and(Ok(end)),
        _ => Err(TableFault::OutOfOrder),
    }
}

// The rule or condition behind what was read before, which is now read too, or refused.
fn read_item(
    table: &[u8],
    done: Items,
    width: usize,
    inh: &[u8; POSITIONS],
    syn: &[u8; POSITIONS],
    note: &mut [u8; POSITIONS],
) -> Result<Items, Refused>
    requires { (done.at < length table.now) × (byte table.now done.at ≡ 3 → ⊥) × Small width inh.now syn.now × (done.rules ≤ done.at) × (done.conditions ≤ done.at) }
    ensures { ItemRead table.now done width inh.now syn.now note.old note.new result }
{
    let at = take_item(table, done, width, inh, syn, note).map_err(|fault| Refused {
        fault,
        at: done.at,
    })?;
    if table[done.at] == 4 {
        let rules = done.rules + 1;
        Ok(Items { at, rules, ..done })
    } else {
        let conditions = done.conditions + 1;
        Ok(Items {
            at,
            conditions,
            ..done
        })
    }
}

// The end of a production: 8 at its offset where it has a gap.
fn finish(gap: bool, offset: usize, done: Items) -> Result<Items, Refused>
    ensures { result ≡ end_of gap offset done.at done.rules done.conditions }
{
    if gap {
        Err(Refused {
            fault: TableFault::NotOneRule,
            at: offset,
        })
    } else {
        Ok(done)
    }
}

// The rules and conditions of the production at an offset, whose counts stand at their positions, from one of its fields on, with the note of
// those before.
pub fn read_items(
    table: &[u8],
    before: Items,
    offset: usize,
    width: usize,
    inh: &[u8; POSITIONS],
    syn: &[u8; POSITIONS],
    note: &mut [u8; POSITIONS],
) -> Result<Items, Refused>
    requires { Small width inh.now syn.now × (before.at ≤ length table.now) × (offset ≤ length table.now) × (before.rules ≤ before.at) × (before.conditions ≤ before.at) }
    ensures read { ItemsReadFrom (setting_of table.now offset width inh.now syn.now) note.old before.at before.rules before.conditions result }
    ensures next { IfOk result (λ u. Next table.now before.at u) }
    ensures inside { place_of result ≤ length table.now }
{
    let mut done = before;
    // Kept: each step is as long as the field that it reads, so no range has these offsets.
    while !is_over(table, done.at) {
        done = read_item(table, done, width, inh, syn, note)?;
    }
    let gap = table_rule_fields::note::has_gap(width, inh, syn, note);
    finish(gap, offset, done)
}
