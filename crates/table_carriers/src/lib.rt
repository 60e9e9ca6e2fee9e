// The tag 6 fields: the terminals that carry a value.
#![tactic(auto)]

ghost use Rattle.std.specs.Prelude.{◌≡◌, true, false, ◌+◌, ◌<◌, ◌≤◌, length};
ghost use Rattle.meaning.specs.Limits.{terminals_limit};
ghost use Rattle.meaning.specs.Table.{byte};
ghost use Rattle.refusals.specs.Numbers.{fault_or_zero};
ghost use Rattle.table_carriers.specs.Named.{CarrierJudged, CarriersRead, NoCarrier};

use refusals::TableFault;
use token_set::TokenSet;

// The end of the tag 6 fields, and the set of the terminals that they name.
#[derive(Clone, Copy)]
pub struct Carried {
    pub at: usize,
    pub carrying: TokenSet,
}

// A tag 6 field that is refused: its fault, where it stands, and the terminals that those before it name.
#[derive(Clone, Copy, Debug, PartialEq, Eq)]
pub struct RefusedCarrier {
    pub fault: TableFault,
    pub at: usize,
    pub carrying: TokenSet,
}

// Whether a tag 6 field stands at an offset.
pub fn is_carrier(table: &[u8], at: usize) -> bool
    ensures stands { result ≡ true → (at < length table.now) × (byte table.now at ≡ 6) }
    ensures other { result ≡ false → NoCarrier table.now at }
{
    at < table.len() && table[at] == 6
}

// What is wrong with the tag 6 field at an offset. The terminals from `least` on are above the one before.
#[tactic(auto, using(crate::proofs::Carrying::carrier_cut, crate::proofs::Carrying::carrier_right, table_counts::proofs::Steps::part_body))]
pub fn judge_carrier(
    table: &[u8],
    at: usize,
    terminals: usize,
    least: usize,
) -> Result<(), TableFault>
    requires { (at < length table.now) × (byte table.now at ≡ 6) }
    ensures { CarrierJudged table.now at terminals least (fault_or_zero result) }
{
    let Some(size) = table_fields::size_at(table, at) else {
        return Err(TableFault::CutShort);
    };
    let from = at + 3;
    table_field_faults::carrier_fault(terminals, least, &table[from..from + size])
}

// All tag 6 fields from an offset on.
pub fn read_carriers(table: &[u8], from: usize, terminals: usize) -> Result<Carried, RefusedCarrier>
    requires { (from ≤ length table.now) × (terminals ≤ terminals_limit) }
    ensures { CarriersRead table.now from terminals result }
{
    let mut at = from;
    let mut least = 0;
    let mut carrying = TokenSet::EMPTY;
    // Kept: a test of the field at hand, and no count, ends it.
    while is_carrier(table, at) {
        judge_carrier(table, at, terminals, least).map_err(|fault| RefusedCarrier {
            fault,
            at,
            carrying,
        })?;
        let terminal = table[at + 3];
        carrying = carrying.union(TokenSet::of_token(terminal));
        least = usize::from(terminal) + 1;
        at += 4;
    }
    Ok(Carried { at, carrying })
}
