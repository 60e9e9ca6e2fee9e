// The first page of the listing of a table, whose program is written before.
#![tactic(auto)]

ghost use Rattle.std.specs.Prelude.{◌≤◌, ◌≡◌, length};
ghost use Rattle.meaning.specs.PublicCalls.{area_length, made_of};
ghost use Rattle.listing_pages.specs.Pages.{Shows, lines_of};

use listing_pages::Page;
use prepare::Made;

// The first page of what is printed for a table; its program comes into the lent area.
pub fn first_page(table: &[u8], program: &mut [u32], out: &mut [u8]) -> Page
    requires { (area_length ≤ length program.old) × (64 ≤ length out.old) }
    ensures shows { Shows (lines_of table.now) program.new out.old out.new result }
    ensures area { program.new ≡ (made_of table.now program.old).area }
{
    match prepare::program_of(table, program) {
        Made::Short => listing_pages::refusal(program, 30, 0, out),
        Made::Refused { number, offset } => listing_pages::refusal(program, number, offset, out),
        Made::Written(_) => listing_pages::next_page(program, listing_text::first(program), out),
    }
}
