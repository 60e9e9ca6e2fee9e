// The listing of a table, a page of whole lines at a time into a lent buffer.
#![tactic(auto)]

ghost use Rattle.std.specs.Prelude.{◌≤◌, [], ◌∷◌, length};
ghost use Rattle.meaning.specs.Listing.{refusal_line};
ghost use Rattle.listing_text.specs.Cursors.{lines_left};
ghost use Rattle.listing_pages.specs.Pages.{Shows, Onward};

use limits::LINE;
use listing_text::Cursor;

#[derive(Clone, Copy)]
pub struct Page {
    // how many bytes the page has
    pub length: usize,
    // whether no line is left
    pub over: bool,
    // where the listing stands behind it
    pub next: Cursor,
}

// As many of the lines still to come as there is room for: each has at most 64 bytes, so another one is asked for while as many are left.
pub fn next_page(program: &[u32], cursor: Cursor, out: &mut [u8]) -> Page
    requires { 64 ≤ length out.old }
    ensures shows { Shows (lines_left program.now cursor) program.now out.old out.new result }
    ensures onward { Onward program.now cursor result }
{
    let mut c = cursor;
    let mut filled = 0;
    // Kept: the walk goes on by each line's length, not by one
    while filled <= out.len() - LINE {
        let Some(line) = listing_text::next_line(program, c, &mut out[filled..]) else {
            return Page {
                length: filled,
                over: true,
                next: c,
            };
        };
        filled += line.length;
        c = line.next;
    }
    let mut aside = [0u8; LINE];
    let over = listing_text::next_line(program, c, &mut aside).is_none();
    Page {
        length: filled,
        over,
        next: c,
    }
}

// A refusal's line is the only one.
pub fn refusal(program: &[u32], number: u32, offset: u32, out: &mut [u8]) -> Page
    requires { 64 ≤ length out.old }
    ensures { Shows (refusal_line number offset ∷ []) program.now out.old out.new result }
{
    let length = listing_lines::refusal_line(out, number, offset);
    let next = listing_text::first(program);
    Page {
        length,
        over: true,
        next,
    }
}
