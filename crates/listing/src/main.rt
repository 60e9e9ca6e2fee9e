// Prints the listing of the table on standard input page by page, or the line of its refusal.
#![tactic(auto)]

ghost use Rattle.std.specs.Prelude.{◌≤◌, length, IfOk};

use limits::{AREA, TABLE};
use listing_text::Cursor;
use std::io;
use std::io::Read;

// The bytes of a page.
const PAGE: usize = 4096;

// Writes the first bytes of `out`, or fails where not all of them can be written.
fn put(rt: &impl Print, out: &[u8], filled: usize) -> io::Result<()>
    requires { filled ≤ length out.now }
{
    rt.write_all(&out[..filled])
}

// Writes the pages from a cursor on.
fn print_rest(rt: &impl Print, program: &[u32], from: Cursor, out: &mut [u8]) -> io::Result<()>
    requires { 64 ≤ length out.old }
{
    let mut c = from;
    // Kept: page after page, until a page says that it is the last.
    loop {
        let page = listing_pages::next_page(program, c, out);
        put(rt, out, page.length)?;
        if page.over {
            return Ok(());
        }
        c = page.next;
    }
}

// Prints the listing of a table, or the line of its refusal.
fn print(rt: &impl Print, table: &[u8]) -> io::Result<()> {
    let mut program = [0u32; AREA];
    let mut out = [0u8; PAGE];
    let page = listing_first::first_page(table, &mut program, &mut out);
    put(rt, &out, page.length)?;
    if page.over {
        return Ok(());
    }
    print_rest(rt, &program, page.next, &mut out)
}

// Reads until `into` is full or the input ends; answers how many bytes came.
fn read_full(input: &mut impl Read, into: &mut [u8]) -> io::Result<usize>
    ensures { IfOk result (λ n. n ≤ length into.new) }
{
    let mut filled = 0;
    // Kept: the walk goes on by as many bytes as each read gives
    while filled < into.len() {
        let n = input.read(&mut into[filled..])?;
        if n == 0 {
            break;
        }
        filled += n;
    }
    Ok(filled)
}

// One byte more than a table may have: a longer one is refused by its length, whatever follows.
const ROOM: usize = TABLE + 1;

// 01: "The listing program reads a table from standard input and prints".
fn main(rt: HostRuntime) -> io::Result<()> {
    let mut table = [0u8; ROOM];
    let n = read_full(&mut rt.stdin(), &mut table)?;
    print(&rt, &table[..n])
}
