// Lists the code on standard input (R55, R56): reads it, makes its listing part by part (`text::listing::list`), and
// writes each part.
#![tactic(auto)]

ghost use Rattle.std.specs.Prelude.{◌≡◌, List, [], ◌≤◌, length, take, IfSome};
ghost use Rattle.text.specs.Lines.{plain_lines};
ghost use Rattle.listing.specs.Printing.{Turns};

use std::io::Read;
use text::{Part, listing};

// One byte more than is listed, so that longer input is seen.
fn input() -> [u8; 65537]
    ensures { 65537 ≡ length result }
{
    [0; 65537]
}

// Room for a part.
fn room() -> [u8; 65536]
    ensures { 65536 ≡ length result }
{
    [0; 65536]
}

// Reads until the text is full, the input ends or a read fails: how many bytes stand at its front.
fn read_full(from: &mut impl Read, bytes: &mut [u8]) -> usize
    ensures { result ≤ length bytes.new }
{
    let mut done = 0;
    while done < bytes.len() {
        let Ok(n) = from.read(&mut bytes[done..]) else {
            break;
        };
        if n == 0 {
            break;
        }
        done += n;
    }
    done
}

// The next part, at the front of the text, and written from there. There is none where the output is closed.
fn turn(rt: &impl Print, code: &[u8], from: usize, out: &mut [u8]) -> Option<Part>
    ensures { IfSome result (λ part. Turns code.now from part out.new) }
{
    let part = listing::list(code, from, out).ok()?;
    rt.write_all(&out[..part.length]).ok()?;
    Some(part)
}

// The listing of the first `size` bytes: the cursor behind its last line. A closed output is the end.
fn print(rt: &impl Print, bytes: &[u8], size: usize, out: &mut [u8]) -> Option<usize>
    requires { size ≤ length bytes.now }
    ensures { IfSome result (λ next. plain_lines (take size bytes.now) next ≡ []) }
{
    let code = &bytes[..size];
    let mut next = 0;
    loop {
        let part = turn(rt, code, next, out)?;
        next = part.next;
        if part.length == 0 {
            return Some(next);
        }
    }
}

fn main(rt: HostRuntime) {
    let mut bytes = input();
    let size = read_full(&mut rt.stdin(), &mut bytes);
    let mut out = room();
    let _ = print(&rt, &bytes, size, &mut out);
}
