// A listing typed back in: the code whose listing a text is.
#![tactic(auto)]

ghost use Rattle.std.specs.Prelude.{◌≡◌, length, take};
ghost use Rattle.text.specs.Listing.{header};
ghost use Rattle.text.specs.Reading.{same as same_text};
ghost use Rattle.readback.specs.Lined.{stored_in};
ghost use Rattle.readback.specs.Promise.{Reads};

use op::Refusal;
use text::put;

mod fields;
mod line;
mod lines;
mod naming;
mod numbers;
mod operands;
mod placing;

// The most bytes that are listed.
const MOST: usize = 65536;

const HEADER: [u8; 28] = *b"offset\tname\toperands\ttarget\n";

// The first bad line of a text, counted from 1, and why it is one: 24, 25 or 18.
#[derive(Clone, Copy)]
pub struct BadLine {
    pub refusal: Refusal,
    pub line: usize,
}

// Room for the bytes until all lines are read, so that a refusal leaves the lent code as it was.
fn space() -> [u8; 65536]
    ensures { length result ≡ 65536 }
{
    [0u8; 65536]
}

// Whether a text begins with a listing's header.
fn headed(text: &[u8]) -> bool
    ensures { result ≡ same_text (take (length header) text.now) header }
{
    text.starts_with(&HEADER)
}

// How many bytes an answer stores: none after a refusal.
fn stored(answer: Result<usize, BadLine>) -> usize
    ensures { result ≡ stored_in answer }
{
    answer.unwrap_or(0)
}

// Reads a listing's text and stores its code at the front of the lent slice: 24 a line that is not formed as a listing
// forms one, 25 an offset or a target that disagrees, 18 no room in the slice or in 65,536 bytes, each with its line. A
// refusal changes no cell, and no cell behind the code is ever changed.
pub fn read_listing(text: &[u8], code: &mut [u8]) -> Result<usize, BadLine>
    ensures { Reads text.now code.old result code.new }
{
    if !headed(text) {
        return Err(BadLine {
            refusal: Refusal::NotALine,
            line: 1,
        });
    }
    let mut bytes = space();
    let room = code.len().min(MOST);
    let answer = lines::read(&text[28..], &mut bytes[..room]);
    let size = stored(answer);
    let _ = put::bytes(&bytes[..size], code, 0);
    answer
}
