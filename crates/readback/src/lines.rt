// The lines behind the header, one by one.
ghost use Rattle.std.specs.Prelude.{◌≡◌, ◌≤◌, length};
ghost use Rattle.readback.specs.Inner.{Cells};
ghost use Rattle.readback.specs.Lined.{Fills};

use crate::naming::Naming;
use crate::{BadLine, fields, line, numbers};
use op::Refusal;

// Line 1 is the header.
const FIRST: usize = 2;

// The bytes of all lines at the front of `out`, or the first bad line.
fn fill(body: &[u8], out: &mut [u8], cells: &mut [u16], names: &Naming) -> Result<usize, BadLine>
    requires { (length out.old ≤ 65536) × Cells cells.old }
    ensures { Fills body.now out.old result out.new }
{
    // The place in the text is counted, since the library has no iterator over the parts of a slice.
    let mut from = 0;
    let mut number = FIRST;
    let mut at = 0;
    while from < body.len() {
        let rest = &body[from..];
        let end = fields::cut(rest, b'\n');
        if rest.len() <= end {
            return Err(BadLine {
                refusal: Refusal::NotALine,
                line: number,
            });
        }
        let answer = line::read(&rest[..end], at, &mut out[at..], cells, names);
        match answer {
            Err(refusal) => {
                return Err(BadLine {
                    refusal,
                    line: number,
                });
            }
            Ok(size) => at += size,
        }
        from = from + end + 1;
        number += 1;
    }
    Ok(at)
}

// The same, with the tables of the names and the cells for numbers made once.
pub fn read(body: &[u8], out: &mut [u8]) -> Result<usize, BadLine>
    requires { length out.old ≤ 65536 }
    ensures { Fills body.now out.old result out.new }
{
    let names = Naming::new();
    let mut cells = [0u16; numbers::MOST];
    fill(body, out, &mut cells, &names)
}
