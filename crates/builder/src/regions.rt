// What `new` and `new_code_region` share: the state and the row of a start.
ghost use Rattle.std.specs.Prelude.{◌≡◌, ◌≤◌};
ghost use Rattle.code.specs.Tables.{code_limit};
ghost use Rattle.builder.specs.State.{kept};
ghost use Rattle.builder.specs.Regions.{fresh_at, region_at};

use crate::{Builder, Core, tables};
use code::START_CELLS;
use op::{Refusal, Table};

// A builder with nothing in it but so many starts.
pub fn fresh_at(depth: Option<u16>, starts: usize) -> Builder
    ensures { result ≡ fresh_at depth starts }
{
    let core = Core {
        code: 0,
        locations: 0,
        marks: 0,
        depth,
    };
    Builder {
        core,
        location: None,
        exceptions: 0,
        constants: 0,
        names: 0,
        starts,
    }
}

// A start at the used end.
pub fn store_start(b: Builder, d: u16, starts: &mut [u32]) -> Result<Builder, Refusal>
    requires { b.core.code ≤ code_limit }
    ensures { kept result starts.new ≡ region_at None b d starts.old }
{
    let core = b.core;
    let row = b.starts;
    if starts.len() / START_CELLS <= row {
        return Err(Refusal::Full(Table::Starts));
    }
    let base = row * START_CELLS;
    let at = core.code;
    tables::put(&mut starts[base..], &[at as u32, d as u32]);
    let live = Core {
        depth: Some(d),
        ..core
    };
    Ok(Builder {
        core: live,
        starts: row + 1,
        ..b
    })
}
