// The names of local slots, and numbers of names as they stand in operands.
ghost use Rattle.std.specs.Prelude.{◌≤◌, ◌<◌, ℕ, ◌%◌, length, map, ◌≡◌};
ghost use Rattle.builder.specs.Names.{name_cell, named, extension};
ghost use Rattle.code.specs.Bytes.{front};

// A name's cell.
fn name_cell(name: u32) -> u64
    ensures { result ≡ name_cell name }
{
    name as u64 + 1
}

// The cells of names at the front.
pub fn fill_names(out: &mut [u64], names: &[u32])
    requires { length names.now ≤ length out.old }
    ensures { out.new ≡ front (map name_cell names.now) out.old }
{
    for (i, name) in names.iter().enumerate() {
        out[i] = name_cell(*name);
    }
}

// A cell that holds a name keeps it.
pub fn named_cell(cell: u64, name: u32) -> u64
    ensures { result ≡ named cell name }
{
    if cell == 0 {
        return name_cell(name);
    }
    cell
}

// So many absent slots and a name at the front.
pub fn extend(out: &mut [u64], absent: usize, name: u32)
    requires { absent < length out.old }
    ensures { out.new ≡ front (extension absent name) out.old }
{
    out[..absent].fill(0);
    out[absent] = name_cell(name);
}

// Fills the cells that hold no name.
pub fn fill_absent(cells: &mut [u64], name: u32)
    ensures { cells.new ≡ map (λ (cell : ℕ). named cell name) cells.old }
{
    for cell in cells {
        *cell = named_cell(*cell, name);
    }
}

// A count as a byte. Over 255 it does not matter: live, 7 comes first, and dead code holds no count.
pub fn count_byte(n: usize) -> u8
    ensures { result ≡ n % 256 }
{
    (n % 256) as u8
}

// A name as a word. Over 65,535 it does not matter: 8 comes first.
pub fn name_word(name: u32) -> u16
    ensures { result ≡ name % 65536 }
{
    (name % 65536) as u16
}
