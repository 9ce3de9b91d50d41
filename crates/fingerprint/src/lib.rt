// 64-bit FNV-1a, and the fingerprint of the opcode table, by which two installations tell whether an opcode means the same
// to both.
#![tactic(auto)]

ghost use Rattle.std.specs.Prelude.{◌≡◌};
ghost use Rattle.op.specs.Names.{name_of};
ghost use Rattle.op.specs.Shapes.{shape_no};
ghost use Rattle.fingerprint.specs.Fnv.{wrapped, mixed, hash_from, fnv1a_of};
ghost use Rattle.fingerprint.specs.Table.{bytes_by, fingerprint};

use op::names::Names;
use op::{opcodes, shapes};

// op.rs, `opcode_fingerprint`.
const OFFSET_BASIS: u64 = 0xcbf2_9ce4_8422_2325;

const PRIME: u64 = 0x0100_0000_01b3;

// The product modulo 2^64.
#[tactic(auto, unfolding(crate::specs::Fnv::wrapped))]
pub fn wrapping_mul(a: u64, b: u64) -> u64
    ensures { result ≡ wrapped a b }
{
    a.wrapping_mul(b)
}

// The hash with one byte more.
#[tactic(auto, unfolding(crate::specs::Fnv::mixed))]
fn mix(hash: u64, byte: u8) -> u64
    ensures { result ≡ mixed hash byte }
{
    wrapping_mul(hash ^ (byte as u64), PRIME)
}

// The hash with more bytes.
#[tactic(auto, using(crate::proofs::Hashing::hash_step, crate::proofs::Hashing::hash_end))]
fn hash_on(hash: u64, bytes: &[u8]) -> u64
    ensures { result ≡ hash_from hash bytes.now }
{
    let mut h = hash;
    for byte in bytes {
        h = mix(h, *byte);
    }
    h
}

// 64-bit FNV-1a of any bytes.
#[tactic(auto, unfolding(crate::specs::Fnv::fnv1a_of))]
pub fn fnv1a(bytes: &[u8]) -> u64
    ensures { result ≡ fnv1a_of bytes.now }
{
    hash_on(OFFSET_BASIS, bytes)
}

// The hash with what the table has of an opcode: its byte, its name, a zero byte, its shape's number.
#[tactic(auto, using(crate::proofs::Tabled::hash_parts))]
fn opcode_on(hash: u64, opcode: u8, names: &Names) -> u64
    ensures { result ≡ hash_from hash (bytes_by opcode (name_of opcode) (shape_no opcode)) }
{
    let named = hash_on(mix(hash, opcode), names.of(opcode));
    mix(mix(named, 0), shapes::shape_number(opcode))
}

// The fingerprint of the opcode table: op.rs, `opcode_fingerprint`.
pub fn opcode_fingerprint() -> u64
    ensures { result ≡ fingerprint }
{
    let names = Names::new();
    let mut hash = OFFSET_BASIS;
    for opcode in 0..=opcodes::LAST {
        hash = opcode_on(hash, opcode, &names);
    }
    hash
}
