// The refusals as numbers.
ghost use Rattle.std.specs.Prelude.{◌%◌, ◌≡◌};
ghost use Rattle.op.specs.Refusals.{answer_of, half, named_of, number_of, table_number};

use crate::{Refusal, Table};

// The number of a refusal (R27).
pub fn number(refusal: Refusal) -> u8
    ensures { result ≡ number_of refusal }
{
    match refusal {
        Refusal::UnknownOpcode => 1,
        Refusal::UnknownOpcodeAt(_) => 1,
        Refusal::WrongShape => 2,
        Refusal::NotAJump => 3,
        Refusal::DepthBelowZero => 4,
        Refusal::DepthTooLarge => 5,
        Refusal::JumpTooFar => 6,
        Refusal::TooManyKeywords => 7,
        Refusal::NameTooLarge => 8,
        Refusal::TooManyConstants => 9,
        Refusal::TooLarge => 10,
        Refusal::DepthsDiffer => 11,
        Refusal::DeadTarget => 12,
        Refusal::NoSuchMark => 13,
        Refusal::AlreadyPatched => 14,
        Refusal::RegionWhileLive => 15,
        Refusal::NamesHeld => 16,
        Refusal::OpenLabel => 17,
        Refusal::Full(_) => 18,
        Refusal::Unsound => 19,
        Refusal::BadStarts => 20,
        Refusal::ShortDepths => 21,
        Refusal::CutShort(_) => 22,
        Refusal::NoDepths => 23,
        Refusal::NotALine => 24,
        Refusal::Disagrees => 25,
        Refusal::TooFewValues(_) => 26,
    }
}

// A table's number.
fn table_number(table: Table) -> u32
    ensures { result ≡ table_number table }
{
    table as u32 + 1
}

// An offset's lower half.
fn low(offset: usize) -> u32
    ensures { result ≡ offset % half }
{
    (offset % 0x1_0000_0000) as u32
}

// What a refusal names: 18 its table, by number, a refusal read from code its offset, any other nothing, 0.
pub fn named(refusal: Refusal) -> u32
    ensures { result ≡ named_of refusal }
{
    match refusal {
        Refusal::UnknownOpcode => 0,
        Refusal::UnknownOpcodeAt(offset) => low(offset),
        Refusal::WrongShape => 0,
        Refusal::NotAJump => 0,
        Refusal::DepthBelowZero => 0,
        Refusal::DepthTooLarge => 0,
        Refusal::JumpTooFar => 0,
        Refusal::TooManyKeywords => 0,
        Refusal::NameTooLarge => 0,
        Refusal::TooManyConstants => 0,
        Refusal::TooLarge => 0,
        Refusal::DepthsDiffer => 0,
        Refusal::DeadTarget => 0,
        Refusal::NoSuchMark => 0,
        Refusal::AlreadyPatched => 0,
        Refusal::RegionWhileLive => 0,
        Refusal::NamesHeld => 0,
        Refusal::OpenLabel => 0,
        Refusal::Full(table) => table_number(table),
        Refusal::Unsound => 0,
        Refusal::BadStarts => 0,
        Refusal::ShortDepths => 0,
        Refusal::CutShort(offset) => low(offset),
        Refusal::NoDepths => 0,
        Refusal::NotALine => 0,
        Refusal::Disagrees => 0,
        Refusal::TooFewValues(offset) => low(offset),
    }
}

// A refusal as one answer: its number in the upper half, what it names in the lower.
pub fn answer(refusal: Refusal) -> u64
    ensures { result ≡ answer_of refusal }
{
    number(refusal) as u64 * 0x1_0000_0000 + named(refusal) as u64
}
