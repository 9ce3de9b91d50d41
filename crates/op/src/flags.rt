// The flags of Assert and AssertFailed.
ghost use Rattle.std.specs.Prelude.{◌≡◌, ◌<◌};
ghost use Rattle.op.specs.Flags.{Compares, comparison_number, flags_of, decoded_flags};

use crate::CmpOperator;

// A number that is no comparison's.
#[derive(Clone, Copy, Debug, PartialEq, Eq)]
pub struct NoComparison(pub u8);

impl TryFrom<u8> for CmpOperator {
    type Error = NoComparison;

    ghost try_from_gives = { Compares };

    fn try_from(number: u8) -> Result<Self, NoComparison> {
        match number {
            0 => Ok(CmpOperator::Eq),
            1 => Ok(CmpOperator::NotEq),
            2 => Ok(CmpOperator::Lt),
            3 => Ok(CmpOperator::LtE),
            4 => Ok(CmpOperator::Gt),
            5 => Ok(CmpOperator::GtE),
            6 => Ok(CmpOperator::Is),
            7 => Ok(CmpOperator::IsNot),
            8 => Ok(CmpOperator::In),
            9 => Ok(CmpOperator::NotIn),
            _ => Err(NoComparison(number)),
        }
    }
}

// The number of a comparison, 0 to 9.
pub fn as_operand(operator: CmpOperator) -> u8
    ensures { (result ≡ comparison_number operator) × (result < 10) }
{
    operator as u8
}

// The flags byte of an assert that compares so.
pub fn assert_flags(compared: Option<CmpOperator>) -> u8
    ensures { result ≡ flags_of compared }
{
    match compared {
        None => 0,
        Some(operator) => 0x10 + as_operand(operator),
    }
}

// What a flags byte means: `Some(None)` is an assert that compares nothing.
pub fn decode_assert_flags(flags: u8) -> Option<Option<CmpOperator>>
    ensures { result ≡ decoded_flags flags }
{
    if flags == 0 {
        return Some(None);
    }
    let number = flags.checked_sub(0x10)?;
    let Ok(operator) = CmpOperator::try_from(number) else {
        return None;
    };
    Some(Some(operator))
}
