// Two's complement, both ways.
ghost use Rattle.std.specs.Prelude.{◌≡◌};
ghost use Rattle.code.specs.Bytes.{signed, unsigned};

// The number whose two's complement is this byte.
pub fn to_i8(b: u8) -> i8
    ensures { result ≡ signed 256 b }
{
    b.cast_signed()
}

// The number whose two's complement is this word.
pub fn to_i16(w: u16) -> i16
    ensures { result ≡ signed 65536 w }
{
    w.cast_signed()
}

// The byte that is a number's two's complement.
pub fn byte_of(x: i8) -> u8
    ensures { result ≡ unsigned 256 x }
{
    x.cast_unsigned()
}

// The word that is a number's two's complement.
pub fn word_of(x: i16) -> u16
    ensures { result ≡ unsigned 65536 x }
{
    x.cast_unsigned()
}
