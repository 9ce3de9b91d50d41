// Texts in parts, and texts that are the same.
ghost use Rattle.std.specs.Prelude.{◌≡◌};
ghost use Rattle.text.specs.Reading.{same as same_text};
ghost use Rattle.text.specs.Row.{dash};
ghost use Rattle.readback.specs.Inner.{cut_at};

// The place of the first `b` in a text, or the text's length.
pub fn cut(t: &[u8], b: u8) -> usize
    ensures { result ≡ cut_at b t.now }
{
    t.iter().position(|c| *c == b).unwrap_or(t.len())
}

// Whether two texts are the same.
pub fn same(s: &[u8], t: &[u8]) -> bool
    ensures { result ≡ same_text s.now t.now }
{
    s == t
}

// Whether a field is `-`.
pub fn is_dash(t: &[u8]) -> bool
    ensures { result ≡ same_text t.now dash }
{
    same(t, b"-")
}
