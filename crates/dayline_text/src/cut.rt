// Blanks.
ghost use Rattle.std.specs.Prelude.{◌≡◌};
ghost use Rattle.dayline_text.specs.Cuts as cuts;

pub fn is_blank(b: u8) -> bool
    ensures { result ≡ cuts.is_blank b }
{
    matches!(b, b' ' | b'\r' | b'\n')
}
