// Letters of a source: `is_capital` and `is_small` of source's specs/Cells.antt.
ghost use Rattle.std.specs.Prelude.{◌≡◌};
ghost use Rattle.source.specs.Cells.{is_capital, is_small};

pub fn is_capital(b: u8) -> bool
    ensures { result ≡ is_capital b }
{
    b.is_ascii_uppercase()
}

pub fn is_small(b: u8) -> bool
    ensures { result ≡ is_small b }
{
    b.is_ascii_lowercase()
}
