// One token: names, and the choice between the kinds of token.
ghost use Rattle.std.specs.Prelude.{◌≡◌, ◌<◌, ◌+◌, length, get_or, drop};
ghost use Rattle.source.specs.Tokens.{in_name, run, lexeme};
ghost use Rattle.tokens_fixed.specs.Answers.{Is};

use source::Refusal;
use token_number::letters::is_capital;
use tokens_constant::{decimal_from, quoted_from};
use tokens_fixed::{One, keyword_at, sign_at};

fn in_name(c: u8) -> bool
    ensures { result ≡ in_name c }
{
    is_capital(c) || c.is_ascii_digit()
}

// How many of "the letters and digits after it" stand in front.
fn name_length(cells: &[u8]) -> usize
    ensures { result ≡ length (run in_name cells.now) }
{
    cells.iter().take_while(|c| in_name(**c)).count()
}

// The token at a place.
pub fn one_at(cells: &[u8], at: usize) -> Result<One, Refusal>
    requires { at < length cells.now }
    ensures { Is cells.now at result (lexeme (get_or cells.now at 0) (drop (at + 1) cells.now)) }
{
    let c = cells[at];
    match c {
        b'a'..=b'z' => keyword_at(cells, at),
        b'A'..=b'Z' => Ok(One::Name(at + 1 + name_length(&cells[at + 1..]))),
        b'0'..=b'9' => decimal_from(cells, at + 1, c - b'0'),
        b'\'' => quoted_from(cells, at + 1),
        _ => Ok(sign_at(cells, at, c)),
    }
}
