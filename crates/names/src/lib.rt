// The names of a program, looked up and declared.
#![tactic(auto)]

ghost use Rattle.std.specs.Prelude.{◌≡◌, min, [], ◌∷◌, length};
ghost use Rattle.base.specs.Text.{bytes};
ghost use Rattle.source.specs.Program.{same_name, names_in};
ghost use Rattle.source.specs.Memory.{lexeme_of, lexemes_from};
ghost use Rattle.names.specs.declared.Failure.{Failure};
ghost use Rattle.names.specs.Answers.{LooksUp, Declares};
ghost use Rattle.names.specs.Internal.{FindsAny, Sees};

use base::{at, part};
use grammar_look::Tokens;
use name_index::{Names, Unfit, add, compare, find};
use source::MOST_CELLS;

// Why names are not declared: one of them cannot be, or there is no room for it.
#[derive(Clone, Copy)]
pub enum Failure {
    Refused,
    Unfit,
}

impl From<Unfit> for Failure {
    ghost from_gives = { λ _ e. e ≡ Failure.Unfit };

    fn from(_e: Unfit) -> Failure {
        Failure::Unfit
    }
}

// SEND is told apart beside the names that are declared.
fn is_send(name: &[u8]) -> bool
    ensures { result ≡ same_name (bytes "SEND") name.now }
{
    compare(name, b"SEND").is_eq()
}

// The word of any name: 1 for SEND, 0 where it is unknown.
fn word_of(letters: &[u8], index: &[u32], v: u32, name: &[u8]) -> u32
    ensures { FindsAny name.now v letters.now index.now result }
{
    if is_send(name) {
        return 1;
    }
    find(letters, index, v, name).word
}

// What a token carries once its name is looked up. A name carries its first cell's place, times MOST_CELLS, and its length.
fn seen(cells: &[u8], kind: u8, value: u32, letters: &[u8], index: &[u32], v: u32) -> u32
    ensures { Sees (lexeme_of cells.now kind value) kind v letters.now index.now result }
{
    if kind != 0 {
        return value;
    }
    let name = part(
        cells,
        value as usize / MOST_CELLS,
        value as usize % MOST_CELLS,
    );
    word_of(letters, index, v, name)
}

// Looks the names of tokens up: `words` becomes what they carry then, of as many tokens as it has places. Free is what it
// holds behind them.
pub fn look_up(
    cells: &[u8],
    tokens: &Tokens<'_>,
    letters: &[u8],
    index: &[u32],
    v: u32,
    words: &mut [u32],
)
    ensures seen { LooksUp (min tokens.now.count (length words.old)) cells.now tokens.now.kinds.now tokens.now.values.now v letters.now index.now words.new }
    ensures kept { length words.new ≡ length words.old }
{
    for i in 0..tokens.count.min(words.len()) {
        let kind = at(tokens.kinds, i, 0);
        let value = at(tokens.values, i, 0);
        words[i] = seen(cells, kind, value, letters, index, v);
    }
}

// Declares the name that a token is, if it is one, behind others.
fn declare_one(
    cells: &[u8],
    kind: u8,
    value: u32,
    letters: &mut [u8],
    index: &mut [u32],
    others: Names,
) -> Result<Names, Failure>
    ensures { Declares (names_in (lexeme_of cells.now kind value ∷ [])) others.count others.letters letters.old index.old result letters.new index.new }
{
    if kind != 0 {
        return Ok(others);
    }
    let name = part(
        cells,
        value as usize / MOST_CELLS,
        value as usize % MOST_CELLS,
    );
    if is_send(name) {
        return Err(Failure::Refused);
    }
    let found = find(letters, index, others.count, name);
    if found.word != 0 {
        return Err(Failure::Refused);
    }
    Ok(add(letters, index, others, found.place, name)?)
}

// Declares the names among tokens behind others. Free is what the arrays hold behind the names that there are then, and all that
// they hold where they are not declared.
pub fn declare(
    cells: &[u8],
    tokens: &Tokens<'_>,
    letters: &mut [u8],
    index: &mut [u32],
    others: Names,
) -> Result<Names, Failure>
    ensures { Declares (names_in (lexemes_from 0 tokens.now.count cells.now tokens.now.kinds.now tokens.now.values.now)) others.count others.letters letters.old index.old result letters.new index.new }
{
    let mut names = others;
    for i in 0..tokens.count {
        let kind = at(tokens.kinds, i, 0);
        let value = at(tokens.values, i, 0);
        names = declare_one(cells, kind, value, letters, index, names)?;
    }
    Ok(names)
}
