// The pieces of a line.
ghost use Rattle.std.specs.Prelude.{◌≡◌, ◌≤◌, length, take, drop, MatchOption};
ghost use Rattle.std.specs.List.{AllByRecursion};
ghost use Rattle.lexis.specs.Tokens.{mark, divider, Plain, Parted, Lexed, start};

// A byte that ends a word.
#[derive(Clone, Copy)]
pub enum Divider {
    Open,
    Close,
    Space,
}

impl Divider {
    pub(crate) fn byte(self) -> u8
        ensures { result ≡ mark self }
    {
        match self {
            Divider::Open => b'(',
            Divider::Close => b')',
            Divider::Space => b' ',
        }
    }

    // The divider that a byte is.
    fn of(b: u8) -> Option<Divider>
        ensures { MatchOption result (Plain b) (λ d. b ≡ mark d) }
    {
        match char::from(b) {
            '(' => Some(Divider::Open),
            ')' => Some(Divider::Close),
            ' ' => Some(Divider::Space),
            _ => None,
        }
    }
}

// A piece of a line, with the column of its first byte; a word borrows its bytes from the line.
#[derive(Clone, Copy)]
pub enum Token<'a> {
    Open(usize),
    Close(usize),
    Space(usize),
    Word(&'a [u8], usize),
    End(usize),
}

fn divides(b: u8) -> bool
    ensures { result ≡ divider b }
{
    Divider::of(b).is_some()
}

// How many bytes stand before the first divider.
fn word_len(line: &[u8]) -> usize
    ensures within { result ≤ length line.now }
    ensures plain { AllByRecursion Plain (take result line.now) }
    ensures parted { Parted (drop result line.now) }
{
    line.iter().position(|b| divides(*b)).unwrap_or(line.len())
}

// The first piece of a line whose first byte is at `column`, and the rest of the line.
pub fn next_token<'a>(line: &'a [u8], column: usize) -> (Token<'a>, &'a [u8])
    ensures cuts { Lexed line.now result.0 result.1.now }
    ensures at { start result.0 ≡ column }
{
    match line {
        [] => (Token::End(column), line),
        [first, after @ ..] => match Divider::of(*first) {
            Some(Divider::Open) => (Token::Open(column), after),
            Some(Divider::Close) => (Token::Close(column), after),
            Some(Divider::Space) => (Token::Space(column), after),
            None => {
                let (word, after) = line.split_at(word_len(line));
                (Token::Word(word, column), after)
            }
        },
    }
}
