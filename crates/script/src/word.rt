// The lines and words of a script. Each is a part of the input itself.
ghost use Rattle.std.specs.Prelude.{◌≡◌};
ghost use Rattle.std.specs.Option.{option_map};
ghost use Rattle.script.specs.Words.{both_now, cut_at, line_of, piece_of, made_of, is_name, is_dash, token, token_of, token_value, number_value};

// A word of a line, with its bytes: a script may hold any, so its lines and words are cut as bytes and no text.
#[derive(Clone, Copy, PartialEq, Eq, Debug)]
pub enum Word<'a> {
    // One or more lowercase letters.
    Name(&'a [u8]),
    // One or more digits.
    Number(&'a [u8]),
    // Exactly `-`, which stands for no value.
    Dash(&'a [u8]),
}

// The bytes before the first `mark` and those after it.
fn cut_at(bytes: &[u8], mark: u8) -> Option<(&[u8], &[u8])>
    ensures { option_map both_now result ≡ cut_at mark bytes.now }
{
    let at = bytes.iter().position(|b| *b == mark)?;
    Some((&bytes[..at], &bytes[at + 1..]))
}

// The first line, without its line feed, and the rest of the text.
pub fn first_line(text: &[u8]) -> Option<(&[u8], &[u8])>
    ensures { option_map both_now result ≡ line_of text.now }
{
    cut_at(text, b'\n')
}

// The bytes before the first space, and what follows that space if there is one.
pub fn first_word(line: &[u8]) -> (&[u8], Option<&[u8]>)
    ensures { (result.0.now, option_map (λ x. x.now) result.1) ≡ piece_of line.now }
{
    match cut_at(line, b' ') {
        Some((piece, rest)) => (piece, Some(rest)),
        None => (line, None),
    }
}

// One or more bytes, each from `low` to `high`.
fn made_of(bytes: &[u8], low: u8, high: u8) -> bool
    ensures { result ≡ made_of low high bytes.now }
{
    !bytes.is_empty() && bytes.iter().all(|b| (low..=high).contains(b))
}

// The decimal value of digits, if it fits. A byte below `0`, which no number has, would count as 0.
fn value_of(digits: &[u8]) -> Option<u32>
    ensures { result ≡ number_value digits.now }
{
    digits.iter().try_fold(0u32, |value, digit| {
        value
            .checked_mul(10)?
            .checked_add(u32::from(digit.saturating_sub(b'0')))
    })
}

impl<'a> Word<'a> {
    // The word that a piece of a line is.
    pub fn of(piece: &'a [u8]) -> Option<Word<'a>>
        ensures { option_map token result ≡ token_of piece.now }
    {
        if made_of(piece, b'a', b'z') {
            Some(Word::Name(piece))
        } else if made_of(piece, b'0', b'9') {
            Some(Word::Number(piece))
        } else if piece == b"-".as_slice() {
            Some(Word::Dash(piece))
        } else {
            None
        }
    }

    // Is it this name?
    pub fn is_name(self, name: &[u8]) -> bool
        ensures { result ≡ is_name name.now (token self.entry) }
    {
        self == Word::Name(name)
    }

    // Is it a dash?
    pub fn is_dash(self) -> bool
        ensures { result ≡ is_dash (token self.entry) }
    {
        matches!(self, Word::Dash(_))
    }

    // The value of a number, if it is at most 4,294,967,295.
    pub fn value(self) -> Option<u32>
        ensures { result ≡ token_value (token self.entry) }
    {
        match self {
            Word::Number(digits) => value_of(digits),
            Word::Name(_) | Word::Dash(_) => None,
        }
    }
}
