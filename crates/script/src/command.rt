// What the lines of a script say.
ghost use Rattle.std.specs.Prelude.{◌≡◌};
ghost use Rattle.std.specs.Option.{option_map};
ghost use Rattle.script.specs.Commands.{script_of, tokens, next_word, tokens_of, guide_of as guide_of_rule, work_of as work_of_rule, key_of, opening, beginning, only_station as only_station_rule, call_of as call_of_rule, command_of};
ghost use Rattle.script.specs.Words.{token};

use crate::word::{Word, first_line, first_word};
use records::Work;

// The most bytes that a script may have.
pub const MOST_BYTES: usize = 32_768;

// The first line of a script: the names of a line's words.
const NAMES: &[u8] = b"call station work key";

// A guide, by its name.
#[derive(Clone, Copy, PartialEq, Eq, Debug)]
pub enum GuideName {
    Line,
}

// A call with its values.
#[derive(Clone, Copy, PartialEq, Eq, Debug)]
pub enum Command {
    // open S G P
    Open {
        stations: u32,
        guide: GuideName,
        places: u32,
    },
    // begin S W K; the key is 0 for `first`, since begin is given a key with every work and first ignores it
    Begin {
        station: u32,
        work: Work,
        key: u32,
    },
    // run S - -
    Run {
        station: u32,
    },
    // leave S - -
    Leave {
        station: u32,
    },
}

// The four words of a line.
#[derive(Clone, Copy, PartialEq, Eq, Debug)]
pub struct Fields<'a> {
    pub call: Word<'a>,
    pub station: Word<'a>,
    pub work: Word<'a>,
    pub key: Word<'a>,
}

// The lines of a script after the names, unless it is too long or begins with another line.
pub fn lines_of(text: &[u8]) -> Option<&[u8]>
    ensures { option_map (λ x. x.now) result ≡ script_of text.now }
{
    if text.len() > MOST_BYTES {
        return None;
    }
    let (names, rest) = first_line(text)?;
    (names == NAMES).then_some(rest)
}

// The first word of what is left of a line, and what is then left.
fn next_word(rest: Option<&[u8]>) -> Option<(Word<'_>, Option<&[u8]>)>
    ensures { option_map (λ p. (token p.0, option_map (λ x. x.now) p.1)) result ≡ next_word (option_map (λ x. x.now) rest.entry) }
{
    let (piece, rest) = first_word(rest?);
    Some((Word::of(piece)?, rest))
}

// The words of a line, if there are exactly four.
fn fields_of(line: &[u8]) -> Option<Fields<'_>>
    ensures { option_map tokens result ≡ tokens_of line.now }
{
    let (call, rest) = next_word(Some(line))?;
    let (station, rest) = next_word(rest)?;
    let (work, rest) = next_word(rest)?;
    let (key, rest) = next_word(rest)?;
    rest.is_none().then_some(Fields {
        call,
        station,
        work,
        key,
    })
}

// The guide that a word names.
fn guide_of(word: Word<'_>) -> Option<GuideName>
    ensures { result ≡ guide_of_rule (token word.entry) }
{
    match word {
        word if word.is_name(b"line") => Some(GuideName::Line),
        _ => None,
    }
}

// The work that a word names.
fn work_of(word: Word<'_>) -> Option<Work>
    ensures { result ≡ work_of_rule (token word.entry) }
{
    match word {
        word if word.is_name(b"put") => Some(Work::Put),
        word if word.is_name(b"strike") => Some(Work::Strike),
        word if word.is_name(b"look") => Some(Work::Look),
        word if word.is_name(b"first") => Some(Work::First),
        word if word.is_name(b"after") => Some(Work::After),
        _ => None,
    }
}

// The key of a work: a dash with `first`, and a number with the others.
fn key_of(work: Work, word: Word<'_>) -> Option<u32>
    ensures { result ≡ key_of work (token word.entry) }
{
    match work {
        Work::First => word.is_dash().then_some(0),
        Work::Put | Work::Strike | Work::Look | Work::After => word.value(),
    }
}

// open S G P
fn opening(line: Fields<'_>) -> Option<Command>
    ensures { result ≡ opening (tokens line.entry) }
{
    let stations = line.station.value()?;
    let guide = guide_of(line.work)?;
    let places = line.key.value()?;
    Some(Command::Open {
        stations,
        guide,
        places,
    })
}

// begin S W K
fn beginning(line: Fields<'_>) -> Option<Command>
    ensures { result ≡ beginning (tokens line.entry) }
{
    let station = line.station.value()?;
    let work = work_of(line.work)?;
    let key = key_of(work, line.key)?;
    Some(Command::Begin { station, work, key })
}

// A station and no other value: S - -
fn only_station(line: Fields<'_>) -> Option<u32>
    ensures { result ≡ only_station_rule (tokens line.entry) }
{
    if line.work.is_dash() && line.key.is_dash() {
        line.station.value()
    } else {
        None
    }
}

// Which call the four words of a line make.
fn call_of(line: Fields<'_>) -> Option<Command>
    ensures { result ≡ call_of_rule (tokens line.entry) }
{
    match line.call {
        word if word.is_name(b"open") => opening(line),
        word if word.is_name(b"begin") => beginning(line),
        word if word.is_name(b"run") => Some(Command::Run {
            station: only_station(line)?,
        }),
        word if word.is_name(b"leave") => Some(Command::Leave {
            station: only_station(line)?,
        }),
        _ => None,
    }
}

// What a line says; nothing for a bad line.
#[tactic(auto, unfolding(crate::specs::Commands::command_of))]
pub fn read(line: &[u8]) -> Option<Command>
    ensures { result ≡ command_of line.now }
{
    call_of(fields_of(line)?)
}
