// Reads a script from standard input, plays it, and writes a line for each line of it.
#![tactic(auto)]

use play::Player;
use script::{Entry, LineRefusal, MOST_BYTES, Said, first_line, heading, lines_of};
use std::io::Read;

// All of standard input, but no more of it than shows that a script is too long.
fn input(rt: &HostRuntime) -> anyhow::Result<Vec<u8>> {
    let mut text = Vec::new(rt.alloc());
    // A usize has no From to a u64; try_from would add an error that never comes.
    let limit = MOST_BYTES as u64 + 1;
    let _ = rt.stdin().take(limit).read_to_end(&mut text)?;
    Ok(text)
}

// One printed line.
fn write(rt: &HostRuntime, line: u32, said: Said) -> anyhow::Result<()> {
    let entry = Entry { line, said };
    let text = entry.text(rt.alloc())?;
    println!(rt; "{text}")?;
    Ok(())
}

// Plays the lines after the names. A last line without its line feed is a bad line.
fn play(rt: &HostRuntime, script: &[u8]) -> anyhow::Result<()> {
    let mut player = Player::new();
    let mut rest = script;
    // Each line as `first_line` cuts it off, whose contract says where a line ends; none for an end without a line feed.
    let lines = std::iter::from_fn(|| {
        if rest.is_empty() {
            return None;
        }
        let cut = first_line(rest);
        rest = cut.map_or(&[], |(_, after)| after);
        Some(cut.map(|(text, _)| text))
    });
    // No script has more lines than bytes. A usize has no From to a u32 either.
    for (number, line) in (1..=MOST_BYTES as u32).zip(lines) {
        let said = match line {
            Some(text) => player.play(rt.alloc(), text)?,
            None => Said::Refused(LineRefusal::BadLine),
        };
        write(rt, number, said)?;
    }
    Ok(())
}

fn run(rt: &HostRuntime) -> anyhow::Result<()> {
    let text = input(rt)?;
    println!(rt; "{}", heading())?;
    match lines_of(text.as_slice()) {
        Some(script) => play(rt, script),
        None => write(rt, 0, Said::Refused(LineRefusal::BadLine)),
    }
}

fn main(rt: HostRuntime) -> anyhow::Result<()> {
    run(&rt)
}
