// Reads a trace on standard input, and writes its text.
#![tactic(auto)]

mod window;

use replay::next_entry;
use session::Session;
use std::io;
use std::io::{Read, Write};
use text::{part_of, text_of};
use window::{Window, in_window, move_on, new_window, refill};

// `entry` is the number of the next one, from 1.
#[derive(Clone, Copy)]
struct Run {
    more: bool,
    window: Window,
    entry: u64,
    session: Session,
}

fn say(output: &mut impl Write, text: &[u8], n: usize) -> io::Result<()> {
    output.write_all(text_of(text, n))
}

// What is at hand is longer than any entry, or it is all that is left.
fn next_in(
    output: &mut impl Write,
    bytes: &[u8],
    space: &mut [u8],
    line: &mut [u8],
    run: Run,
) -> io::Result<Run> {
    let window = run.window;
    let session = run.session;
    let rest = part_of(bytes, window.from, in_window(window));
    let turn = next_entry(session, rest, run.entry, space, line);
    let after = turn.session;
    say(output, line, turn.count)?;
    Ok(Run {
        more: turn.more,
        window: move_on(window, turn.taken),
        entry: run.entry.wrapping_add(1),
        session: after,
    })
}

fn next(
    input: &mut impl Read,
    output: &mut impl Write,
    bytes: &mut [u8; 262144],
    space: &mut [u8; 66560],
    line: &mut [u8; 147456],
    run: Run,
) -> io::Result<Run> {
    let before = run.window;
    let session = run.session;
    let window = refill(input, bytes, before)?;
    let more = in_window(window) != 0;
    let at_hand = Run {
        more,
        window,
        entry: run.entry,
        session,
    };
    if !more {
        return Ok(at_hand);
    }
    next_in(output, bytes, space, line, at_hand)
}

// A proved loop has to end: the count is one that no trace reaches.
fn run_all(
    input: &mut impl Read,
    output: &mut impl Write,
    bytes: &mut [u8; 262144],
    space: &mut [u8; 66560],
    line: &mut [u8; 147456],
    first: Run,
) -> io::Result<()> {
    let mut run = first;
    for _ in 0..u64::MAX {
        if !run.more {
            break;
        }
        run = next(input, output, bytes, space, line, run)?;
    }
    Ok(())
}

fn main(rt: HostRuntime) -> io::Result<()> {
    let mut bytes = [0u8; 262144];
    let mut space = [0u8; 66560];
    let mut line = [0u8; 147456];
    let session = session::fresh_session(0, text::empty_name());
    let window = new_window();
    let first = Run {
        more: true,
        window,
        entry: 1,
        session,
    };
    let mut output = rt.stdout();
    run_all(
        &mut rt.stdin(),
        &mut output,
        &mut bytes,
        &mut space,
        &mut line,
        first,
    )
}
