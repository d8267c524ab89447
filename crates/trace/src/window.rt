// The part of the input that is at hand: `from` is where the next entry begins, `to` the end of what was read.
ghost use Rattle.std.specs.Prelude.{◌+◌, ◌≤◌, length};

use input::read_full;
use std::io;
use std::io::Read;

#[derive(Clone, Copy)]
pub struct Window {
    pub from: usize,
    pub to: usize,
    pub ended: bool,
}

pub fn new_window() -> Window {
    Window {
        from: 0,
        to: 0,
        ended: false,
    }
}

pub fn in_window(w: Window) -> usize {
    if w.from < w.to { w.to - w.from } else { 0 }
}

// Behind an entry of n bytes.
pub fn move_on(w: Window, n: usize) -> Window {
    let mut from = w.to;
    if w.from < w.to {
        if n < w.to - w.from {
            from = w.from + n;
        }
    }
    Window {
        from,
        to: w.to,
        ended: w.ended,
    }
}

fn copy_down(bytes: &mut [u8], from: usize, n: usize)
    requires { from + n ≤ length bytes.old }
{
    bytes.copy_within(from..from + n, 0);
}

// The n bytes from `from` on move to the front.
fn move_up(bytes: &mut [u8], from: usize, n: usize) {
    if from <= bytes.len() {
        if n <= bytes.len() - from {
            copy_down(bytes, from, n);
        }
    }
}

// How many bytes more were read, behind the first n.
fn read_more(input: &mut impl Read, bytes: &mut [u8], n: usize) -> io::Result<usize> {
    if bytes.len() < n {
        return Ok(0);
    }
    read_full(input, &mut bytes[n..])
}

fn refilled(input: &mut impl Read, bytes: &mut [u8; 262144], w: Window) -> io::Result<Window> {
    let n = in_window(w);
    move_up(bytes, w.from, n);
    let more = read_more(input, bytes, n)?;
    Ok(Window {
        from: 0,
        to: n.wrapping_add(more),
        ended: more == 0,
    })
}

// No entry is longer than 131,091 bytes: a reject with its two texts.
pub fn refill(input: &mut impl Read, bytes: &mut [u8; 262144], w: Window) -> io::Result<Window> {
    if w.ended {
        return Ok(w);
    }
    if 131091 <= in_window(w) {
        return Ok(w);
    }
    refilled(input, bytes, w)
}
