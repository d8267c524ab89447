// Words for the cases of modes, starts, durations, flags and actions.
ghost use Rattle.std.specs.Prelude.{◌≡◌};
ghost use Rattle.session.specs.Names.{action_text};
ghost use Rattle.spelling.specs.Text.{put_all};
ghost use Rattle.spelling.specs.Words.{duration_text, flag_text, mode_text, start_text};

use crate::bytes::{put_decimal, put_word};
use numbers::PlayStartValue;
use text::PublishMode;
use wishes::Action;

// The words are put into the caller's line. Not `Display`, which promises nothing of the bytes it writes.
pub fn put_mode(out: &mut [u8], at: usize, mode: PublishMode) -> usize
    ensures { (result, out.new) ≡ put_all (mode_text mode) (at, out.old) }
{
    match mode {
        PublishMode::Live => put_word(out, at, b"live"),
        PublishMode::Append => put_word(out, at, b"append"),
        PublishMode::Record => put_word(out, at, b"record"),
    }
}

pub fn put_action(out: &mut [u8], at: usize, action: Action) -> usize
    ensures { (result, out.new) ≡ put_all (action_text action) (at, out.old) }
{
    match action {
        Action::Publish => put_word(out, at, b"publish"),
        Action::Play => put_word(out, at, b"play"),
        Action::Complete => put_word(out, at, b"complete"),
    }
}

pub fn put_start(out: &mut [u8], at: usize, start: PlayStartValue) -> usize
    ensures { (result, out.new) ≡ put_all (start_text start) (at, out.old) }
{
    match start {
        PlayStartValue::LiveOrRecorded => put_word(out, at, b"live-or-recorded"),
        PlayStartValue::LiveOnly => put_word(out, at, b"live-only"),
        PlayStartValue::StartTimeInSeconds(n) => put_decimal(out, at, u64::from(n)),
    }
}

pub fn put_duration(out: &mut [u8], at: usize, duration: Option<u32>) -> usize
    ensures { (result, out.new) ≡ put_all (duration_text duration) (at, out.old) }
{
    match duration {
        None => put_word(out, at, b"none"),
        Some(n) => put_decimal(out, at, u64::from(n)),
    }
}

pub fn put_flag(out: &mut [u8], at: usize, flag: bool) -> usize
    ensures { (result, out.new) ≡ put_all (flag_text flag) (at, out.old) }
{
    if flag {
        put_word(out, at, b"1")
    } else {
        put_word(out, at, b"0")
    }
}
