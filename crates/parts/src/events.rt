// An event as ten numbers.
ghost use Rattle.std.specs.Prelude.{◌≡◌, Some};
ghost use Rattle.parts.specs.Parts.{duration_numbers, event_numbers, plain_event, start_numbers};

use image::{flag_number, mode_number};
use numbers::PlayStartValue;
use session::Event;

// An event that uses none of the numbers of a play.
fn plain_event(what: u64, request: u64, mode: u64, timestamp: u64) -> [u64; 10]
    ensures { result ≡ plain_event what request mode timestamp }
{
    [what, request, mode, 0, 0, 0, 0, 0, 0, timestamp]
}

fn start_numbers(start: PlayStartValue) -> [u64; 2]
    ensures { result ≡ start_numbers start }
{
    match start {
        PlayStartValue::LiveOrRecorded => [0, 0],
        PlayStartValue::LiveOnly => [1, 0],
        PlayStartValue::StartTimeInSeconds(n) => [2, n as u64],
    }
}

fn duration_numbers(duration: Option<u32>) -> [u64; 2]
    ensures { result ≡ duration_numbers duration }
{
    match duration {
        None => [0, 0],
        Some(n) => [1, n as u64],
    }
}

fn numbers_of(event: Event) -> [u64; 10]
    ensures { result ≡ event_numbers (Some event) }
{
    match event {
        Event::ConnectionRequested(request) => plain_event(1, request.0 as u64, 0, 0),
        Event::PublishStreamRequested { request, mode } => {
            plain_event(2, request.0 as u64, mode_number(mode), 0)
        }
        Event::PlayStreamRequested {
            request,
            start,
            duration,
            reset,
            stream,
        } => {
            let s = start_numbers(start);
            let d = duration_numbers(duration);
            let flag = flag_number(reset);
            [
                3,
                request.0 as u64,
                0,
                s[0],
                s[1],
                d[0],
                d[1],
                flag,
                stream.0 as u64,
                0,
            ]
        }
        Event::PublishStreamFinished => plain_event(4, 0, 0, 0),
        Event::PlayStreamFinished => plain_event(5, 0, 0, 0),
        Event::StreamMetadataChanged => plain_event(6, 0, 0, 0),
        Event::AudioDataReceived { timestamp } => plain_event(7, 0, 0, timestamp as u64),
        Event::VideoDataReceived { timestamp } => plain_event(8, 0, 0, timestamp as u64),
        Event::PingResponseReceived { timestamp } => plain_event(9, 0, 0, timestamp as u64),
    }
}

// 0 is no event.
pub fn event_numbers(event: Option<Event>) -> [u64; 10]
    ensures { result ≡ event_numbers event }
{
    match event {
        Some(event) => numbers_of(event),
        None => plain_event(0, 0, 0, 0),
    }
}
