// Audio and video messages, for C: the call of the crate host, with its clause.
ghost use Rattle.std.specs.Prelude.{◌≡◌};
ghost use Rattle.image.specs.Image.{readable_at, session_at};
ghost use Rattle.host.specs.Frames.{hosted_media, media_of};

// An audio (kind 8) or a video (kind 9) message.
#[unsafe(no_mangle)]
pub extern "C" fn chungvator_handle_media(
    facts: &[u64; 10],
    streams: &[[u64; 4]; 16],
    requests: &[[u64; 6]; 16],
    names: &[[u8; 128]; 34],
    kind: u8,
    stream: u32,
    timestamp: u32,
    media: &mut [u64; 4],
    words: &mut [[u8; 128]; 2],
) -> u32
    ensures { (result, (media.new, words.new)) ≡ hosted_media (readable_at facts.now streams.now requests.now) (media_of kind (session_at facts.now streams.now requests.now names.now) (record { 0 = stream }) timestamp) }
{
    host::chungvator_handle_media(
        facts, streams, requests, names, kind, stream, timestamp, media, words,
    )
}
