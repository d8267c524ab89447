// What a closeStream and a deleteStream want: the stream that their first argument names.
ghost use Rattle.std.specs.Prelude.{◌≡◌};
ghost use Rattle.wishes.specs.Streams.{close_wish, delete_wish, stream_in};

use crate::values::bits_in;
use crate::wish::Wish;
use amf0::Plain;
use numbers::u32_of;
use text::StreamId;

fn stream_in(value: Option<Plain>) -> Option<StreamId>
    ensures { result ≡ stream_in value }
{
    Some(StreamId(u32_of(bits_in(value)?)))
}

pub fn close_wish(argument: Option<Plain>) -> Wish
    ensures { result ≡ close_wish argument }
{
    match stream_in(argument) {
        Some(stream) => Wish::CloseStream(stream),
        None => Wish::Nothing,
    }
}

pub fn delete_wish(argument: Option<Plain>) -> Wish
    ensures { result ≡ delete_wish argument }
{
    match stream_in(argument) {
        Some(stream) => Wish::DeleteStream(stream),
        None => Wish::Nothing,
    }
}
