// The record of metadata: its set fields as one object.
ghost use Rattle.std.specs.Prelude.{◌≡◌, ◌+◌, ◌≤◌, ◌<◌, IfSome, length, map, option_map};
ghost use Rattle.numbers.specs.Fields.{Run, over};
ghost use Rattle.text.specs.Names.{text_of};
ghost use Rattle.amf0.specs.Writing.{encode, room};
ghost use Rattle.answers.specs.Sending.{sent};
ghost use Rattle.metadata.specs.Writing.{flag, listed, listing, metadata_record, named, piece, pieces, rate, value_of, whole};

use crate::metadata::StreamMetadata;
use amf0::{
    write_boolean_at, write_name_at, write_number_at, write_object_begin_at, write_object_end_at,
    write_string_at,
};
use numbers::{bits_of_f32, double_of_u32};
use record::write_header;
use text::{Name, StreamId};

#[derive(Clone, Copy)]
enum PropertyValue<'a> {
    Number(u64),
    Boolean(bool),
    Text(&'a [u8]),
}

// A property's name, and its value where the field is set.
#[derive(Clone, Copy)]
struct Property<'a>(&'a [u8], Option<PropertyValue<'a>>);

fn whole<'a>(n: Option<u32>) -> Option<PropertyValue<'a>>
    ensures { option_map value_of result ≡ whole n }
{
    Some(PropertyValue::Number(double_of_u32(n?)))
}

fn rate<'a>(x: Option<f32>) -> Option<PropertyValue<'a>>
    ensures { option_map value_of result ≡ rate x }
{
    Some(PropertyValue::Number(bits_of_f32(x?)))
}

fn flag<'a>(b: Option<bool>) -> Option<PropertyValue<'a>>
    ensures { option_map value_of result ≡ flag b }
{
    Some(PropertyValue::Boolean(b?))
}

fn named<'a>(encoder: &'a Option<Name>) -> Option<PropertyValue<'a>>
    ensures value { option_map value_of result ≡ named encoder.now }
    ensures short { IfSome encoder.now (λ e. length (text_of e) ≤ 128) }
{
    match encoder {
        Some(name) => Some(PropertyValue::Text(name.text())),
        None => None,
    }
}

// The eleven, in the order in which they are written.
#[tactic(auto, using(crate::proofs::WritingLaws::eleven_short))]
fn properties<'a>(m: &'a StreamMetadata) -> [Property<'a>; 11]
    ensures listed { map listing result ≡ listed m.now }
    ensures short { length (pieces (listed m.now)) < 4096 }
{
    [
        Property(b"width", whole(m.video_width)),
        Property(b"height", whole(m.video_height)),
        Property(b"videocodecid", whole(m.video_codec_id)),
        Property(b"videodatarate", whole(m.video_bitrate_kbps)),
        Property(b"framerate", rate(m.video_frame_rate)),
        Property(b"audiocodecid", whole(m.audio_codec_id)),
        Property(b"audiodatarate", whole(m.audio_bitrate_kbps)),
        Property(b"audiosamplerate", whole(m.audio_sample_rate)),
        Property(b"audiochannels", whole(m.audio_channels)),
        Property(b"stereo", flag(m.audio_is_stereo)),
        Property(b"encoder", named(&m.encoder)),
    ]
}

impl PropertyValue<'_> {
    // How many bytes it takes.
    #[tactic(auto, unfolding(amf0::specs::Writing::room))]
    fn room(&self) -> usize
        ensures { result ≡ room (value_of self.now) }
    {
        match self {
            PropertyValue::Number(_) => 9,
            PropertyValue::Boolean(_) => 2,
            PropertyValue::Text(t) => 3 + t.len(),
        }
    }

    #[tactic(auto, unfolding(amf0::specs::Writing::room))]
    fn write_at(&self, out: &mut [u8], at: usize)
        requires { (room (value_of self.now) < 4096) × (at + room (value_of self.now) ≤ length out.old) }
        ensures { out.new ≡ over at (encode (value_of self.now)) out.old }
    {
        match self {
            PropertyValue::Number(bits) => write_number_at(out, at, *bits),
            PropertyValue::Boolean(b) => write_boolean_at(out, at, *b),
            PropertyValue::Text(t) => write_string_at(out, at, t),
        }
    }
}

impl Property<'_> {
    // Nothing where its field isn't set.
    #[tactic(auto, using(crate::proofs::WritingLaws::one_room, crate::proofs::WritingLaws::one_unset))]
    fn room(&self) -> usize
        requires { length (piece (listing self.now)) < 4096 }
        ensures { result ≡ length (piece (listing self.now)) }
    {
        let Property(name, value) = self;
        match value {
            Some(value) => 2 + name.len() + value.room(),
            None => 0,
        }
    }

    // Hands back the place behind it.
    #[tactic(auto, using(crate::proofs::WritingLaws::one_room))]
    fn write_at(&self, out: &mut [u8], at: usize) -> usize
        requires { (length (piece (listing self.now)) < 4096) × (at + length (piece (listing self.now)) ≤ length out.old) }
        ensures { Run out.old at (piece (listing self.now)) result out.new }
    {
        let Property(name, value) = self;
        match value {
            Some(value) => {
                let p = at + 2 + name.len();
                write_name_at(out, at, name);
                value.write_at(out, p);
                p + value.room()
            }
            None => at,
        }
    }
}

#[tactic(auto, using(crate::proofs::WritingLaws::length_on, crate::proofs::WritingLaws::room_on))]
fn room_of(properties: &[Property]) -> usize
    requires { length (pieces (map listing properties.now)) < 4096 }
    ensures { result ≡ length (pieces (map listing properties.now)) }
{
    let mut room = 0;
    for property in properties {
        room += property.room();
    }
    room
}

#[tactic(auto, using(crate::proofs::WritingLaws::room_on))]
fn write_properties(out: &mut [u8], at: usize, properties: &[Property]) -> usize
    requires { (length (pieces (map listing properties.now)) < 4096) × (at + length (pieces (map listing properties.now)) ≤ length out.old) }
    ensures { Run out.old at (pieces (map listing properties.now)) result out.new }
{
    let mut p = at;
    for property in properties {
        p = property.write_at(out, p);
    }
    p
}

// All of it or nothing.
pub fn metadata_record(
    out: &mut [u8],
    m: StreamMetadata,
    time: u32,
    stream: StreamId,
) -> Option<usize>
    ensures { (result, out.new) ≡ sent (metadata_record m time stream.0) out.old }
{
    let properties = properties(&m);
    let len = 17 + room_of(&properties);
    let total = 13 + len;
    if out.len() < total {
        return None;
    }
    write_header(out, 18, len, time, stream, 0);
    write_string_at(out, 13, b"onMetaData");
    write_object_begin_at(out, 26);
    let end = write_properties(out, 27, &properties);
    write_object_end_at(out, end);
    Some(total)
}
