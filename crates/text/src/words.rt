// Fixed words, and which of them a text is.
ghost use Rattle.std.specs.Prelude.{◌≡◌};
ghost use Rattle.text.specs.Words.{command_of, mode_of, same};

// Whether two texts are the same bytes.
pub fn is_word(part: &[u8], word: &[u8]) -> bool
    ensures { result ≡ same part.now word.now }
{
    part == word
}

// The commands that are known. Any other does nothing.
#[derive(Clone, Copy, Debug, PartialEq, Eq)]
pub enum Command {
    Connect,
    CreateStream,
    CloseStream,
    DeleteStream,
    Publish,
    Play,
    Other,
}

pub fn command_of(name: &[u8]) -> Command
    ensures { result ≡ command_of name.now }
{
    if is_word(name, b"connect") {
        return Command::Connect;
    }
    if is_word(name, b"createStream") {
        return Command::CreateStream;
    }
    if is_word(name, b"closeStream") {
        return Command::CloseStream;
    }
    if is_word(name, b"deleteStream") {
        return Command::DeleteStream;
    }
    if is_word(name, b"publish") {
        return Command::Publish;
    }
    if is_word(name, b"play") {
        return Command::Play;
    }
    Command::Other
}

// How a stream is published: the Rust's cases.
#[derive(Clone, Copy, Debug, PartialEq, Eq)]
pub enum PublishMode {
    Live,
    Append,
    Record,
}

// None is a word that names no mode.
pub fn mode_of(word: &[u8]) -> Option<PublishMode>
    ensures { result ≡ mode_of word.now }
{
    if is_word(word, b"live") {
        return Some(PublishMode::Live);
    }
    if is_word(word, b"append") {
        return Some(PublishMode::Append);
    }
    if is_word(word, b"record") {
        return Some(PublishMode::Record);
    }
    None
}
