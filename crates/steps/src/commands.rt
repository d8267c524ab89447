// Commands that file a request: connect, publish, play.
ghost use Rattle.std.specs.Prelude.{◌≡◌};
ghost use Rattle.steps.specs.Commands.{connect as connect_decision, failing, may_ask, play as play_decision, play_fault, play_good, publish as publish_decision, publish_fault, publish_good, request_room};

use metadata::no_metadata;
use session::{
    CommandFault, Decision, Desk, Effect, Event, Reply, no_change, of_request, raised, refused,
    replied,
};
use tables::{Request, RequestKind};
use text::{Name, PublishMode, RequestId, StreamId, empty_name};
use wishes::{PlayArguments, PlayFault, PublishArguments, PublishFault, Refusal};

// The name of a request that can be filed, or why it can't.
#[tactic(auto, unfolding(crate::specs::Commands::request_room))]
fn request_room(desk: Desk, name: Option<Name>) -> Result<Name, Refusal>
    ensures { result ≡ request_room desk name }
{
    let name = name.ok_or(Refusal::NameTooLong)?;
    if desk.next_request == u32::MAX {
        return Err(Refusal::NumbersUsedUp);
    }
    if 16 <= desk.request_count {
        return Err(Refusal::RequestsFull);
    }
    Ok(name)
}

pub fn connect(desk: Desk, transaction: u64, encoding: u64, app: Option<Name>) -> Decision
    ensures { result ≡ connect_decision desk transaction encoding app }
{
    let app = match request_room(desk, app) {
        Ok(app) => app,
        Err(refusal) => return refused(Err(refusal)),
    };
    let id = RequestId(desk.next_request);
    let request = Request {
        id,
        kind: RequestKind::Connect,
        stream: StreamId(0),
        mode: PublishMode::Live,
        transaction,
        name: app,
    };
    let change = of_request(Effect::ConnectFiled { encoding }, request);
    raised(
        Some(Event::ConnectionRequested(id)),
        app,
        empty_name(),
        no_metadata(),
        change,
    )
}

// An error record, and nothing else.
fn fail(transaction: u64, fault: CommandFault, stream: StreamId) -> Decision
    ensures { result ≡ failing transaction fault stream }
{
    replied(
        Reply::Failed {
            transaction,
            fault,
            stream,
        },
        empty_name(),
        no_change(),
    )
}

// The key of a publish or a play whose arguments are good, if it may be filed; else what is decided.
fn may_ask(
    desk: Desk,
    stream: StreamId,
    transaction: u64,
    unconnected: CommandFault,
    key: Option<Name>,
) -> Result<Name, Decision>
    ensures { result ≡ may_ask desk stream transaction unconnected key }
{
    if !desk.connected {
        return Err(fail(transaction, unconnected, stream));
    }
    request_room(desk, key).map_err(|refusal| refused(Err(refusal)))
}

// A missing argument counts before a missing connection, the other faults behind it.
fn publish_fault(connected: bool, fault: PublishFault) -> CommandFault
    ensures { result ≡ publish_fault connected fault }
{
    match fault {
        PublishFault::TooFew => CommandFault::PublishFew,
        _ if !connected => CommandFault::PublishUnconnected,
        PublishFault::KeyNoString | PublishFault::ModeNoString => CommandFault::PublishFew,
        PublishFault::ModeUnknown => CommandFault::PublishUnknownMode,
    }
}

fn publish_good(
    desk: Desk,
    stream: StreamId,
    transaction: u64,
    arguments: PublishArguments,
) -> Decision
    ensures { result ≡ publish_good desk stream transaction arguments }
{
    let unconnected = CommandFault::PublishUnconnected;
    let key = match may_ask(desk, stream, transaction, unconnected, arguments.key) {
        Ok(key) => key,
        Err(decision) => return decision,
    };
    let id = RequestId(desk.next_request);
    let mode = arguments.mode;
    let request = Request {
        id,
        kind: RequestKind::Publish,
        stream,
        mode,
        transaction: 0,
        name: key,
    };
    raised(
        Some(Event::PublishStreamRequested { request: id, mode }),
        desk.app,
        key,
        no_metadata(),
        of_request(Effect::RequestFiled, request),
    )
}

pub fn publish(
    desk: Desk,
    stream: StreamId,
    transaction: u64,
    arguments: Result<PublishArguments, PublishFault>,
) -> Decision
    ensures { result ≡ publish_decision desk stream transaction arguments }
{
    match arguments {
        Ok(good) => publish_good(desk, stream, transaction, good),
        Err(fault) => fail(transaction, publish_fault(desk.connected, fault), stream),
    }
}

fn play_fault(connected: bool, fault: PlayFault) -> CommandFault
    ensures { result ≡ play_fault connected fault }
{
    match fault {
        PlayFault::KeyNoString if !connected => CommandFault::PlayUnconnected,
        _ => CommandFault::PlayFew,
    }
}

fn play_good(desk: Desk, stream: StreamId, transaction: u64, arguments: PlayArguments) -> Decision
    ensures { result ≡ play_good desk stream transaction arguments }
{
    let unconnected = CommandFault::PlayUnconnected;
    let key = match may_ask(desk, stream, transaction, unconnected, arguments.key) {
        Ok(key) => key,
        Err(decision) => return decision,
    };
    let id = RequestId(desk.next_request);
    let request = Request {
        id,
        kind: RequestKind::Play,
        stream,
        mode: PublishMode::Live,
        transaction: 0,
        name: key,
    };
    let event = Event::PlayStreamRequested {
        request: id,
        start: arguments.start,
        duration: arguments.duration,
        reset: arguments.reset,
        stream,
    };
    raised(
        Some(event),
        desk.app,
        key,
        no_metadata(),
        of_request(Effect::RequestFiled, request),
    )
}

pub fn play(
    desk: Desk,
    stream: StreamId,
    transaction: u64,
    arguments: Result<PlayArguments, PlayFault>,
) -> Decision
    ensures { result ≡ play_decision desk stream transaction arguments }
{
    match arguments {
        Ok(good) => play_good(desk, stream, transaction, good),
        Err(fault) => fail(transaction, play_fault(desk.connected, fault), stream),
    }
}
