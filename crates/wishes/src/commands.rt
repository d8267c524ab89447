// What a command wants.
ghost use Rattle.std.specs.Prelude.{◌≡◌};
ghost use Rattle.wishes.specs.Commands.{command_wish, known_command, whole_command};

use crate::connect::connect_wish;
use crate::outcome::Refusal;
use crate::play::play_wish;
use crate::publish::publish_wish;
use crate::streams::{close_wish, delete_wish};
use crate::values::{bits_in, text_in, value_of};
use crate::wish::{Wish, check_whole};
use text::{Command, command_of};

fn known_command(body: &[u8], transaction: u64, command: Command) -> Result<Wish, Refusal>
    ensures { result ≡ known_command body.now transaction command }
{
    match command {
        Command::Connect => connect_wish(body, transaction),
        Command::CreateStream => Ok(Wish::CreateStream { transaction }),
        Command::CloseStream => Ok(close_wish(value_of(body, 3))),
        Command::DeleteStream => Ok(delete_wish(value_of(body, 3))),
        Command::Publish => Ok(publish_wish(body, transaction)),
        Command::Play => Ok(play_wish(body, transaction)),
        Command::Other => Ok(Wish::Nothing),
    }
}

// String, number, any value. The beginning is tested before the name, so an unknown command may be refused too.
fn whole_command(body: &[u8]) -> Result<Wish, Refusal>
    ensures { result ≡ whole_command body.now }
{
    let name = text_in(body, value_of(body, 0)).ok_or(Refusal::NoCommand)?;
    let transaction = bits_in(value_of(body, 1)).ok_or(Refusal::NoCommand)?;
    if value_of(body, 2).is_none() {
        return Err(Refusal::NoCommand);
    }
    known_command(body, transaction, command_of(name))
}

#[tactic(auto, unfolding(crate::specs::Commands::command_wish))]
pub fn command_wish(body: &[u8]) -> Result<Wish, Refusal>
    ensures { result ≡ command_wish body.now }
{
    check_whole(body)?;
    whole_command(body)
}
