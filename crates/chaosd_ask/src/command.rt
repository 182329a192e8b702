//! The command that a line of a script stands for.
ghost use Rattle.std.specs.Prelude.{◌≡◌, option_map, IfErr};
ghost use Rattle.std.specs.Result.{result_ok};
ghost use Rattle.chaosd_ask.specs.Command.{command_of, wrong_command};

use crate::notes::Notes;
use chaosd_io::{BadText, Data, LINE_LIMIT, WriteBuffer, read_data, why_text, without_return};

/// The buffers of a command and of its reply, which are kept from line to line, what waits to be
/// printed, and what is noted of the run.
#[derive(Drop)]
pub struct ScriptBuffers {
    pub command: Data,
    pub reply: Data,
    pub out: WriteBuffer,
    pub notes: Notes,
}

/// Reads the command that a line stands for into a place of the caller's. The line is a text of at
/// most 4,096 bytes that stands for no more than a packet has. A carriage return at its end is
/// ignored.
///
/// # Errors
/// What is wrong with a line that stands for no command.
#[tactic(auto, unfolding(crate::specs::Command::command_of, crate::specs::Command::wrong_command))]
pub fn read_command(raw: &[u8], command: &mut Data) -> Result<(), BadText>
    // The bytes of the command are in the caller's place, exactly where the line stands for one.
    ensures command { option_map (λ none. command.new.items) (result_ok result)
        ≡ command_of raw.now }
    // Otherwise what is wrong with the line as a text is answered.
    ensures wrong { IfErr result (λ wrong. wrong ≡ wrong_command raw.now) }
{
    let text = without_return(raw);
    if text.len() > LINE_LIMIT || read_data(text, command).is_none() {
        return Err(why_text(text, text));
    }
    Ok(())
}
