// The words of a command that makes a dump.
ghost use Rattle.std.specs.Prelude.{◌≡◌, option_map};
ghost use Rattle.command_words.specs.Command.{made_command, make, shown_command, trial};

use crate::numbers::number_upto;
use crate::words::Cmd;
use dump_io::dec_u64;

// The most processes of a made dump.
const MOST_PROCESSES: u32 = 200_000;

/// The command that makes a dump.
pub(crate) fn make_command<'a>(seed: &str, count: &str) -> Option<Cmd<'a>>
    ensures { option_map shown_command result ≡ made_command make seed.now count.now }
{
    let seed = dec_u64(seed.as_bytes())?;
    let count = number_upto(count, MOST_PROCESSES)?;
    Some(Cmd::Make { seed, count })
}

/// The command that summarizes the reports on such a dump.
pub(crate) fn trial_command<'a>(seed: &str, count: &str) -> Option<Cmd<'a>>
    ensures { option_map shown_command result ≡ made_command trial seed.now count.now }
{
    let seed = dec_u64(seed.as_bytes())?;
    let count = number_upto(count, MOST_PROCESSES)?;
    Some(Cmd::Trial { seed, count })
}
