// The frames among the lines of a stack.
ghost use Rattle.std.specs.Prelude.{◌≡◌, [], ◌∷◌, OnOk, IfErr};
ghost use Rattle.std.specs.Option.{option_copied};
ghost use Rattle.dump_io.specs.Lines.{raw_lines};
ghost use Rattle.process_stacks.specs.Inner.Hearing.{info_of, raw_infos, IsOpen, StopsTaking, StopsWithin, Takes};

use crate::frame_sink::{FrameSink, Stop};
use crate::place_lines::push_line;
use dump_io::{bytes_from, line_len, line_text, split_at_colon};

// The info of a line of a stack, if it has one.
fn info_of(text: &[u8]) -> Option<&[u8]>
    ensures { option_copied result ≡ info_of text.now }
{
    let (_label, rest) = split_at_colon(text)?;
    match rest {
        [b'S', info @ ..] => Some(info),
        _ => None,
    }
}

// Takes an info as a frame, and stops if no more are wanted.
fn take_info(sink: &mut FrameSink, info: &[u8]) -> Result<(), Stop>
    requires { IsOpen sink.old }
    ensures open { OnOk result (IsOpen sink.new) }
    ensures takes { OnOk result (Takes sink.old sink.new (info.now ∷ [])) }
    ensures stops { IfErr result (StopsTaking sink.old sink.new (info.now ∷ [])) }
{
    if push_line(&mut sink.lines, b"frame", info).is_err() {
        return Err(Stop::NoMemory);
    }
    sink.left -= 1;
    if sink.left == 0 {
        return Err(Stop::Full);
    }
    Ok(())
}

// Takes the info of a raw line, if it has one.
fn take_line(sink: &mut FrameSink, raw: &[u8]) -> Result<(), Stop>
    requires { IsOpen sink.old }
    ensures open { OnOk result (IsOpen sink.new) }
    ensures takes { OnOk result (Takes sink.old sink.new (raw_infos (raw.now ∷ []))) }
    ensures stops { IfErr result (StopsTaking sink.old sink.new (raw_infos (raw.now ∷ []))) }
{
    match info_of(line_text(raw)) {
        Some(info) => take_info(sink, info),
        None => Ok(()),
    }
}

/// Takes the infos of a run of lines as frames, until no more are wanted.
pub(crate) fn take_frames(sink: &mut FrameSink, run: &[u8]) -> Result<(), Stop>
    requires { IsOpen sink.old }
    ensures open { OnOk result (IsOpen sink.new) }
    ensures takes { OnOk result (Takes sink.old sink.new (raw_infos (raw_lines run.now))) }
    ensures stops { IfErr result (StopsWithin sink.old sink.new (raw_lines run.now)) }
{
    let mut rest = run;
    while !rest.is_empty() {
        let size = line_len(rest);
        take_line(sink, &rest[..size])?;
        rest = bytes_from(rest, size);
    }
    Ok(())
}
