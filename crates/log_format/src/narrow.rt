//! The numbers of a log fit the widths of their fields: their types say so, but of a value in a list a proof learns it
//! only where the value is seen. These functions see each value and do nothing else.
ghost use Rattle.std.specs.Prelude.{◌≡◌, length, All};
ghost use Rattle.log_format.specs.Writing.{IsNarrow, IsNarrowInput, IsNarrowWait};

use log_entry::{Entries, Entry, Input, Log, WaitFor};

fn input_is_narrow(input: Input)
    ensures { IsNarrowInput input }
{
    match input {
        Input::Nothing | Input::Empty => {}
        Input::Byte(_byte) => {}
        Input::Time(_time) => {}
    }
}

fn wait_is_narrow(wait: &WaitFor)
    ensures { IsNarrowWait wait.now }
{
    let _seen = wait.count;
}

fn waits_are_narrow(waits: &[WaitFor])
    ensures { All IsNarrowWait waits.now }
{
    for wait in waits {
        wait_is_narrow(wait);
    }
}

fn entry_is_narrow(entry: &Entry)
    ensures { IsNarrow entry.now }
{
    match entry {
        Entry::Gain {
            count,
            seq,
            waits,
            ..
        } => {
            let _seen = (*count, *seq);
            waits_are_narrow(waits.items());
        }
        Entry::Yield { count, seq, .. } => {
            let _seen = (*count, *seq);
        }
        Entry::Poll {
            count,
            ord,
            time,
            ..
        } => {
            let _seen = (*count, *ord, *time);
        }
        Entry::Touch { count, ord, input } => {
            let _seen = (*count, *ord);
            input_is_narrow(*input);
        }
        Entry::End { count } => {
            let _seen = *count;
        }
    }
}

fn stream_is_narrow(entries: &[Entry])
    ensures { All IsNarrow entries.now }
{
    for entry in entries {
        entry_is_narrow(entry);
    }
}

fn streams_are_narrow(streams: &[Entries])
    ensures { All (All IsNarrow) streams.now }
{
    for stream in streams {
        stream_is_narrow(stream.items());
    }
}

fn digest_is_whole(image: &[u8; 32])
    ensures { length image.now ≡ 32 }
{
    let _seen = image;
}

pub(crate) fn log_is_narrow(l: &Log)
    ensures digest { length l.now.image ≡ 32 }
    ensures streams { All (All IsNarrow) l.now.streams }
{
    digest_is_whole(&l.image);
    streams_are_narrow(l.streams.items());
}
