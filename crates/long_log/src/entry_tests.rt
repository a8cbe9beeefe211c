use log_entry::{
    Cause, Entries, Entry, Input, Log, Mode, Streams, WaitFor, Waits, entry_size, frame_size,
    size_in,
};
use std::mem::size_of;
use std::test::Fail;

#[test]
fn an_entry_takes_at_most_64_bytes_in_memory_and_a_wait_16(rt: HostRuntime) {
    assert!(rt; size_of::<Entry>() <= 64);
    assert!(rt; size_of::<WaitFor>() <= 16);
}

#[test]
fn a_gain_is_as_long_as_its_waits_make_it(rt: HostRuntime) -> Result<(), Fail> {
    let alloc = rt.alloc();
    let wait = WaitFor { hart: 1, count: 3 };
    let mut waits = Waits::of(Vec::with_capacity(alloc, 2)?);
    waits.push(wait);
    assert_eq!(rt; waits.items(), [wait].as_slice());
    let gain = Entry::Gain {
        count: 3,
        page: 1,
        seq: 3,
        mode: Mode::Write,
        waits,
    };
    assert_eq!(rt; entry_size(&gain), 26);
    Ok(())
}

#[test]
fn sizes_are_those_of_the_fields(rt: HostRuntime) {
    let left = Some(Mode::Read);
    assert_eq!(rt;
        entry_size(&Entry::Yield {
            count: 8,
            page: 1,
            seq: 4,
            left
        }),
        16
    );
    assert_eq!(rt;
        entry_size(&Entry::Poll {
            count: 0,
            ord: 0,
            time: 5,
            bits: 0
        }),
        22
    );
    let input = Input::Time(5);
    assert_eq!(rt;
        entry_size(&Entry::Touch {
            count: 2,
            ord: 1,
            input
        }),
        22
    );
    assert_eq!(rt; size_in(4096, 1, &Entry::End { count: 3 }), 9);
    assert_eq!(rt; frame_size(4096, 2), 75);
}

#[test]
fn a_log_is_made_of_its_parts(rt: HostRuntime) -> Result<(), Fail> {
    let alloc = rt.alloc();
    let stream = Entries::of(vec![in alloc; Entry::End { count: 0 }]?);
    let log = Log {
        pages: 1,
        limit: 0,
        image: [0; 32],
        streams: Streams::of(vec![in alloc; stream]?),
        cause: Cause::Limit,
    };
    assert_eq!(rt; log.unit(), 4096);
    assert_eq!(rt; log.streams.items().len(), 1);
    Ok(())
}
