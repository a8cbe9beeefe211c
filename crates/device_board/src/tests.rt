ghost use Rattle.std.specs.Prelude.{◌≡◌};

use crate::{ConsoleFailed, Devices, Touched};
use outside::{Asked, MemConsole};
use rv_words::{Access, Input, device_word};
use std::alloc::Global;
use std::test::Fail;

const MSIP: u32 = 0x0200_0000;

const COMPARE: u32 = 0x0200_4000;

const TIME: u32 = 0x0200_bff8;

const RX: u32 = 0x1000_0000;

const TX: u32 = 0x1000_0004;

const STOP: u32 = 0x1000_0008;

fn load(at: u32) -> Access {
    Access { at, store: None }
}

fn store(at: u32, value: u32) -> Access {
    Access {
        at,
        store: Some(value),
    }
}

/// Two accesses of the devices of two harts at time 7, the first without an input.
fn answer(alloc: Global, first: Access, then: Access, input: Input) -> Result<Option<u32>, Fail> {
    let mut devices = Devices::start(alloc, 2);
    devices.poll(7);
    if device_word(first.at, 2).is_none() || device_word(then.at, 2).is_none() {
        return Err(ConsoleFailed.into());
    }
    devices.reserve(1)?;
    devices.replay_touch(0, first, Input::Nothing);
    devices.reserve(1)?;
    Ok(devices.replay_touch(0, then, input))
}

/// Two accesses, the input of the second, and what it loads.
type Row = (Access, Access, Input, Option<u32>);

// The prover sees no rows: functions without clauses give them.
#[rattlefmt::skip]
fn rows() -> [Row; 32] {
    let none = Input::Nothing;
    [
        (load(MSIP), load(MSIP), none, Some(0)),
        (store(MSIP, 0xffff_ffff), load(MSIP), none, Some(1)),
        (store(MSIP, 2), load(MSIP), none, Some(0)),
        (store(MSIP, 1), load(MSIP + 4), none, Some(0)),
        (store(MSIP + 4, 3), load(MSIP + 4), none, Some(1)),
        (load(COMPARE), load(COMPARE), none, Some(0xffff_ffff)),
        (store(COMPARE, 5), load(COMPARE), none, Some(5)),
        (store(COMPARE, 5), load(COMPARE + 4), none, Some(0xffff_ffff)),
        (store(COMPARE + 4, 6), load(COMPARE + 4), none, Some(6)),
        (store(COMPARE + 4, 6), load(COMPARE), none, Some(0xffff_ffff)),
        (store(COMPARE + 8, 5), load(COMPARE), none, Some(0xffff_ffff)),
        (store(COMPARE + 8, 5), load(COMPARE + 8), none, Some(5)),
        (store(COMPARE + 12, 9), load(COMPARE + 12), none, Some(9)),
        (load(STOP), load(TIME), Input::Time(7), Some(7)),
        (load(STOP), load(TIME), Input::Time(6), None),
        (load(STOP), load(TIME), Input::Time(0x5_0000_0009), Some(9)),
        (load(STOP), load(TIME + 4), Input::Time(0x5_0000_0009), Some(5)),
        (store(TIME, 99), load(TIME), Input::Time(7), Some(7)),
        (store(TIME + 4, 1), load(TIME + 4), Input::Time(7), Some(0)),
        (load(STOP), load(TIME), none, None),
        (load(STOP), load(RX), Input::Byte(65), Some(65)),
        (load(STOP), load(RX), Input::Empty, Some(0xffff_ffff)),
        (load(STOP), load(RX), none, None),
        (load(STOP), load(RX), Input::Time(7), None),
        (load(STOP), store(RX, 1), none, Some(0)),
        (load(STOP), load(TX), none, Some(0)),
        (load(STOP), load(TX), Input::Byte(65), None),
        (load(STOP), store(TX, 65), none, Some(0)),
        (load(STOP), store(TX, 65), Input::Empty, None),
        (store(STOP, 4), load(STOP), none, Some(0)),
        (load(STOP), store(STOP, 4), Input::Byte(4), None),
        (load(STOP), store(MSIP, 1), Input::Empty, None),
    ]
}

#[test]
fn each_word_is_loaded_and_stored(rt: HostRuntime) -> Result<(), Fail> {
    for (first, then, input, want) in rows() {
        assert_eq!(rt; answer(rt.alloc(), first, then, input)?, want);
    }
    Ok(())
}

fn seen(loaded: u32, input: Input) -> Result<Touched, ConsoleFailed> {
    Ok(Touched { loaded, input })
}

/// Whether an access of one hart's devices at a time gives this.
fn gives(
    devices: &mut Devices,
    console: &mut MemConsole,
    access: Access,
    time: u64,
    want: Result<Touched, ConsoleFailed>,
) -> bool
    requires { devices.old.devices.harts ≡ 1 }
    ensures { devices.new.devices.harts ≡ 1 }
{
    if device_word(access.at, 1).is_none() || devices.reserve(1).is_err() {
        return false;
    }
    devices.touch(console, 0, access, time) == want
}

#[test]
fn the_console_gives_and_takes(rt: HostRuntime) -> Result<(), Fail> {
    let answers = [Asked::Nothing, Asked::Byte(0x41)];
    let mut console = MemConsole::start(rt.alloc(), &answers, Asked::End, 9, &[4])?;
    let mut devices = Devices::start(rt.alloc(), 1);
    let none = seen(0xffff_ffff, Input::Empty);
    assert!(rt; gives(&mut devices, &mut console, load(RX), 5, none));
    assert!(rt;
        gives(
            &mut devices,
            &mut console,
            load(RX),
            5,
            seen(0x41, Input::Byte(65))
        )
    );
    assert!(rt; gives(&mut devices, &mut console, load(RX), 5, none));
    let taken = seen(0, Input::Nothing);
    assert!(rt; gives(&mut devices, &mut console, store(TX, 0x1234_5678), 5, taken));
    assert!(rt;
        gives(
            &mut devices,
            &mut console,
            store(TX, 1),
            5,
            Err(ConsoleFailed)
        )
    );
    let time = seen(5, Input::Time(5));
    assert!(rt; gives(&mut devices, &mut console, load(TIME), 5, time));
    assert!(rt; gives(&mut devices, &mut console, load(TIME), 3, time));
    assert!(rt; devices.stop().is_none());
    assert!(rt; gives(&mut devices, &mut console, store(STOP, 0), 9, taken));
    assert_eq!(rt; (devices.stop(), devices.time()), (Some(0), 5));
    assert_eq!(rt; devices.sent(), [0x78u8].as_slice());
    assert_eq!(rt; devices.into_sent().as_slice(), [0x78u8].as_slice());
    assert_eq!(rt; console.taken(), [0x78u8].as_slice());
    Ok(())
}

/// Whether a value is stored to a word of two harts' devices.
fn stores(devices: &mut Devices, at: u32, value: u32) -> bool
    requires { devices.old.devices.harts ≡ 2 }
    ensures { devices.new.devices.harts ≡ 2 }
{
    let access = store(at, value);
    if device_word(access.at, 2).is_none() || devices.reserve(1).is_err() {
        return false;
    }
    devices.replay_touch(0, access, Input::Nothing).is_some()
}

#[test]
fn lines_follow_msip_and_time(rt: HostRuntime) {
    let mut devices = Devices::start(rt.alloc(), 2);
    assert_eq!(rt; devices.lines(1), 0);
    assert!(rt; stores(&mut devices, MSIP + 4, 1));
    assert!(rt; stores(&mut devices, COMPARE + 8, 20));
    assert!(rt; stores(&mut devices, COMPARE + 12, 0));
    assert_eq!(rt; (devices.lines(0), devices.lines(1)), (0, 1));
    assert_eq!(rt; (devices.lines_at(1, 19), devices.lines_at(1, 20)), (1, 3));
    assert_eq!(rt; (devices.poll(20), devices.poll(3)), (20, 20));
    assert_eq!(rt; (devices.lines(0), devices.lines(1)), (0, 3));
}
