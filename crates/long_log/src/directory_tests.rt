ghost use Rattle.std.specs.Prelude.{◌≡◌, ◌≤◌, [], IfOk};

use log_entry::{Mode, WaitFor, Waits};
use privilege_directory::Directory;
use std::test::Fail;

fn no_waits(rt: &HostRuntime) -> Result<Waits, Fail>
    ensures { IfOk result (λ w. (w.items ≡ []) × (7 ≤ w.room)) }
{
    Ok(Waits::of(Vec::with_capacity(rt.alloc(), 7)?))
}

#[test]
fn a_writer_waits_for_the_readers_that_gave_the_page_up(rt: HostRuntime) -> Result<(), Fail> {
    let mut directory = Directory::start(rt.alloc(), 3, 1)?;
    let mut waits = no_waits(&rt)?;
    assert!(rt; directory.can_gain(0, 0, Mode::Read));
    assert_eq!(rt; directory.gain(0, 0, Mode::Read, &mut waits), 0);
    assert_eq!(rt; waits.items(), [].as_slice());
    assert!(rt; directory.can_gain(1, 0, Mode::Read));
    assert_eq!(rt; directory.gain(1, 0, Mode::Read, &mut waits), 1);
    assert!(rt; !directory.can_gain(2, 0, Mode::Write));
    assert_eq!(rt; directory.clash(2, 0, Mode::Write), Some(0));
    assert_eq!(rt; directory.clash(2, 0, Mode::Read), None);
    assert_eq!(rt; directory.clash(0, 0, Mode::Write), Some(1));
    assert_eq!(rt; directory.yield_to(0, 0, 7, None), 2);
    assert_eq!(rt; directory.yield_to(1, 0, 9, None), 3);
    assert!(rt; directory.can_gain(2, 0, Mode::Write));
    assert_eq!(rt; directory.waiting(2, 0), 2);
    assert_eq!(rt; directory.waiting(1, 0), 1);
    assert_eq!(rt; directory.gain(2, 0, Mode::Write, &mut waits), 4);
    let first = WaitFor { hart: 0, count: 7 };
    let second = WaitFor { hart: 1, count: 9 };
    assert_eq!(rt; waits.items(), [first, second].as_slice());
    assert_eq!(rt; directory.holds(2, 0), Some(Mode::Write));
    assert_eq!(rt; directory.holds(0, 0), None);
    Ok(())
}

#[test]
fn a_hart_does_not_wait_for_its_own_yield(rt: HostRuntime) -> Result<(), Fail> {
    let mut directory = Directory::start(rt.alloc(), 2, 2)?;
    let mut waits = no_waits(&rt)?;
    assert!(rt; directory.can_gain(0, 1, Mode::Write));
    assert_eq!(rt; directory.gain(0, 1, Mode::Write, &mut waits), 0);
    assert_eq!(rt; directory.yield_to(0, 1, 3, Some(Mode::Read)), 1);
    assert!(rt; directory.can_gain(1, 1, Mode::Read));
    assert_eq!(rt; directory.yield_to(0, 1, 5, None), 2);
    assert!(rt; directory.can_gain(0, 1, Mode::Write));
    assert_eq!(rt; directory.gain(0, 1, Mode::Write, &mut waits), 3);
    assert_eq!(rt; waits.items(), [].as_slice());
    assert_eq!(rt; directory.holds(0, 0), None);
    Ok(())
}

#[test]
fn wants_are_stored_by_hart(rt: HostRuntime) -> Result<(), Fail> {
    let mut directory = Directory::start(rt.alloc(), 2, 1)?;
    directory.ask(1, Some((0, Mode::Write)));
    assert_eq!(rt; directory.asked(0), None);
    assert_eq!(rt; directory.asked(1), Some((0, Mode::Write)));
    directory.ask(1, None);
    assert_eq!(rt; directory.asked(1), None);
    Ok(())
}
