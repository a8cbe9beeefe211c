//! A replay by a list of harts.

ghost use Rattle.std.specs.Prelude.{◌≡◌, length, IfOk, OnErr};
ghost use Rattle.replay_core.specs.Lists.{AreHarts, FollowsList};

use crate::stage::Stage;
use crate::went::Went;
use shared_types::NoMemory;
use std::alloc::Global;

/// One item of each hart of the list, and what came of each, as many as there is place for.
fn go_along(stage: &mut Stage, list: &[u8], answers: &mut [Went])
    requires harts { AreHarts stage.old.board.log list.now }
    requires places { length answers.old ≡ length list.now }
    ensures { FollowsList stage.old stage.new list.now answers.new }
{
    for place in 0..list.len() {
        answers[place] = stage.go(list[place]);
    }
}

/// One item of each hart of the list, and what came of each. The memory for that is taken first: where it is refused
/// nothing is changed.
pub fn replay_list(alloc: Global, stage: &mut Stage, list: &[u8]) -> Result<Vec<Went>, NoMemory>
    requires { AreHarts stage.old.board.log list.now }
    ensures follows { IfOk result (λ answers. FollowsList stage.old stage.new list.now answers.items) }
    ensures refused { OnErr result (stage.new ≡ stage.old) }
{
    let Ok(mut answers) = Vec::from_elem(alloc, Went::Ended, list.len()) else {
        return Err(NoMemory);
    };
    go_along(stage, list, &mut answers);
    Ok(answers)
}
