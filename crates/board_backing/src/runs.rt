//! The runs of a board's harts, at their start and by their numbers.

ghost use Rattle.std.specs.Prelude.{◌≡◌, ◌<◌, map, IfOk};
ghost use Rattle.orders_law.specs.Orders.{below};
ghost use Rattle.run_model.specs.Run.{number_of, run_at_start};

use elf_image::Image;
use hart_run::HartRun;
use rv_words::MAX_HARTS;
use shared_types::NoMemory;
use std::alloc::Global;

/// The number of a run's hart.
pub fn number_of(run: &HartRun) -> u8
    requires { number_of run.now < MAX_HARTS }
    ensures { result ≡ number_of run.now }
{
    match run.hart().csr(0xf14) {
        Some(number) => number as u8,
        None => 0,
    }
}

/// A run for each hart, at its start.
#[tactic(auto, using(crate::proofs::FirstRuns::mapped_more))]
pub fn first_runs(alloc: Global, image: &Image, harts: u8) -> Result<Vec<HartRun>, NoMemory>
    ensures { IfOk result (λ v. v.items ≡ map (λ h. run_at_start h harts image.now) (below harts)) }
{
    let Ok(mut runs) = Vec::with_capacity(alloc, usize::from(harts)) else {
        return Err(NoMemory);
    };
    for hart in 0..harts {
        let run = HartRun::start(alloc, hart, harts, image)?;
        let Ok(()) = runs.push(run) else {
            return Err(NoMemory);
        };
    }
    Ok(runs)
}
