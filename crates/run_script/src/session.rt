//! A port that is woken and serves the commands of a script.
ghost use Rattle.std.specs.Prelude.{◌≡◌, map, IfOk};
ghost use Rattle.chip.specs.declared.state.Phase.TheVariants.{Unwoken};
ghost use Rattle.script.specs.Scripts.{placed_instructions};
ghost use Rattle.runs.specs.Serving.{came};
ghost use Rattle.run_script.specs.Sessions.{Session};

use crate::asking::calls;
use chip::Chip;
use port::UnwokenPort;
use runs::{Response, serve};
use script::Placed;
use std::alloc::{AllocError, Global};

/// What comes of each command, over a chip that is not woken yet.
pub(crate) fn session<C: Chip + Drop>(
    alloc: Global,
    chip: C,
    commands: &[Placed<'_>],
) -> Result<Vec<Response>, AllocError>
    requires { (C.Chip.meaning chip).state.phase ≡ Unwoken }
    ensures { IfOk result (λ responses. Session C.Chip.meaning C.Chip.gives chip
        (placed_instructions commands.now) (map came responses.items)) }
{
    let calls = calls(alloc, commands)?;
    let mut responses = Vec::with_capacity(alloc, calls.len())?;
    let (mut port, _) = UnwokenPort::new(chip).unwrap().wake();
    serve(alloc, &mut port, &calls, &mut responses)?;
    Ok(responses)
}
