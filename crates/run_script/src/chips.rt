//! The chip of an opening, and what comes of commands over it.
ghost use Rattle.std.specs.Prelude.{◌≡◌, map, IfOk};
ghost use Rattle.model.specs.Contents.{contents};
ghost use Rattle.script.specs.Openings.{fields_of, FieldsFit, stack_fits};
ghost use Rattle.script.specs.Scripts.{placed_instructions};
ghost use Rattle.script.specs.declared.opening.Stack.TheVariants.{Plain, Keyed};
ghost use Rattle.runs.specs.Serving.{came};
ghost use Rattle.run_script.specs.Chips.{IsModelOf};
ghost use Rattle.run_script.specs.Sessions.{SessionBy, SessionOf};

use crate::session::session;
use frame::Make;
use model::{Model, Part, PartA, PartS};
use runs::Response;
use scrambler::Scrambler;
use script::{Opening, Placed, Stack};
use std::alloc::{AllocError, Global};

// The model of an opening, over a store of zeros.
fn model<P: Part>(alloc: Global, opening: &Opening) -> Result<Model<P>, AllocError>
    requires make { opening.now.make ≡ P.MAKE }
    requires fits { FieldsFit (fields_of opening.now) }
    ensures { IfOk result (λ m. IsModelOf (fields_of opening.now) (contents m.device)) }
{
    let size = usize::from(opening.pages) * P::MAKE.page() as usize;
    let store = vec![in alloc; 0; size]?;
    let Opening {
        clock,
        refresh_word,
        strobe_count,
        ..
    } = *opening;
    let model = Model::new(store, clock.khz, clock.range, refresh_word, strobe_count);
    Ok(model.unwrap())
}

// What comes of each command over the bare model.
fn over_model<P: Part>(
    alloc: Global,
    opening: &Opening,
    commands: &[Placed<'_>],
) -> Result<Vec<Response>, AllocError>
    requires make { opening.now.make ≡ P.MAKE }
    requires fits { FieldsFit (fields_of opening.now) }
    ensures { IfOk result (λ responses. SessionBy Plain (fields_of opening.now)
        (placed_instructions commands.now) (map came responses.items)) }
{
    let model = model::<P>(alloc, opening)?;
    session(alloc, model, commands)
}

// The same over a scrambler with this key, over a window that hides the first page.
fn over_stack<P: Part>(
    alloc: Global,
    opening: &Opening,
    key: [u8; 16],
    commands: &[Placed<'_>],
) -> Result<Vec<Response>, AllocError>
    requires make { opening.now.make ≡ P.MAKE }
    requires fits { FieldsFit (fields_of opening.now) }
    requires stack { opening.now.stack ≡ Keyed key }
    ensures { IfOk result (λ responses. SessionBy (Keyed key) (fields_of opening.now)
        (placed_instructions commands.now) (map came responses.items)) }
{
    let model = model::<P>(alloc, opening)?;
    let stack = Scrambler::over_window(model, 1, key).unwrap();
    session(alloc, stack, commands)
}

// What comes of each command over the stack of an opening.
fn over_part<P: Part>(
    alloc: Global,
    opening: &Opening,
    commands: &[Placed<'_>],
) -> Result<Vec<Response>, AllocError>
    requires make { opening.now.make ≡ P.MAKE }
    requires fits { FieldsFit (fields_of opening.now) }
    ensures { IfOk result (λ responses. SessionOf (fields_of opening.now)
        (placed_instructions commands.now) (map came responses.items)) }
{
    match opening.stack {
        Stack::Plain => over_model::<P>(alloc, opening, commands),
        Stack::Keyed(key) => over_stack::<P>(alloc, opening, key, commands),
    }
}

/// What comes of each command over the chip of an opening.
pub(crate) fn responses(
    alloc: Global,
    opening: &Opening,
    commands: &[Placed<'_>],
) -> Result<Vec<Response>, AllocError>
    requires { FieldsFit (fields_of opening.now) }
    ensures { IfOk result (λ responses. SessionOf (fields_of opening.now)
        (placed_instructions commands.now) (map came responses.items)) }
{
    match opening.make {
        Make::A => over_part::<PartA>(alloc, opening, commands),
        Make::S => over_part::<PartS>(alloc, opening, commands),
    }
}
