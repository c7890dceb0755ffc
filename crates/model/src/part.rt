//! The two parts: a make as a type.

ghost use Rattle.frame.specs.declared.make.Make.{Make};
ghost use Rattle.frame.specs.declared.make.Make.TheVariants.{A, S};

use frame::Make;

/// A part: its make as a type.
pub trait Part {
    ghost MAKE: { Make };

    const MAKE: Make;
}

/// The APS12808L-3OBM.
pub struct PartA;

/// The SCB18X128800AF in its 8-bit mode.
pub struct PartS;

impl Part for PartA {
    ghost MAKE = { A };

    const MAKE: Make = Make::A;
}

impl Part for PartS {
    ghost MAKE = { S };

    const MAKE: Make = Make::S;
}
