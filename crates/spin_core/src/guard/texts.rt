//! `Debug` and `Display` of a guard, which print its value. Begin at `Debug`.
ghost use Rattle.spin_core.specs.Guard.{guard_value};

use super::{Guard, Release};
use crate::cell::WritePermit;
use std::fmt;
use std::fmt::{Debug, Display, Formatter};

impl<T: Debug, V, E, P: Release<T, V>, R> Debug for Guard<WritePermit<'_, T, V, P>, E, R> {
    ghost debug_output = { λ g. T.debug_output (guard_value g) };

    fn fmt<W: fmt::Write>(&self, f: &mut Formatter<W>) -> fmt::Result {
        Debug::fmt(&**self, f)
    }
}

impl<T: Display, V, E, P: Release<T, V>, R> Display for Guard<WritePermit<'_, T, V, P>, E, R> {
    ghost output = { λ g. T.output (guard_value g) };

    ghost styled_output = { λ g. T.styled_output (guard_value g) };

    fn fmt<W: fmt::Write>(&self, f: &mut Formatter<W>) -> fmt::Result {
        Display::fmt(&**self, f)
    }
}
