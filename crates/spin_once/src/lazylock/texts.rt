//! `Debug` of a `LazyLock`.
ghost use Rattle.std.specs.Prelude.{Option, codes};
ghost use Rattle.std.specs.Fmt.{DisplaysOnOk};
ghost use Rattle.spin_once.specs.Texts.{once_text};

use super::{LazyLock, Promise};
use crate::texts::write_once;
use std::fmt;
use std::fmt::{Debug, Formatter};

/// Prints the value that one load finds, or `<uninit>`. It never runs the initialiser.
impl<T: Debug, F, R, M: Promise<T>> Debug for LazyLock<T, F, R, M> {
    fn fmt<W: fmt::Write>(&self, f: &mut Formatter<W>) -> fmt::Result
        ensures { (found : Option T) × DisplaysOnOk W.write_str_gives f.old result (once_text (codes "LazyLock") T.debug_output found) f.new }
    {
        let (found, _pass) = Self::pass(self).get();
        write_once("LazyLock(", "LazyLock(<uninit>)", found, f)
    }
}
