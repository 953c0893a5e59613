//! `Debug` of a `Once`.
ghost use Rattle.std.specs.Prelude.{Option, codes};
ghost use Rattle.std.specs.Fmt.{DisplaysOnOk};
ghost use Rattle.spin_once.specs.Texts.{once_text};

use super::Once;
use crate::texts::write_once;
use std::fmt;
use std::fmt::{Debug, Formatter};

/// Prints the value that one load finds, or `<uninit>`.
impl<T: Debug, R> Debug for Once<T, R> {
    fn fmt<W: fmt::Write>(&self, f: &mut Formatter<W>) -> fmt::Result
        ensures { (found : Option T) × DisplaysOnOk W.write_str_gives f.old result (once_text (codes "Once") T.debug_output found) f.new }
    {
        write_once("Once(", "Once(<uninit>)", self.get(), f)
    }
}
