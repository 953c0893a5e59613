//! `Debug` of a `FairMutex`. Begin at its `fmt`.
ghost use Rattle.std.specs.Prelude.{Option};
ghost use Rattle.std.specs.Fmt.{DisplaysOnOk};
ghost use Rattle.spin_fair.specs.Texts.{fair_text};

use super::FairMutex;
use spin_core::texts::write_named;
use std::fmt;
use std::fmt::{Debug, Formatter};

/// Tries once to acquire the lock, and holds it while it writes the value. If the try fails it writes `<locked>` in
/// place of the value.
impl<T: Debug, R> Debug for FairMutex<T, R> {
    fn fmt<W: fmt::Write>(&self, f: &mut Formatter<W>) -> fmt::Result
        ensures { (found : Option T) × DisplaysOnOk W.write_str_gives f.old result (fair_text T.debug_output found) f.new }
    {
        write_named(
            "FairMutex { data: ",
            "FairMutex { data: <locked> }",
            self.try_lock().as_ref().map(|guard| &**guard),
            f,
        )
    }
}
