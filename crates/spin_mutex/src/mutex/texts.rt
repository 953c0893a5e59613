//! `Debug` of a `Mutex`.
ghost use Rattle.std.specs.Prelude.{Option};
ghost use Rattle.std.specs.Fmt.{DisplaysOnOk};
ghost use Rattle.spin_core.specs.Texts.{lock_text};

use super::Mutex;
use std::fmt;
use std::fmt::{Debug, Formatter};

/// Prints what the inner lock prints.
impl<T: Debug, R> Debug for Mutex<T, R> {
    fn fmt<W: fmt::Write>(&self, f: &mut Formatter<W>) -> fmt::Result
        ensures { (found : Option T) × DisplaysOnOk W.write_str_gives f.old result (lock_text T.debug_output found) f.new }
    {
        Debug::fmt(&self.inner, f)
    }
}
