//! `Debug` of an `RwLock`, and `Debug` and `Display` of its guards. Begin at `Debug` of the lock. A guard prints its
//! value.
ghost use Rattle.std.specs.Prelude.{Option};
ghost use Rattle.std.specs.Fmt.{DisplaysOnOk};
ghost use Rattle.spin_rwlock.specs.Guards.{shared_value, write_value};
ghost use Rattle.spin_rwlock.specs.Texts.{rw_text, lent_text};

use super::RwLock;
use super::reader::SharedGuard;
use super::rule::Kind;
use super::writer::RwLockWriteGuard;
use spin_core::texts::write_named;
use std::fmt;
use std::fmt::{Debug, Display, Formatter};

/// Tries once to acquire shared access, and keeps it while it prints the value. If the try fails it prints `<locked>`.
/// The try makes one load and at most one compare-exchange.
impl<T: Debug, R> Debug for RwLock<T, R> {
    fn fmt<W: fmt::Write>(&self, f: &mut Formatter<W>) -> fmt::Result
        ensures { (found : Option T) × DisplaysOnOk W.write_str_gives f.old result (rw_text T.debug_output found) f.new }
    {
        let guard = self.try_read_weak();
        let value = guard.as_ref().map(|guard| &**guard);
        write_named("RwLock { data: ", "RwLock { <locked> }", value, f)
    }
}

impl<T: Debug, K: Kind, R> Debug for SharedGuard<'_, T, K, R> {
    ghost debug_output = { λ g. lent_text T.debug_output (shared_value g) };

    fn fmt<W: fmt::Write>(&self, f: &mut Formatter<W>) -> fmt::Result {
        Debug::fmt(&**self, f)
    }
}

impl<T: Display, K: Kind, R> Display for SharedGuard<'_, T, K, R> {
    ghost output = { λ g. lent_text T.output (shared_value g) };

    fn fmt<W: fmt::Write>(&self, f: &mut Formatter<W>) -> fmt::Result {
        Display::fmt(&**self, f)
    }
}

impl<T: Debug, R> Debug for RwLockWriteGuard<'_, T, R> {
    ghost debug_output = { λ g. T.debug_output (write_value g) };

    fn fmt<W: fmt::Write>(&self, f: &mut Formatter<W>) -> fmt::Result {
        Debug::fmt(&**self, f)
    }
}

impl<T: Display, R> Display for RwLockWriteGuard<'_, T, R> {
    ghost output = { λ g. T.output (write_value g) };

    ghost styled_output = { λ g. T.styled_output (write_value g) };

    fn fmt<W: fmt::Write>(&self, f: &mut Formatter<W>) -> fmt::Result {
        Display::fmt(&**self, f)
    }
}
