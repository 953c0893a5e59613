//! What a mutex or a read-write lock prints. Begin at [`write_lock`].
ghost use Rattle.std.specs.Fmt.{DisplaysOnOk};
ghost use Rattle.std.specs.Option.{option_copied};
ghost use Rattle.spin_core.specs.Texts.{lock_text, named_text};

use std::fmt;
use std::fmt::{Debug, Formatter};

/// Writes a mutex with this value. Without a value it writes `<locked>`: the caller tried to acquire the lock
/// once, and failed.
///
/// The text says `Mutex` for each type of mutex that uses this function, as in the Rust crate.
///
/// # Contract
/// Without formatting options, a call that returns `Ok` has written `lock_text` of the value.
pub fn write_lock<T: Debug, W: fmt::Write>(value: Option<&T>, f: &mut Formatter<W>) -> fmt::Result
    ensures { DisplaysOnOk W.write_str_gives f.old result (lock_text T.debug_output (option_copied value.entry)) f.new }
{
    write_named("Mutex { data: ", "Mutex { <locked> }", value, f)
}

/// Writes a lock. With a value it writes `shown`, the value and ` }`; without one it writes `locked`.
///
/// # Contract
/// Without formatting options, a call that returns `Ok` has written `named_text` of the arguments.
pub fn write_named<T: Debug, W: fmt::Write>(
    shown: &str,
    locked: &str,
    value: Option<&T>,
    f: &mut Formatter<W>,
) -> fmt::Result
    ensures { DisplaysOnOk W.write_str_gives f.old result (named_text shown.now locked.now T.debug_output (option_copied value.entry)) f.new }
{
    let Some(value) = value else {
        return f.write_str(locked);
    };
    f.write_str(shown)?;
    Debug::fmt(value, f)?;
    f.write_str(" }")
}
