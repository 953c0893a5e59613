//! How `{:?}` prints a value that is made once: `Debug` of [`Once`](crate::once::Once) and of
//! [`LazyLock`](crate::lazylock::LazyLock).
ghost use Rattle.std.specs.Fmt.{DisplaysOnOk};
ghost use Rattle.std.specs.Option.{option_copied};
ghost use Rattle.spin_once.specs.Texts.{made_text};

use std::fmt;
use std::fmt::{Debug, Formatter};

/// Writes `shown`, the value that a load found, and `)`. Without a value it writes `empty`.
pub(crate) fn write_once<T: Debug, W: fmt::Write>(
    shown: &str,
    empty: &str,
    value: Option<&T>,
    f: &mut Formatter<W>,
) -> fmt::Result
    ensures { DisplaysOnOk W.write_str_gives f.old result (made_text shown.now empty.now T.debug_output (option_copied value.entry)) f.new }
{
    let Some(value) = value else {
        return f.write_str(empty);
    };
    f.write_str(shown)?;
    Debug::fmt(value, f)?;
    f.write_str(")")
}
