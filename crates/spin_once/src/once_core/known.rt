//! A value that is proved to exist, so that reading it needs no test.
ghost use Rattle.std.specs.Prelude.{◌≡◌, IsSome, IsSomeAnd, IfSome};
ghost use Rattle.std.specs.Ptr.{as_ptr};

use std::ptr;

/// Returns the value, which is proved to exist. A null address may not be read, so the compiler leaves out the test.
pub(super) fn known<'a, T>(value: Option<&'a T>) -> &'a T
    requires { IsSome value }
    ensures { IfSome value.entry (λ there. result.now ≡ there.now) }
{
    at(value, address(value))
}

/// Returns the address of the value, or null.
fn address<T>(value: Option<&T>) -> *const T
    ensures { IfSome value.entry (λ there. result ≡ as_ptr there) }
{
    match value {
        Some(value) => ptr::from_ref(value),
        None => ptr::null(),
    }
}

/// Returns the value at this address.
fn at<'a, T>(value: Option<&'a T>, address: *const T) -> &'a T
    requires { IsSomeAnd value (λ there. address ≡ as_ptr there) }
    ensures { IfSome value.entry (λ there. result.now ≡ there.now) }
{
    let _ = value;
    unsafe { &*address }
}
