//! `Once` and `LazyLock`, and proved callers.
mod calls;
mod lazylock;
mod threads;
mod waits;
