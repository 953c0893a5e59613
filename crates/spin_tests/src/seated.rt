//! Tests of the seated locks and of their callers: what no contract says of them.
mod callers;
mod calls;
mod readers;
