//! Sends and receives over channels, where some call may be refused memory. Then it ends as a program without memory
//! does, if the channel was left as it was: a message that was refused came back, and all messages came, in order.
#![tactic(auto)]

use spin_channel::{Receiver, SendError, Sender, bounded, unbounded};
use std::alloc::{AllocError, Global};
use std::process::ExitCode;
use std::sync::Wait;

/// Passes the numbers below `count` through a new channel: sends each, receives the first, and drains the rest. What is
/// refused is tried again. Returns how often memory was refused, if all is well.
fn pass<W: Wait + Copy>(
    ends: Result<(Sender<u64, W>, Receiver<u64, W>), AllocError>,
    alloc: Global,
    count: u64,
) -> Option<u64> {
    let Ok((sender, receiver)) = ends else {
        return Some(1);
    };
    let mut refused = 0u64;
    for number in 0..count {
        match sender.send(number) {
            Ok(()) => {}
            Err(SendError::OutOfMemory(message)) if message == number => {
                refused = refused.saturating_add(1);
                sender.send(message).ok()?;
            }
            Err(_) => return None,
        }
    }
    let first = receiver.recv().ok()?;
    let (messages, again) = match receiver.drain(alloc) {
        Ok(messages) => (messages, 0),
        Err(AllocError) => (receiver.drain(alloc).ok()?, 1),
    };
    let mut number = 1u64;
    for message in messages {
        if message != number {
            return None;
        }
        number = number.saturating_add(1);
    }
    if first == 0 && number == count {
        Some(refused.saturating_add(again))
    } else {
        None
    }
}

fn main(rt: HostRuntime) -> ExitCode {
    let alloc = rt.alloc();
    match (
        pass(bounded(alloc, rt, 5), alloc, 5),
        pass(unbounded(alloc, rt), alloc, 40),
    ) {
        (Some(0), Some(0)) => ExitCode::SUCCESS,
        (Some(_), Some(_)) => {
            let _ = eprintln!(rt; "out of memory").is_ok();
            ExitCode::FAILURE
        }
        _ => ExitCode::from(2),
    }
}
