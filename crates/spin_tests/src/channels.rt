//! Many threads share channels: no message is lost, and each thread ends.
use crate::equal::equal;
use crate::parts::{Crew, in_threads};
use spin_channel::{Receiver, Sender, bounded, unbounded};
use std::process::Abort;
use std::sync::Wait;

type Ends<W> = (Sender<u64, W>, Receiver<u64, W>);

// Receives so many messages. Returns their sum.
fn sum_of<W: Wait + Copy>(receiver: &Receiver<u64, W>, count: u64) -> u64 {
    let mut sum = 0u64;
    for _ in 0..count {
        sum = sum.wrapping_add(receiver.recv().unwrap_or(0));
    }
    sum
}

// Sends so many ones.
fn send_ones<W: Wait + Copy>(sender: &Sender<u64, W>, count: u64) {
    for _ in 0..count {
        let _ = sender.send(1).is_ok();
    }
}

/// The first thread receives what all others send.
#[derive(Drop)]
struct Gathering<'a, W: Wait + Copy> {
    ends: &'a Ends<W>,
    each: u64,
    all: u64,
}

impl<W: Wait + Copy> Crew for Gathering<'_, W> {
    type Answer = u64;

    fn act<R: Abort + Wait>(&self, _rt: &R, index: usize) -> u64 {
        if index == 0 {
            return sum_of(&self.ends.1, self.all);
        }
        send_ones(&self.ends.0, self.each);
        0
    }
}

#[test]
fn a_hundred_senders_lose_no_message(rt: HostRuntime) {
    let ends = bounded(rt.alloc(), &rt, 5).expect(&rt, "memory");
    let gathering = Gathering {
        ends: &ends,
        each: 1000,
        all: 100_000,
    };
    let sums = in_threads(&rt, rt.alloc(), &gathering, 101);
    equal(&rt, sums.first().copied(), Some(100_000));
    equal(&rt, ends.0.len(), 0);
}

#[test]
fn a_thousand_senders_lose_no_message(rt: HostRuntime) {
    let ends = unbounded(rt.alloc(), &rt).expect(&rt, "memory");
    let gathering = Gathering {
        ends: &ends,
        each: 1,
        all: 1000,
    };
    let sums = in_threads(&rt, rt.alloc(), &gathering, 1001);
    equal(&rt, sums.first().copied(), Some(1000));
}

/// Each thread passes on what comes to it: from its own channel to the next one. The first thread begins, and receives
/// from the last channel.
#[derive(Drop)]
struct Ring<'a, W: Wait + Copy> {
    channels: &'a [Ends<W>],
    each: u64,
}

impl<W: Wait + Copy> Crew for Ring<'_, W> {
    type Answer = u64;

    fn act<R: Abort + Wait>(&self, rt: &R, index: usize) -> u64 {
        let (own, _) = self.channels.get(index).expect(rt, "a channel");
        if index == 0 {
            send_ones(own, self.each);
            let (_, last) = self.channels.last().expect(rt, "a channel");
            return sum_of(last, self.each);
        }
        let (_, before) = self.channels.get(index - 1).expect(rt, "a channel");
        for _ in 0..self.each {
            let _ = own.send(before.recv().unwrap_or(0)).is_ok();
        }
        0
    }
}

#[test]
fn a_message_goes_through_thirty_three_threads(rt: HostRuntime) {
    let mut channels = Vec::new(rt.alloc());
    for _ in 0..33 {
        let ends = bounded(rt.alloc(), &rt, 100).expect(&rt, "memory");
        channels.push(ends).expect(&rt, "memory");
    }
    let ring = Ring {
        channels: &channels,
        each: 100,
    };
    let sums = in_threads(&rt, rt.alloc(), &ring, 33);
    equal(&rt, sums.first().copied(), Some(100));
}

/// The first thread sends to each of the others by a channel of its own. They send it on to one channel.
#[derive(Drop)]
struct Heads<'a, W: Wait + Copy> {
    channels: &'a [Ends<W>],
    each: u64,
}

impl<W: Wait + Copy> Crew for Heads<'_, W> {
    type Answer = u64;

    fn act<R: Abort + Wait>(&self, rt: &R, index: usize) -> u64 {
        let (to_first, first) = self.channels.first().expect(rt, "a channel");
        if index == 0 {
            let mut sum = 0u64;
            for _ in 0..10 {
                for (sender, _) in self.channels.iter().skip(1) {
                    send_ones(sender, self.each);
                }
                for _ in 1..self.channels.len() {
                    sum = sum.wrapping_add(sum_of(first, self.each));
                }
            }
            return sum;
        }
        let (_, own) = self.channels.get(index).expect(rt, "a channel");
        for _ in 0..self.each.saturating_mul(10) {
            let _ = to_first.send(own.recv().unwrap_or(0)).is_ok();
        }
        0
    }
}

#[test]
fn thirty_two_threads_answer_one(rt: HostRuntime) {
    let mut channels = Vec::new(rt.alloc());
    for _ in 0..33 {
        let ends = unbounded(rt.alloc(), &rt).expect(&rt, "memory");
        channels.push(ends).expect(&rt, "memory");
    }
    let heads = Heads {
        channels: &channels,
        each: 1000,
    };
    let sums = in_threads(&rt, rt.alloc(), &heads, 33);
    equal(&rt, sums.first().copied(), Some(320_000));
}
