//! Three threads with a pass each. Once they have joined, the passes know one history of the seats.
ghost use Rattle.std.specs.Prelude.{◌≡◌, ◌⊎◌, IfErr};
ghost use mathlib.Core.List.{IsPrefix};
ghost use Rattle.spin_seats.specs.Passes.{◌⨾◌, history, lock_of, name_of, Calls};
ghost use Rattle.spin.specs.Answers.{Granted, Refused, Done};
ghost use Rattle.spin_seats.specs.declared.calls.SeatsCall.TheVariants.{Enter, TryEnter, Leave};

use super::super::equal::equal;
use spin_seats::seats::{Pass, Seats};
use std::sync::Wait;
use std::thread::{Threads, join};

// Takes a seat and leaves it, once.
fn sit_once<'a, W: Wait>(rt: &W, pass: Pass<'a, 2>) -> Pass<'a, 2>
    ensures sat { (Calls 2 Enter Granted ⨾ Calls 2 Leave Done) pass.entry result }
    ensures lock { lock_of result ≡ lock_of pass.entry }
{
    pass.enter(rt).leave()
}

// Tries once to take a seat, which it leaves at once.
fn try_a_seat<'a, W: Wait>(rt: &W, pass: Pass<'a, 2>) -> Result<Pass<'a, 2>, Pass<'a, 2>>
    ensures { IfErr result (Calls 2 TryEnter Refused pass.entry) }
{
    match pass.try_enter(rt) {
        Ok(seat) => Ok(seat.leave()),
        Err(pass) => Err(pass),
    }
}

// Two threads sit, and a third one counts. Of any two of them, one knows a prefix of the history that the other
// knows.
fn sit_beside_count<'a, W: Threads + Wait + Sync>(
    rt: &W,
    seats: &'a Seats<2>,
) -> ((Pass<'a, 2>, Pass<'a, 2>), (usize, Pass<'a, 2>))
    ensures visits { IsPrefix (history result.0.0) (history result.0.1) ⊎ IsPrefix (history result.0.1) (history result.0.0) }
    ensures first { IsPrefix (history result.0.0) (history result.1.1) ⊎ IsPrefix (history result.1.1) (history result.0.0) }
    ensures second { IsPrefix (history result.0.1) (history result.1.1) ⊎ IsPrefix (history result.1.1) (history result.0.1) }
{
    let all = join(
        rt,
        || -> (Pass<'_, 2>, Pass<'_, 2>)
            ensures { (lock_of result.0 ≡ name_of seats.entry.now) × (lock_of result.1 ≡ name_of seats.entry.now) }
        {
            join(
                rt,
                || -> Pass<'_, 2>
                    ensures { lock_of result ≡ name_of seats.entry.now }
                { sit_once(rt, seats.pass()) },
                || -> Pass<'_, 2>
                    ensures { lock_of result ≡ name_of seats.entry.now }
                { sit_once(rt, seats.pass()) },
            )
        },
        || -> (usize, Pass<'_, 2>)
            ensures { lock_of result.1 ≡ name_of seats.entry.now }
        { seats.pass().count() },
    );
    all.0.0.compare(&all.0.1);
    all.0.0.compare(&all.1.1);
    all.0.1.compare(&all.1.1);
    all
}

#[test]
fn passes_know_one_history(rt: HostRuntime) {
    let seats: Seats<2> = Seats::new();
    let ((first, second), (count, third)) = sit_beside_count(&rt, &seats);
    let (first, second) = (first.enter(&rt), second.enter(&rt));
    let (taken, third) = third.count();
    equal(&rt, (count <= 2, taken), (true, 2));
    let third = try_a_seat(&rt, third).err().expect(&rt, "all are taken");
    drop(first.leave());
    drop(try_a_seat(&rt, third).ok().expect(&rt, "one is free"));
    drop(second);
    equal(&rt, seats.count(), 0);
}
