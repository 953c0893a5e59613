//! What no contract says: worked examples, that a call succeeds if nothing is refused, and threads that end.
ghost use Rattle.std.specs.Prelude.{◌≡◌, ◌<◌, ◌^◌, sum};

use super::equal::equal;
use spin_examples::ledger::{Accounts, Ledger, Opening, Refused, Transfer, replay, total};
use std::alloc::{Allocator, Global};
use std::marker::Brand;
use std::process::Abort;
use std::sync::Wait;
use std::thread::{Threads, join};

pub fn transfer_of(from: usize, to: usize, amount: u64) -> Transfer {
    Transfer { from, to, amount }
}

/// Compares each account's balance, and the total.
pub fn has_balances<O: Opening, A: Allocator, R: Abort>(
    rt: &R,
    accounts: &Accounts<O, A>,
    told: [u64; 3],
) {
    let [first, second, third] = told;
    equal(rt, accounts.balance(0), Some(first));
    equal(rt, accounts.balance(1), Some(second));
    equal(rt, accounts.balance(2), Some(third));
    equal(rt, accounts.balance(3), None);
    equal(rt, accounts.total(), 120);
}

fn makes_and_refuses<O: Opening, R: Abort>(rt: &R, alloc: Global, balances: Vec<u64>)
    requires opening { balances.items ≡ O.balances }
    requires fits { sum O.balances < 2 ^ 64 }
{
    let mut accounts: Accounts<O> = Accounts::open(alloc, balances);
    for (asked, answer, told) in [
        (transfer_of(0, 2, 30), Ok(()), [70, 20, 30]),
        (transfer_of(0, 2, 71), Err(Refused::TooLittle), [70, 20, 30]),
        (transfer_of(2, 1, 30), Ok(()), [70, 50, 0]),
        (transfer_of(2, 0, 0), Ok(()), [70, 50, 0]),
        (
            transfer_of(3, 0, 0),
            Err(Refused::NoSuchAccount),
            [70, 50, 0],
        ),
        (
            transfer_of(0, 3, 1),
            Err(Refused::NoSuchAccount),
            [70, 50, 0],
        ),
        (transfer_of(1, 1, 50), Ok(()), [70, 50, 0]),
        (transfer_of(1, 1, 51), Err(Refused::TooLittle), [70, 50, 0]),
    ] {
        equal(rt, (asked, accounts.transfer(asked)), (asked, answer));
        has_balances(rt, &accounts, told);
    }
    let made = [
        transfer_of(0, 2, 30),
        transfer_of(2, 1, 30),
        transfer_of(2, 0, 0),
        transfer_of(1, 1, 50),
    ];
    equal(rt, accounts.journal(), made.as_slice());
}

#[test]
fn a_transfer_is_made_whole_or_not_at_all(rt: HostRuntime) {
    let balances = [100, 20, 0].to_vec(rt.alloc()).expect(&rt, "memory");
    makes_and_refuses::<Brand, _>(&rt, rt.alloc(), balances);
}

/// Makes random transfers between random accounts, as many as `turns`. Returns how many succeeded.
fn trades<O: Opening, W: Wait>(rt: &W, ledger: &Ledger<O>, seed: u64, turns: u64) -> u64 {
    let mut random = seed;
    let mut made = 0u64;
    for _turn in 0..turns {
        random ^= random << 13;
        random ^= random >> 7;
        random ^= random << 17;
        let asked = transfer_of(
            (random % 4) as usize,
            (random >> 8) as usize % 4,
            (random >> 16) % 64,
        );
        if ledger.lock(rt).transfer(asked).is_ok() {
            made = made.saturating_add(1);
        }
    }
    made
}

fn trades_in_two<O: Opening + Send + Sync, R: Abort + Threads + Wait + Sync>(
    rt: &R,
    alloc: Global,
    opening: &[u64],
    balances: Vec<u64>,
)
    requires opening { balances.items ≡ O.balances }
    requires same { opening.now ≡ O.balances }
    requires fits { sum O.balances < 2 ^ 64 }
{
    let ledger: Ledger<O> = Ledger::new(Accounts::open(alloc, balances));
    let (left, right) = join(
        rt,
        || trades(rt, &ledger, 88_172_645_463_325_252, 2000),
        || trades(rt, &ledger, 362_436_069, 2000),
    );
    equal(rt, total(rt, &ledger), 120);
    let accounts = ledger.into_inner();
    equal(
        rt,
        accounts.journal().len() as u64,
        left.saturating_add(right),
    );
    equal(rt, 0 < left && 0 < right, true);
    let replayed = replay(alloc, opening, accounts.journal()).expect(rt, "memory");
    for (account, found) in replayed.iter().enumerate() {
        equal(rt, accounts.balance(account), Some(*found));
    }
}

#[test]
fn threads_trade_and_leave_the_total(rt: HostRuntime) {
    let opening = [100, 20, 0];
    let balances = opening.to_vec(rt.alloc()).expect(&rt, "memory");
    trades_in_two::<Brand, _>(&rt, rt.alloc(), &opening, balances);
}
