//! Callers of one cache, in one thread and in several.
ghost use Rattle.std.specs.Prelude.{◌≡◌, ◌==◌, ◌*◌, ◌%◌, ◌^◌, true, map, string_bytes, IfOk};
ghost use Rattle.std.specs.Char.{to_ascii_uppercase};
ghost use Rattle.std.specs.Str.{bytes_eq};
ghost use Rattle.std.proofs.Common.{rules};

use super::equal::equal;
use super::parts::{Crew, in_threads};
use spin_core::relax::{RelaxStrategy, Yield};
use spin_examples::cache::logged::LoggedCache;
use spin_examples::cache::{Answers, Cache};
use spin_history::history::{BlankLog, History, Snapshot};
use std::alloc::{AllocError, Global};
use std::cell::Cell;
use std::marker::Brand;
use std::process::Abort;
use std::sync::Wait;
use std::sync::atomic::AtomicU64;
use std::sync::atomic::Ordering::SeqCst;
use std::thread::{Threads, join};

const KEYS: u64 = 100;

/// The square of the key, modulo 2^64.
pub struct Squares;

impl Answers for Squares {
    type Key = u64;

    type Value = u64;

    ghost may = { λ key value. value == (key * key) % 2 ^ 64 };

    ghost respects_eq = { Prim.search rules };

    ghost respects_clone = { Prim.search rules };
}

pub type SquareCache = Cache<Squares, Global, Yield>;

// What a caller knows of an answer, whichever thread made it. The call counts the squares that it had to make itself.
pub fn square<W: Wait>(
    rt: &W,
    cache: &SquareCache,
    key: u64,
    made: &Cell<u64>,
) -> Result<u64, AllocError>
    ensures { IfOk result (λ value. value ≡ (key * key) % 2 ^ 64) }
{
    cache.answer(rt, key, |key| {
        made.set(made.get().wrapping_add(1));
        Ok(key.wrapping_mul(*key))
    })
}

/// Threads that ask for all squares. Each counts the squares that it makes.
#[derive(Drop)]
struct AskForAll {
    cache: SquareCache,
    made: AtomicU64,
}

impl Crew for AskForAll {
    type Answer = bool;

    // Returns whether all answers were right.
    fn act<R: Abort + Wait>(&self, rt: &R, _index: usize) -> bool {
        let made = Cell::new(0);
        let mut right = true;
        for key in 0..KEYS {
            right &= square(rt, &self.cache, key, &made).expect(rt, "memory") == key * key;
        }
        self.made.fetch_add(made.get(), SeqCst);
        right
    }
}

#[test]
fn threads_make_each_answer_once(rt: HostRuntime) {
    let both = AskForAll {
        cache: Cache::new(rt.alloc()),
        made: AtomicU64::new(0),
    };
    let right = in_threads(&rt, rt.alloc(), &both, 2);
    equal(&rt, right.as_slice(), [true; 2].as_slice());
    equal(&rt, both.made.load(SeqCst), KEYS);
}

/// Threads that read a square that exists.
#[derive(Drop)]
struct Readers<'a>(&'a SquareCache);

impl Crew for Readers<'_> {
    type Answer = Option<u64>;

    fn act<R: Abort + Wait>(&self, rt: &R, _index: usize) -> Option<u64> {
        self.0.read(rt).answer(&3).copied()
    }
}

// If readers waited for the maker of an answer, they would wait for ever, since this maker waits for the readers.
#[test]
fn readers_come_while_an_answer_is_made(rt: HostRuntime) {
    let cache: SquareCache = Cache::new(rt.alloc());
    equal(&rt, square(&rt, &cache, 3, &Cell::new(0)), Ok(9));
    let answer: Result<u64, AllocError> = cache.answer(&rt, 4, |key| {
        let found = in_threads(&rt, rt.alloc(), &Readers(&cache), 2);
        equal(&rt, found.as_slice(), [Some(9); 2].as_slice());
        Ok(key.wrapping_mul(*key))
    });
    equal(&rt, answer, Ok(16));
    equal(&rt, cache.read(&rt).answer(&4).copied(), Some(16));
}

/// A thread that asks for the square of 3, which exists, and a thread that looks whether the first one gets it.
#[derive(Drop)]
struct AskedMeanwhile<'a> {
    cache: &'a SquareCache,
    done: AtomicU64,
}

impl Crew for AskedMeanwhile<'_> {
    type Answer = bool;

    fn act<R: Abort + Wait>(&self, rt: &R, index: usize) -> bool {
        if index == 0 {
            let answer = square(rt, self.cache, 3, &Cell::new(0));
            self.done.store(1, SeqCst);
            return answer == Ok(9);
        }
        for _ in 0..100_000 {
            if self.done.load(SeqCst) == 1 {
                return true;
            }
            Yield::relax(rt);
        }
        // If the first thread is not done yet, it waits for the maker of an answer, which waits for this thread. Then
        // the test fails here.
        equal(rt, self.done.load(SeqCst), 1);
        false
    }
}

// If a caller took the upgradable place just to look for an answer, it would wait for the maker of another.
#[test]
fn an_answer_is_given_while_another_is_made(rt: HostRuntime) {
    let cache: SquareCache = Cache::new(rt.alloc());
    equal(&rt, square(&rt, &cache, 3, &Cell::new(0)), Ok(9));
    let answer: Result<u64, AllocError> = cache.answer(&rt, 4, |key| {
        let both = AskedMeanwhile {
            cache: &cache,
            done: AtomicU64::new(0),
        };
        let answered = in_threads(&rt, rt.alloc(), &both, 2);
        equal(&rt, answered.as_slice(), [true; 2].as_slice());
        Ok(key.wrapping_mul(*key))
    });
    equal(&rt, answer, Ok(16));
}

/// The name in capitals.
struct Shouts;

impl Answers for Shouts {
    type Key = String;

    type Value = String;

    ghost may = { λ key value. bytes_eq (string_bytes value) (map to_ascii_uppercase (string_bytes key)) };

    ghost respects_eq = { Prim.search rules };

    ghost respects_clone = { Prim.search rules };
}

fn shout<W: Wait>(
    rt: &W,
    cache: &Cache<Shouts>,
    alloc: Global,
    name: &str,
) -> Result<String, AllocError>
    ensures { IfOk result (λ shouted. string_bytes shouted ≡ map to_ascii_uppercase name.now) }
{
    let key = String::from_str(alloc, name)?;
    cache.answer(rt, key, |key| key.to_ascii_uppercase(alloc))
}

#[test]
fn a_cache_of_texts(rt: HostRuntime) {
    let cache = Cache::new(rt.alloc());
    for name in ["ada", "grace", "ada"] {
        let shouted = shout(&rt, &cache, rt.alloc(), name).expect(&rt, "memory");
        let wanted = name.to_ascii_uppercase(rt.alloc()).expect(&rt, "memory");
        equal(&rt, shouted, wanted);
    }
}

/// Any number may be the answer for a key.
struct Numbers;

impl Answers for Numbers {
    type Key = u64;

    type Value = u64;

    ghost may = { λ key value. true };

    ghost respects_eq = { Prim.search rules };

    ghost respects_clone = { Prim.search rules };
}

type NumberCache<H> = LoggedCache<Numbers, H, Global, Yield>;

// Asks twice, each time with another number to return. Both answers are the same number, whatever other threads do.
fn ask_twice<H: History, W: Wait>(
    rt: &W,
    cache: &NumberCache<H>,
    key: u64,
    numbers: (u64, u64),
    seen: &mut Snapshot<(u64, u64), H>,
) -> Result<(u64, u64), AllocError>
    ensures { IfOk result (λ found. found.0 ≡ found.1) }
{
    let first: Result<u64, AllocError> = cache.answer(rt, key, |_| Ok(numbers.0), seen);
    let second: Result<u64, AllocError> = cache.answer(rt, key, |_| Ok(numbers.1), seen);
    Ok((first?, second?))
}

fn ask_twice_in_two<H: History + Send + Sync, W: Abort + Threads + Wait + Sync>(
    rt: &W,
    alloc: Global,
    blank: BlankLog,
)
    requires { blank.name ≡ H.name }
{
    let log = blank.open::<(u64, u64), H>();
    let mut seen = log.snapshot();
    let cache: NumberCache<H> = LoggedCache::new(alloc, log);
    let lent = &cache;
    let (one, other) = (seen.copy(), seen.copy());
    let (first, second) = join(
        rt,
        move || {
            let mut seen = one;
            ask_twice(rt, lent, 3, (1, 2), &mut seen).expect(rt, "memory")
        },
        move || {
            let mut seen = other;
            ask_twice(rt, lent, 3, (3, 4), &mut seen).expect(rt, "memory")
        },
    );
    equal(rt, second, first);
    let reader = cache.read(rt);
    let found = reader.answer(&3, &mut seen).copied();
    equal(rt, found, Some(first.0));
}

// The later thread finds the other thread's number twice, though its own closure would return another number each time.
#[test]
fn an_answer_that_a_thread_saw_stays(rt: HostRuntime) {
    ask_twice_in_two::<Brand, HostRuntime>(&rt, rt.alloc(), BlankLog::new());
}
