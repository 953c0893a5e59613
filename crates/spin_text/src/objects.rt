//! How the calls of each object are spelled, and how its words are printed. Begin with [`Spelled`].
ghost use Rattle.std.specs.Prelude.{◌≡◌, ◌∷◌, [], List, ℕ, Option};
ghost use Rattle.spin_text.specs.Spelling.{Calls};
ghost use Rattle.spin_text.specs.Reading.{words_left, numbers_of, read_try_call_once};
ghost use Rattle.spin_text.specs.Readable.{ReadsCalls};

use crate::words::{Rest, is_over, is_word, named, only_named, only_number, word};
use spin_world::{
    Answer, BarrierCall, BarrierObject, BarrierWords, Fair, FairCall, Flag, FlagCall, Object,
    OnceCall, OnceObject, Rw, RwCall, Ticket, TicketCall, TicketWords,
};

/// An object whose schedules can be written as text.
pub trait Spelled: Object<Value = u64, Answer = Answer<u64>> {
    /// How the calls are spelled.
    ghost calls: { Calls Self.Call };

    /// The call that the words of a line spell.
    ghost read: { List (List ℕ) → Option Self.Call };

    /// Returns the call that the rest of a line spells, or `None` if it spells no call.
    ///
    /// # Contract
    /// The call is the one that `read` finds in the words left.
    fn call(line: Rest) -> Option<Self::Call>
        ensures { result ≡ read (words_left line.entry) };

    /// Returns the object's words as one number or two.
    ///
    /// # Contract
    /// The result has the `numbers` of the object's machine.
    fn numbers(words: Self::Words) -> (u64, Option<u64>)
        ensures { (object : Self) → (Self.machine object).numbers words ≡ numbers_of result };

    /// States that reading a call inverts its spelling.
    fn reads_calls()
        ensures { ReadsCalls calls read };
}

/// The calls of a flag, each with its word, in the order of the variants.
pub const FLAG_CALLS: [(&[u8], FlagCall); 5] = [
    (b"lock", FlagCall::Lock),
    (b"try_lock", FlagCall::TryLock),
    (b"try_lock_weak", FlagCall::TryLockWeak),
    (b"is_locked", FlagCall::IsLocked),
    (b"release", FlagCall::Release),
];

impl Spelled for Flag<u64> {
    ghost use Rattle.spin_text.specs.Objects.{flag_call_words, without_numbers};
    ghost use Rattle.spin_text.specs.Reading.{by_word, only_named};
    ghost use Rattle.spin_text.specs.declared.objects.TheConstants.{FLAG_CALLS};

    ghost calls = { without_numbers flag_call_words };

    ghost read = { only_named (by_word FLAG_CALLS) };

    fn reads_calls() {}

    fn call(line: Rest) -> Option<FlagCall> {
        only_named(&FLAG_CALLS, line)
    }

    fn numbers(words: bool) -> (u64, Option<u64>) {
        (u64::from(words), None)
    }
}

/// The calls of a ticket lock, each with its word, in the order of the variants.
pub const TICKET_CALLS: [(&[u8], TicketCall); 4] = [
    (b"lock", TicketCall::Lock),
    (b"try_lock", TicketCall::TryLock),
    (b"is_locked", TicketCall::IsLocked),
    (b"release", TicketCall::Release),
];

impl Spelled for Ticket<u64> {
    ghost use Rattle.spin_text.specs.Objects.{ticket_call_words, without_numbers};
    ghost use Rattle.spin_text.specs.Reading.{by_word, only_named};
    ghost use Rattle.spin_text.specs.declared.objects.TheConstants.{TICKET_CALLS};

    ghost calls = { without_numbers ticket_call_words };

    ghost read = { only_named (by_word TICKET_CALLS) };

    fn reads_calls() {}

    fn call(line: Rest) -> Option<TicketCall> {
        only_named(&TICKET_CALLS, line)
    }

    fn numbers(words: TicketWords) -> (u64, Option<u64>) {
        (words.next, Some(words.serving))
    }
}

/// The calls of a read-write lock, each with its word, in the order of the variants.
pub const RW_CALLS: [(&[u8], RwCall); 16] = [
    (b"try_read", RwCall::TryRead),
    (b"read", RwCall::Read),
    (b"try_upgradeable_read", RwCall::TryUpgradeableRead),
    (b"upgradeable_read", RwCall::UpgradeableRead),
    (b"try_write", RwCall::TryWrite),
    (b"try_write_weak", RwCall::TryWriteWeak),
    (b"write", RwCall::Write),
    (b"reader_count", RwCall::ReaderCount),
    (b"writer_count", RwCall::WriterCount),
    (b"is_locked", RwCall::IsLocked),
    (b"try_upgrade", RwCall::TryUpgrade),
    (b"try_upgrade_weak", RwCall::TryUpgradeWeak),
    (b"upgrade", RwCall::Upgrade),
    (b"downgrade", RwCall::Downgrade),
    (b"downgrade_to_upgradeable", RwCall::DowngradeToUpgradeable),
    (b"release", RwCall::Release),
];

impl Spelled for Rw<u64> {
    ghost use Rattle.spin_text.specs.Objects.{rw_call_words, without_numbers};
    ghost use Rattle.spin_text.specs.Reading.{by_word, only_named};
    ghost use Rattle.spin_text.specs.declared.objects.TheConstants.{RW_CALLS};

    ghost calls = { without_numbers rw_call_words };

    ghost read = { only_named (by_word RW_CALLS) };

    fn reads_calls() {}

    fn call(line: Rest) -> Option<RwCall> {
        only_named(&RW_CALLS, line)
    }

    fn numbers(words: usize) -> (u64, Option<u64>) {
        (words as u64, None)
    }
}

/// The calls of a fair lock, each with its word, in the order of the variants.
pub const FAIR_CALLS: [(&[u8], FairCall); 10] = [
    (b"lock", FairCall::Lock),
    (b"try_lock", FairCall::TryLock),
    (b"try_lock_starver", FairCall::TryLockStarver),
    (b"is_locked", FairCall::IsLocked),
    (b"starve", FairCall::Starve),
    (b"starver_try_lock_fair", FairCall::StarverTryLockFair),
    (b"starver_try_lock", FairCall::StarverTryLock),
    (b"starver_lock", FairCall::StarverLock),
    (b"starver_drop", FairCall::StarverDrop),
    (b"release", FairCall::Release),
];

impl Spelled for Fair<u64> {
    ghost use Rattle.spin_text.specs.Objects.{fair_call_words, without_numbers};
    ghost use Rattle.spin_text.specs.Reading.{by_word, only_named};
    ghost use Rattle.spin_text.specs.declared.objects.TheConstants.{FAIR_CALLS};

    ghost calls = { without_numbers fair_call_words };

    ghost read = { only_named (by_word FAIR_CALLS) };

    fn reads_calls() {}

    fn call(line: Rest) -> Option<FairCall> {
        only_named(&FAIR_CALLS, line)
    }

    fn numbers(words: usize) -> (u64, Option<u64>) {
        (words as u64, None)
    }
}

/// The calls of a barrier, each with its word, in the order of the variants.
pub const BARRIER_CALLS: [(&[u8], BarrierCall); 1] = [(b"wait", BarrierCall::Wait)];

impl Spelled for BarrierObject {
    ghost use Rattle.spin_text.specs.Objects.{barrier_call_words, without_numbers};
    ghost use Rattle.spin_text.specs.Reading.{by_word, only_named};
    ghost use Rattle.spin_text.specs.declared.objects.TheConstants.{BARRIER_CALLS};

    ghost calls = { without_numbers barrier_call_words };

    ghost read = { only_named (by_word BARRIER_CALLS) };

    fn reads_calls() {}

    fn call(line: Rest) -> Option<BarrierCall> {
        only_named(&BARRIER_CALLS, line)
    }

    fn numbers(words: BarrierWords) -> (u64, Option<u64>) {
        (words.count as u64, Some(words.generation as u64))
    }
}

/// Reads the words that follow the name `try_call_once` in a line, and returns the call that they spell.
#[tactic(auto, unfolding(crate::specs::Reading::read_try_call_once))]
fn try_call_once(line: Rest) -> Option<OnceCall<u64>>
    ensures { result ≡ read_try_call_once (words_left line.entry) }
{
    let (word, rest) = word(line)?;
    if is_word(word, b"ok") {
        Some(OnceCall::TryCallOnceOk(only_number(rest)?))
    } else if is_word(word, b"err") && is_over(rest) {
        Some(OnceCall::TryCallOnceErr)
    } else {
        None
    }
}

/// The calls without a closure.
const PLAIN_ONCE_CALLS: [(&[u8], OnceCall<u64>); 4] = [
    (b"wait", OnceCall::Wait),
    (b"poll", OnceCall::Poll),
    (b"get", OnceCall::Get),
    (b"is_completed", OnceCall::IsCompleted),
];

impl Spelled for OnceObject<u64> {
    ghost use Rattle.spin_text.specs.Objects.{once_spelling};
    ghost use Rattle.spin_text.specs.Reading.{read_once_call};

    ghost calls = { once_spelling };

    ghost read = { read_once_call };

    fn reads_calls() {}

    #[tactic(auto, unfolding(crate::specs::Reading::read_once_call))]
    fn call(line: Rest) -> Option<OnceCall<u64>> {
        let (word, rest) = word(line)?;
        if is_word(word, b"call_once") {
            Some(OnceCall::CallOnce(only_number(rest)?))
        } else if is_word(word, b"try_call_once") {
            try_call_once(rest)
        } else if is_word(word, b"init_from_ref") {
            Some(OnceCall::InitFromRef(only_number(rest)?))
        } else if is_over(rest) {
            named(&PLAIN_ONCE_CALLS, word)
        } else {
            None
        }
    }

    fn numbers(words: u8) -> (u64, Option<u64>) {
        (u64::from(words), None)
    }
}
