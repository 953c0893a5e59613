//! What no law checks: a lock of two seats that keeps every law, though some of its calls promise too little.
ghost use Rattle.spin_world_core.specs.Lawful.{Lawful};
ghost use Rattle.spin_tests.specs.Careless.{careless_machine};

/// States that a lock with these three mistakes keeps every law:
///
/// - Its `enter` looks for ever. What this call asks for never counts as open (`is_open_next` is false).
/// - Its `try_enter` and its `try_enter_weak` wait where they should be refused. Their promise says that they wait
///   (`waits`), and not that they are tries (`tries`).
/// - Its `count` answers 7. Any number fits its promise (`means` with a test that is always true).
pub fn no_law_refuses_these_mistakes()
    ensures { Lawful careless_machine }
{}
