//! Each function here states that a wrong dispenser breaks a law.
ghost use Rattle.std.specs.Prelude.{◌≡◌};
ghost use Rattle.spin_world_core.specs.Runs.{KeepsAll, MomentsAll};
ghost use Rattle.spin_tests.specs.Dispenser.{IsDispenser, DrawsInOrder};
ghost use Rattle.spin_tests.specs.declared.dispenser.DispenserCall.TheVariants as call;
ghost use Rattle.spin_tests.specs.Schedules.{calls};
ghost use Rattle.spin_tests.specs.WrongDispenser.{two_draw, forgets_to_store, wins_what_it_lost, wraps};
ghost use Rattle.spin_tests.specs.WrongDispenser.{says_zero, draws_another, takes_back};

/// A draw that stores the number that it found, so that the number is drawn again.
pub fn a_number_that_is_drawn_is_used_up()
    ensures { KeepsAll forgets_to_store 2 two_draw → ⊥ }
{}

/// A draw whose exchange failed, but which answers as if it had succeeded. Another party has that number.
pub fn a_lost_exchange_draws_nothing()
    ensures { KeepsAll wins_what_it_lost 2 two_draw → ⊥ }
{}

/// A draw that begins again at 0 after the last number.
pub fn the_numbers_never_wrap()
    ensures { KeepsAll wraps 2 two_draw → ⊥ }
{}

/// A draw that answers 0 whatever it has drawn.
pub fn a_draw_says_its_number()
    ensures { DrawsInOrder says_zero 2 two_draw → ⊥ }
{}

/// A draw of a certain number that draws another one.
pub fn a_number_asked_for_is_the_one_drawn()
    ensures { MomentsAll draws_another 1 (calls 0 (call.DrawThis 1) 1) → ⊥ }
{}

/// A dispenser of another kind, to which numbers can be returned.
pub fn a_dispenser_is_of_its_kind()
    ensures { IsDispenser 2 takes_back → ⊥ }
{}
