//! A law of every text: the contract of a function that does nothing. Begin with [`a_text_has_one_reading`].
ghost use Rattle.std.specs.Prelude.{◌≡◌, ℕ, List};
ghost use Rattle.spin_text.specs.Texts.{Script, Spells};

/// States that bytes are the text of at most one schedule.
pub fn a_text_has_one_reading()
    ensures { (bytes : List ℕ) (s t : Script) → Spells bytes s → Spells bytes t → s ≡ t }
{}
