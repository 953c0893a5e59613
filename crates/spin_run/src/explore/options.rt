//! The words of the command line. Begin with [`options_of`].
ghost use Rattle.std.specs.Prelude.{◌≡◌, map};
ghost use Rattle.spin_run.specs.Options.{no_options, with_option, options_from};
ghost use Rattle.spin_text.specs.Lines.{texts_of};

use spin_text::{is_word, only_number};

/// What the words of the command line ask for.
#[derive(Clone, Copy)]
pub struct Options {
    /// The number of the outcome whose schedule is asked for.
    pub schedule: Option<u64>,
    /// The most states that a search may see.
    pub limit: Option<u64>,
}

#[tactic(auto, unfolding(crate::specs::Options::with_option))]
fn with_option(options: Options, word: &[u8], number: Option<u64>) -> Option<Options>
    ensures { result ≡ with_option options word.now number }
{
    let number = number?;
    if is_word(word, b"--schedule") {
        Some(Options {
            schedule: Some(number),
            limit: options.limit,
        })
    } else if is_word(word, b"--limit") {
        Some(Options {
            schedule: options.schedule,
            limit: Some(number),
        })
    } else {
        None
    }
}

/// Returns what the words ask for, or `None` if they are no command.
pub fn options_of(words: &[&str]) -> Option<Options>
    ensures { result ≡ options_from no_options (texts_of words.now) }
{
    let mut options = Options {
        schedule: None,
        limit: None,
    };
    let mut rest = words;
    while let [word, number, further @ ..] = rest {
        options = with_option(
            options,
            word.as_bytes(),
            only_number(Some(number.as_bytes())),
        )?;
        rest = further;
    }
    if rest.is_empty() { Some(options) } else { None }
}
