//! What a caller knows of the settings of a text, and that all threads see the same.
ghost use Rattle.spin_examples.specs.Settings.{IsAnswerFor};

use super::equal::equal;
use super::parts::{Crew, in_threads};
use spin_core::relax::Yield;
use spin_examples::settings::{Answer, BadLine, Settings, SharedSettings};
use std::process::Abort;
use std::sync::Wait;

// A caller's proof: it shares the settings of its text, and knows what the answer means.
fn settings_of<W: Wait>(rt: &W, text: &str) -> Answer
    ensures { IsAnswerFor text.now result }
{
    let shared: SharedSettings<Yield> = SharedSettings::new(text);
    let settings = shared.get(rt)?;
    Ok(*settings)
}

#[test]
fn settings_are_those_of_the_text(rt: HostRuntime) {
    let settings = Settings {
        workers: 9,
        ..Settings::default()
    };
    equal(&rt, settings_of(&rt, "workers = 9\n"), Ok(settings));
    equal(
        &rt,
        settings_of(&rt, "port = 80\nworkers: 9\n"),
        Err(BadLine { number: 2 }),
    );
}

/// Threads that ask for the settings.
#[derive(Drop)]
struct Askers<'a>(SharedSettings<'a, Yield>);

impl Crew for Askers<'_> {
    type Answer = Answer;

    fn act<R: Abort + Wait>(&self, rt: &R, _index: usize) -> Answer {
        self.0.get(rt).copied()
    }
}

#[test]
fn ten_threads_see_the_same(rt: HostRuntime) {
    let shared = SharedSettings::new("workers = 4\nverbose = true\n");
    let answers = in_threads(&rt, rt.alloc(), &Askers(shared), 10);
    let settings = Settings {
        port: 8080,
        workers: 4,
        verbose: true,
    };
    equal(&rt, answers.as_slice(), [Ok(settings); 10].as_slice());
}
