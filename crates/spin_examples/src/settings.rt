//! Settings that threads share. They are read from a text once, when a thread first asks for them. Begin with
//! [`SharedSettings`].
ghost use Rattle.std.specs.Prelude.{◌≡◌, [], IfSome, IfNone, IfOk, IfErr, unwrap_or};
ghost use Rattle.std.specs.Str.Lines.{lines};
ghost use Rattle.spin_examples.specs.Settings.{AreAfter, AreSettingsOf, IsAnswerFor, IsFirstBadLine, Sets, SetsNothing, port_of, workers_of, verbose_of};
ghost use Rattle.spin_examples.specs.SharedSettings.{text_of};

use spin_core::relax::{RelaxStrategy, Spin};
use spin_once::lazylock::{LazyLock, Makes, Promise};
use std::str::FromStr;
use std::sync::Wait;

/// What one line of a text sets.
#[derive(Clone, Copy, Debug, PartialEq, Eq)]
pub enum Setting {
    /// `port = 8080`
    Port(u16),
    /// `workers = 4`
    Workers(u64),
    /// `verbose = true`
    Verbose(bool),
}

impl Setting {
    /// Returns what the line sets, or `None` if it is no setting.
    ///
    /// # Contract
    /// `Some` is what the line sets (`Sets`). After `None` the line sets nothing (`SetsNothing`).
    pub fn of_line(line: &str) -> Option<Setting>
        ensures some { IfSome result (Sets line.now) }
        ensures none { IfNone result (SetsNothing line.now) }
    {
        if let Some(value) = line.strip_prefix("port = ") {
            return Some(Setting::Port(value.parse().ok()?));
        }
        if let Some(value) = line.strip_prefix("workers = ") {
            return Some(Setting::Workers(value.parse().ok()?));
        }
        if let Some(value) = line.strip_prefix("verbose = ") {
            return Some(Setting::Verbose(value.parse().ok()?));
        }
        None
    }
}

/// The settings of a text. A setting that no line sets has its default.
#[derive(Clone, Copy, Debug, PartialEq, Eq)]
pub struct Settings {
    pub port: u16,
    pub workers: u64,
    pub verbose: bool,
}

/// The number of the first line that sets nothing. Lines are numbered from 1.
#[derive(Clone, Copy, Debug, PartialEq, Eq)]
pub struct BadLine {
    pub number: usize,
}

/// The settings of a text, or its first bad line.
pub type Answer = Result<Settings, BadLine>;

impl Settings {
    fn set(&mut self, setting: Setting)
        ensures port { self.new.port ≡ unwrap_or (port_of setting) self.old.port }
        ensures workers { self.new.workers ≡ unwrap_or (workers_of setting) self.old.workers }
        ensures verbose { self.new.verbose ≡ unwrap_or (verbose_of setting) self.old.verbose }
    {
        match setting {
            Setting::Port(port) => self.port = port,
            Setting::Workers(workers) => self.workers = workers,
            Setting::Verbose(verbose) => self.verbose = verbose,
        }
    }
}

impl Default for Settings {
    fn default() -> Settings
        ensures { AreAfter [] result }
    {
        Settings {
            port: 8080,
            workers: 1,
            verbose: false,
        }
    }
}

impl FromStr for Settings {
    type Err = BadLine;

    ghost from_str_gives = { IsAnswerFor };

    fn from_str(text: &str) -> Answer {
        let mut settings = Settings::default();
        for (at, line) in text.lines().enumerate() {
            let Some(setting) = Setting::of_line(line) else {
                return Err(BadLine { number: at + 1 });
            };
            settings.set(setting);
        }
        Ok(settings)
    }
}

/// The promise of the lazy lock: its answer is right for this text.
#[derive(Clone, Copy)]
struct AnswerFor<'t>(&'t str);

impl Promise<Answer> for AnswerFor<'_> {
    ghost keeps = { λ it answer. IsAnswerFor it.0.now answer };
}

/// The initialiser, which reads the text.
#[derive(Drop)]
struct ReadSettings;

impl<'t> Makes<Answer, AnswerFor<'t>> for ReadSettings {
    fn make(self, promise: AnswerFor<'t>) -> Answer {
        promise.0.parse()
    }
}

/// The settings of one text, for all threads: a `LazyLock` whose initialiser reads the text.
#[derive(Drop)]
pub struct SharedSettings<'t, R = Spin> {
    answer: LazyLock<Answer, ReadSettings, R, AnswerFor<'t>>,
}

impl<'t, R: RelaxStrategy> SharedSettings<'t, R> {
    /// Creates the shared settings of `text`.
    ///
    /// # Contract
    /// The result remembers `text` (`text_of`).
    pub fn new(text: &'t str) -> Self
        ensures { text_of result ≡ text.now }
    {
        SharedSettings {
            answer: LazyLock::promising(AnswerFor(text), ReadSettings),
        }
    }

    /// Returns the settings of the text, or its first bad line. While another thread reads the text, the call spins.
    ///
    /// # Contract
    /// `Ok` has the settings of the text (`AreSettingsOf`), `Err` its first bad line (`IsFirstBadLine`). Whether and when
    /// the call returns is not promised.
    pub fn get<W: Wait>(&self, rt: &W) -> Result<&Settings, BadLine>
        ensures settings { IfOk result (λ settings. AreSettingsOf (lines (text_of self.now)) settings.now) }
        ensures bad { IfErr result (λ bad. IsFirstBadLine (lines (text_of self.now)) bad.number) }
    {
        match LazyLock::force(&self.answer, rt) {
            Ok(settings) => Ok(settings),
            Err(bad) => Err(*bad),
        }
    }
}
