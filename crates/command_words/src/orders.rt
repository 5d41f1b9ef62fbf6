//! What the words of the command stand for.
ghost use Rattle.std.specs.Prelude.{◌≡◌, string_bytes};
ghost use Rattle.command_words.specs.Modes.{runs, is_serial, is_replay, is_gen};

use std::marker::Model;
use topology::Placement;

/// What the program does.
#[derive(Clone, Copy, Debug, PartialEq, Eq)]
pub enum Mode {
    /// Reads the source and checks its types.
    Check,
    /// Runs it on threads.
    Run,
    /// Runs it without threads, by a rule for whose turn it is.
    Serial,
    /// Runs it by a journal.
    Replay,
    /// Makes a program from a number and runs it.
    Gen,
}

impl Mode {
    /// Whether it runs the program of a source.
    pub fn runs(self) -> bool
        ensures { result ≡ runs self }
    {
        match self {
            Mode::Run | Mode::Serial | Mode::Replay => true,
            Mode::Check | Mode::Gen => false,
        }
    }

    pub fn is_serial(self) -> bool
        ensures { result ≡ is_serial self }
    {
        matches!(self, Mode::Serial)
    }

    pub fn is_replay(self) -> bool
        ensures { result ≡ is_replay self }
    {
        matches!(self, Mode::Replay)
    }

    pub fn is_gen(self) -> bool
        ensures { result ≡ is_gen self }
    {
        matches!(self, Mode::Gen)
    }
}

/// The name of a file.
#[derive(Debug, Drop)]
pub struct FileName {
    text: String,
}

impl Model for FileName {
    ghost use Rattle.std.specs.Prelude.{List, ℕ, string_bytes};

    ghost Value = { List ℕ };

    ghost view = { λ name. string_bytes name.text };
}

impl FileName {
    pub fn of(text: String) -> FileName
        ensures { result ≡ string_bytes text }
    {
        FileName { text }
    }

    pub fn as_str(&self) -> &str
        ensures { result.now ≡ self.now }
    {
        self.text.as_str()
    }
}

/// What is done, with what, and how. docs/COMMAND.md tells each option with its range and its default.
#[derive(Debug, Drop)]
pub struct Orders {
    pub mode: Mode,
    /// The source's file, or the digits of the number that a program is made from.
    pub subject: FileName,
    pub tasks: u32,
    pub machine: Option<FileName>,
    pub place: Placement,
    /// The length in words up to which a message is eager.
    pub eager: u32,
    /// The most words in live locals and blocks of a task.
    pub quota: u32,
    /// The most journal entries of a task.
    pub calls: u32,
    pub seed: Option<u64>,
    pub journal: Option<FileName>,
    /// Whether the report tells each delivery.
    pub matches: bool,
    /// Whether the text of the program is written and nothing is run.
    pub emit: bool,
}

/// The words stand for no command.
#[derive(Clone, Copy, Debug, PartialEq, Eq)]
pub struct Usage;
