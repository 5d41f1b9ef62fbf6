//! Directives, and the names that they list.
ghost use Rattle.std.specs.Prelude.{◌≡◌};

use mpc_values::Level;
use std::marker::Model;

/// A name in a line: its bytes are the `len` bytes from `start` on.
#[derive(Clone, Copy, Debug, PartialEq, Eq)]
pub struct NameSpan {
    pub start: usize,
    pub len: usize,
}

/// Names in the order in which a directive lists them.
#[derive(Debug, Drop)]
pub struct Names {
    list: Vec<NameSpan>,
}

impl Model for Names {
    ghost use Rattle.std.specs.Prelude.{List};
    ghost use Rattle.hls_pragma.specs.declared.directives.NameSpan.{NameSpan};

    ghost Value = { List NameSpan };

    ghost view = { λ names. names.list.items };
}

impl Names {
    pub fn of(list: Vec<NameSpan>) -> Names
        ensures { result ≡ list.items }
    {
        Names { list }
    }

    pub fn as_slice(&self) -> &[NameSpan]
        ensures { result.now ≡ self.now }
    {
        self.list.as_slice()
    }

    pub fn into_vec(self) -> Vec<NameSpan>
        ensures { result.items ≡ self }
    {
        let Names { list } = self;
        list
    }
}

/// What a pragma's line says.
#[derive(Debug, Drop)]
pub enum Pragma {
    /// The variables are shared by the instances of a level.
    Scope { level: Level, names: Names },
    /// One task of an instance runs the block.
    Single { names: Names, nowait: bool },
    /// The tasks of an instance wait for each other.
    Barrier { names: Names },
    /// Another pragma, which means nothing here.
    Foreign,
}

/// The line begins as a directive for shared variables, and is none.
#[derive(Clone, Copy, Debug, PartialEq, Eq, thiserror::Error)]
#[error("no directive for shared variables is written so")]
pub struct PragmaRefusal;
