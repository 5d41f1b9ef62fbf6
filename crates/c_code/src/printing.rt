//! What an instruction that prints holds.
ghost use Rattle.std.specs.Prelude.{◌≡◌, IfOk};
ghost use Rattle.c_code.specs.declared.printing.Printing.{Printing};

use c_tree::formats::Format;
use std::alloc::{AllocError, Global};
use std::marker::Model;

/// A format, and how many numbers it takes off the stack.
#[derive(Debug, Drop)]
pub struct Printing {
    pub format: Format,
    pub count: u32,
}

/// A format behind a pointer, so that the instruction that has it stays small.
#[derive(Debug, Drop)]
pub struct Printed {
    inner: Box<Printing>,
}

impl Model for Printed {
    ghost use Rattle.c_code.specs.declared.printing.Printing.{Printing};

    ghost Value = { Printing };

    ghost view = { λ printed. printed.inner.value };
}

impl Printed {
    pub fn new(alloc: Global, printing: Printing) -> Result<Printed, AllocError>
        ensures { IfOk result (λ printed. printed ≡ printing) }
    {
        Ok(Printed {
            inner: Box::new(alloc, printing)?,
        })
    }

    pub fn get(&self) -> &Printing
        ensures { result.now ≡ self.now }
    {
        &self.inner
    }
}
