//! The types of expressions, and what names stand for.
ghost use Rattle.std.specs.Prelude.{◌≡◌};

use c_tree::mpi::MpiFunction;
use c_tree::syntax::Base;
use mpc_values::{Datatype, Op, Word};
use std::marker::Model;

/// The type of a value (C99, section 6.2.5).
#[derive(Clone, Copy, Debug, PartialEq, Eq)]
pub enum Kind {
    /// Of a call of a function without a value.
    Void,
    /// The base itself. The value of an MPI_Status is its first place.
    Plain(Base),
    /// A pointer to elements of the base, as the value of an array is.
    Pointer(Base),
    /// NULL, which agrees with every pointer.
    Null,
    /// A `char` parameter's; no expression has it.
    Arguments,
}

/// Where a variable is: a static variable by its number, or a local by its slot.
#[derive(Clone, Copy, Debug, PartialEq, Eq)]
pub enum Home {
    Static(u32),
    Local(u32),
}

/// A declared variable: the type of its value, whether it is an array, and where it is.
#[derive(Clone, Copy, Debug, PartialEq, Eq)]
pub struct Variable {
    pub kind: Kind,
    pub is_array: bool,
    pub home: Home,
}

/// What a known name stands for: the functions and constants of MPI, of `printf` and of `malloc`.
#[derive(Clone, Copy, Debug, PartialEq, Eq)]
pub enum Known {
    Mpi(MpiFunction),
    Printf,
    Malloc,
    Free,
    /// A constant's type and value; NULL is one.
    Constant(Kind, Word),
    Datatype(Datatype),
    Operation(Op),
    /// MPI_STATUS_IGNORE or MPI_STATUSES_IGNORE.
    Ignored,
}

/// What a name stands for at a place of the source.
#[derive(Clone, Copy, Debug, PartialEq, Eq)]
pub enum Decl {
    Variable(Variable),
    /// The first parameter of a main with two, as `argc`: an int, in slot 0.
    Count,
    /// A `char` parameter, as `argv`.
    Arguments,
    /// A function of the program, by its place among those declared so far.
    Function(usize),
    Known(Known),
}

/// Types in order.
#[derive(Debug, Clone, Drop)]
pub struct Kinds {
    list: Vec<Kind>,
}

impl Model for Kinds {
    ghost use Rattle.std.specs.Prelude.{List};
    ghost use Rattle.c_types.specs.declared.kinds.Kind.{Kind};

    ghost Value = { List Kind };

    ghost view = { λ kinds. kinds.list.items };
}

impl Kinds {
    pub fn of(list: Vec<Kind>) -> Kinds
        ensures { result ≡ list.items }
    {
        Kinds { list }
    }

    pub fn as_slice(&self) -> &[Kind]
        ensures { result.now ≡ self.now }
    {
        self.list.as_slice()
    }

    pub fn into_vec(self) -> Vec<Kind>
        ensures { result.items ≡ self }
    {
        let Kinds { list } = self;
        list
    }
}

/// A function that is declared: what it answers and takes, its number among the definitions of the
/// unit, where it has one, and whether its definition stands here or before.
#[derive(Debug, Drop)]
pub struct Sig {
    pub returns: Kind,
    pub params: Kinds,
    pub number: Option<u32>,
    pub is_defined: bool,
}

/// An argument of a call of an MPI function: an expression of this type, if it has one, or a name that
/// stands only as an argument.
#[derive(Clone, Copy, Debug, PartialEq, Eq)]
pub enum Given {
    Typed(Option<Kind>),
    Datatype(Datatype),
    Operation(Op),
    Ignored,
}

/// The operand of `&`, `++` and `--`, and the left side of an assignment.
#[derive(Clone, Copy, Debug, PartialEq, Eq)]
pub enum Left {
    /// No variable and no element.
    Nothing,
    /// A name that is not declared, or an element whose type is not known.
    Unknown,
    /// A variable or an element of this type.
    Typed(Kind),
    Array,
    /// main's own `argc`.
    Count,
    /// A `char` parameter.
    Arguments,
}

/// A constant expression: its type, and its value, where it has no fault.
#[derive(Clone, Copy, Debug, PartialEq, Eq)]
pub struct Constant {
    pub kind: Kind,
    pub value: Option<Word>,
}

/// How control may leave a statement, and whether one in it shares variables.
#[derive(Clone, Copy, Debug, PartialEq, Eq)]
pub struct Escapes {
    /// By a return.
    pub returns: bool,
    /// By a break or continue of a loop round the statement.
    pub jumps: bool,
    /// It is or holds a single or a barrier.
    pub shares: bool,
}
