//! The typed program: types are checked, variables have numbers, and what C leaves to the reader
//! (conversions, places, the words of an element) is written out.
//!
//! A local variable has a slot in its function. The task keeps the local's value there, or, where
//! the local is in memory, the pointer to its object.
ghost use Rattle.std.specs.Prelude.{◌≡◌, ◌<◌, length};

use crate::formats::Format;
use crate::mpi::MpiFunction;
use crate::variables::Globals;
use mpc_values::{Datatype, Level, Op, Word};
use std::marker::Model;

/// The type of numbers: int of 32 bits, or long of 64.
#[derive(Clone, Copy, Debug, PartialEq, Eq)]
pub enum Width {
    Int,
    Long,
}

/// What a word that is loaded is read as.
#[derive(Clone, Copy, Debug, PartialEq, Eq)]
pub enum Scalar {
    Number(Width),
    Pointer,
    Comm,
    Request,
}

/// An operation on two numbers that gives a number of their type, or a fault (C99, sections 6.5.5
/// to 6.5.12).
#[derive(Clone, Copy, Debug, PartialEq, Eq)]
pub enum Operation {
    Add,
    Subtract,
    Multiply,
    Divide,
    Remainder,
    ShiftLeft,
    ShiftRight,
    BitAnd,
    BitXor,
    BitOr,
}

/// A comparison of two numbers, which gives 0 or 1 (C99, sections 6.5.8 and 6.5.9).
#[derive(Clone, Copy, Debug, PartialEq, Eq)]
pub enum Comparison {
    Less,
    Greater,
    LessEqual,
    GreaterEqual,
    Equal,
    NotEqual,
}

/// How a computing assignment, `++` or `--` makes the new value from the old one and a number.
#[derive(Clone, Copy, Debug, PartialEq, Eq)]
pub enum Update {
    /// An operation on numbers of a width, and then the type of the variable.
    Number {
        operation: Operation,
        width: Width,
        target: Width,
    },
    /// A pointer moved on, or back, by elements of so many words.
    Pointer {
        back: bool,
        words: u32,
    },
}

/// What a call of an MPI function has beside the arguments that are evaluated.
#[derive(Clone, Copy, Debug, PartialEq, Eq)]
pub struct MpiCall {
    pub function: MpiFunction,
    /// The datatype of what is sent or folded, or the one datatype; Int where there is none.
    pub kind: Datatype,
    /// The datatype of what MPI_Sendrecv receives; as `kind` elsewhere.
    pub received: Datatype,
    /// Sum where there is none.
    pub op: Op,
    /// The status is MPI_STATUS_IGNORE or MPI_STATUSES_IGNORE, and is no argument.
    pub ignored: bool,
}

/// What is called with arguments.
#[derive(Debug, Drop)]
pub enum Callee {
    /// The defined function of this number, counted from 0 in the order of definitions.
    Function(u32),
    /// `printf`; the arguments are the numbers of the format.
    Print(Format),
    Mpi(MpiCall),
}

/// An expression. A number is an int or a long by where it stands; a pointer names a place.
#[derive(Debug, Drop)]
pub enum Expr {
    /// A number, NULL, a communicator, MPI_REQUEST_NULL, or the first place of a static variable.
    Constant(Word),
    /// The value of a local that the task keeps.
    Local(u32),
    /// The first place of a local that is in memory.
    Object(u32),
    /// The word at a place.
    Load(Scalar, Box<Expr>),
    /// Sets a local that the task keeps, and has the value.
    SetLocal(u32, Box<Expr>),
    /// Stores a value, the second, at a place, the first, and has the value.
    Store(Box<Expr>, Box<Expr>),
    /// A computing assignment to a local that the task keeps.
    UpdateLocal(Update, u32, Box<Expr>),
    /// A computing assignment to a place, the first.
    UpdateStore(Update, Box<Expr>, Box<Expr>),
    /// `++` or `--` of a local that the task keeps; it has the new value where it stands before.
    StepLocal(Update, bool, u32),
    /// `++` or `--` of the word at a place.
    StepStore(Update, bool, Box<Expr>),
    /// `-`
    Negate(Width, Box<Expr>),
    /// `~`
    Complement(Box<Expr>),
    /// `!` of a number or a pointer.
    Not(Box<Expr>),
    /// A long as an int: it wraps.
    Narrow(Box<Expr>),
    /// On two numbers of this width; of a shift it is that of the left side.
    Arithmetic(Width, Operation, Box<Expr>, Box<Expr>),
    Compare(Comparison, Box<Expr>, Box<Expr>),
    /// Whether two pointers, communicators or requests are the same, or, where false, are not.
    Same(bool, Box<Expr>, Box<Expr>),
    And(Box<Expr>, Box<Expr>),
    Or(Box<Expr>, Box<Expr>),
    /// `?:`
    Choice(Box<Expr>, Box<Expr>, Box<Expr>),
    /// The pointer so many elements on, or, where true, back; an element has so many words.
    Offset(bool, u32, Box<Expr>, Box<Expr>),
    /// `malloc` of so many bytes, for elements of a size in bytes (4 or 8).
    Malloc(u32, Box<Expr>),
    Free(Box<Expr>),
    Apply(Callee, Vec<Expr>),
}

/// A statement. The first number of one that asks calls is their line.
#[derive(Debug, Drop)]
pub enum Stmt {
    Eval(u32, Expr),
    /// A declared local that the task keeps has no value yet.
    Unset(u32),
    /// A declared local in memory: its line, its slot and its words. It is dropped where control
    /// leaves the block that this statement is an item of.
    New(u32, u32, u32),
    /// Statements, and the line on which the block's locals are dropped at its end.
    Block(Vec<Stmt>, u32),
    If(u32, Expr, Box<Stmt>, Box<Stmt>),
    While(u32, Expr, Box<Stmt>),
    DoWhile(u32, Box<Stmt>, Expr),
    /// The condition, where there is one, the step, where there is one, and the body.
    For(u32, Option<Expr>, Option<Expr>, Box<Stmt>),
    Return(u32, Option<Expr>),
    Break(u32),
    Continue(u32),
    /// The construct's number, whether it is `nowait`, and the block.
    Single(u32, u32, bool, Box<Stmt>),
    /// The construct's number.
    Barrier(u32, u32),
}

/// What stands at the end of a function.
#[derive(Clone, Copy, Debug, PartialEq, Eq)]
pub enum Ending {
    /// A function without a value ends there.
    Void,
    /// main returns 0 there.
    Zero,
    /// A function with a value has none there.
    Missing,
}

/// Which parameters are in memory, in order.
#[derive(Debug, Clone, Drop)]
pub struct Params {
    list: Vec<bool>,
}

impl Model for Params {
    ghost use Rattle.std.specs.Prelude.{List, Bool};

    ghost Value = { List Bool };

    ghost view = { λ params. params.list.items };
}

impl Params {
    pub fn of(list: Vec<bool>) -> Params
        ensures { result ≡ list.items }
    {
        Params { list }
    }

    pub fn as_slice(&self) -> &[bool]
        ensures { result.now ≡ self.now }
    {
        self.list.as_slice()
    }

    pub fn into_vec(self) -> Vec<bool>
        ensures { result.items ≡ self }
    {
        let Params { list } = self;
        list
    }
}

/// A defined function. The first slots are its parameters.
#[derive(Debug, Drop)]
pub struct Function {
    pub params: Params,
    /// How many slots it has.
    pub slots: u32,
    pub body: Vec<Stmt>,
    pub ending: Ending,
    /// The line of its closing brace.
    pub end_line: u32,
}

/// The kinds of statements that share variables.
#[derive(Clone, Copy, Debug, PartialEq, Eq)]
pub enum HlsKind {
    Single,
    Nowait,
    Barrier,
}

/// What a sharing statement is, and the level of its variables, for a barrier the widest.
#[derive(Clone, Copy, Debug, PartialEq, Eq)]
pub struct Construct {
    pub kind: HlsKind,
    pub level: Level,
}

/// Sharing statements in order of their numbers, counted from 0.
#[derive(Debug, Drop)]
pub struct Constructs {
    list: Vec<Construct>,
}

impl Model for Constructs {
    ghost use Rattle.std.specs.Prelude.{List};
    ghost use Rattle.c_tree.specs.declared.program.Construct.{Construct};

    ghost Value = { List Construct };

    ghost view = { λ constructs. constructs.list.items };
}

impl Constructs {
    pub fn of(list: Vec<Construct>) -> Constructs
        ensures { result ≡ list.items }
    {
        Constructs { list }
    }

    pub fn as_slice(&self) -> &[Construct]
        ensures { result.now ≡ self.now }
    {
        self.list.as_slice()
    }

    pub fn into_vec(self) -> Vec<Construct>
        ensures { result.items ≡ self }
    {
        let Constructs { list } = self;
        list
    }
}

/// A typed program.
#[derive(Debug, Drop)]
pub struct Program {
    /// The file-scope variables, and then the static locals, each in source order.
    pub variables: Globals,
    /// In the order of their definitions.
    pub functions: Vec<Function>,
    /// The number of main.
    pub main: u32,
    pub constructs: Constructs,
    /// The line of the source's last token that is no foreign pragma, or 1 where there is none.
    pub lines: u32,
}
