//! What the rules of typing read of a node.

use crate::kinds::{Decl, Kind, Left};
use c_tree::syntax::{Base, Binary};

/// What the rules read of an initializer.
#[derive(Clone, Copy, Debug)]
pub enum Initial {
    Nothing,
    /// Of a static variable, and whether it may stand there.
    Constant(bool),
    /// Of another variable: an expression's type.
    Value(Option<Kind>),
    /// Of another variable.
    List,
}

/// What the rules read of a declared variable.
#[derive(Clone, Copy, Debug)]
pub struct Declared {
    /// The name stands in the innermost scope already.
    pub is_twice: bool,
    pub is_known: bool,
    pub is_static: bool,
    pub is_array: bool,
    pub base: Base,
    /// The type of its value.
    pub kind: Kind,
    /// Its length is a constant in the limits, and so are the static variables and words with it.
    pub fits: bool,
    pub initial: Initial,
}

/// What the rules read of a parameter.
#[derive(Clone, Copy, Debug)]
pub struct Parameter {
    pub is_twice: bool,
    pub is_known: bool,
    /// Its type, and whether it is written as an array.
    pub kind: Kind,
    pub is_array: bool,
    /// The function is a main with an int and a `char` parameter.
    pub is_main: bool,
}

/// What the rules read of what stands outside of functions, and of declarations.
#[derive(Clone, Copy, Debug)]
pub enum ItemShape {
    /// The whole source, and whether it has a proper main.
    Unit(bool),
    /// A directive that gives variables a level, and whether it may stand there.
    Scope(bool),
    Variable(Declared),
    Parameter(Parameter),
    /// A prototype or definition of a function.
    Function {
        /// The name is declared otherwise.
        is_twice: bool,
        is_known: bool,
        returns: Kind,
    },
}

/// What the rules read of a statement.
#[derive(Clone, Copy, Debug)]
pub enum StatementShape {
    /// The condition of a statement.
    Tested(Option<Kind>),
    /// What the function answers, and the type of the value, where there is one.
    Returned(Kind, Option<Option<Kind>>),
    /// A break or continue, and whether it is in a loop.
    Jumped(bool),
    Single {
        /// Its names are variables of one level.
        are_shared: bool,
        /// Its block may stand there.
        may_stand: bool,
        /// How many statements that share variables stand before it.
        before: usize,
    },
    Barrier {
        /// Its names are variables with a level.
        are_shared: bool,
        /// How many statements that share variables stand before it.
        before: usize,
    },
}

/// What the rules read of a call.
#[derive(Clone, Copy, Debug)]
pub enum CallShape {
    /// Of what is no function.
    Nothing,
    /// Of the program's own function.
    Own {
        is_defined: bool,
        /// The arguments agree with its parameters.
        agrees: bool,
        returns: Kind,
    },
    /// `printf`, and whether its arguments are those of its format.
    Printf(bool),
    Malloc {
        /// The element of the pointer that it is for, where it may stand there.
        element: Option<Base>,
        /// Its argument is one number.
        has_number: bool,
    },
    /// `free`, and whether it has one pointer.
    Free(bool),
    /// MPI_Init.
    Init {
        has_two: bool,
        /// Its arguments are those that it may have.
        may_stand: bool,
    },
    /// Another MPI function.
    Mpi {
        /// Its arguments are those of its row.
        meets: bool,
        /// The buffers agree with the datatypes.
        agrees: bool,
    },
}

/// What the rules read of an expression with at most one operand, or of an element.
#[derive(Clone, Copy, Debug)]
pub enum OperandShape {
    /// A number, and whether it is a long.
    Number(bool),
    Text,
    /// A name as a value.
    Used(Option<Decl>),
    /// `[`
    Element(Option<Kind>, Option<Kind>),
    /// `.`, and whether the field is MPI_SOURCE or MPI_TAG.
    Field(bool, Option<Kind>),
    /// `++` or `--`
    Stepped(Left),
    /// `-`, `+` or `~`
    Signed(Option<Kind>),
    /// `!`
    Negated(Option<Kind>),
    /// `*` before an operand
    Pointed(Option<Kind>),
    /// `&` before an operand
    Located(Left),
    /// A cast that is to no pointer.
    Converted(Base, Option<Kind>),
    /// A cast to a pointer, and whether it stands over a malloc that is for a pointer.
    Cast(Base, bool),
    Sized(Base),
}

/// What the rules read of an expression with two operands or more.
#[derive(Clone, Copy, Debug)]
pub enum OperatorShape {
    /// `*`, `/`, `%`, `&`, `|` or `^`
    Arithmetic(Option<Kind>, Option<Kind>),
    /// `<<` or `>>`
    Shifted(Option<Kind>, Option<Kind>),
    /// `+` or `-`
    Sum(Option<Kind>, Option<Kind>),
    /// `<`, `>`, `<=` or `>=`
    Ordered(Option<Kind>, Option<Kind>),
    /// `==` or `!=`
    Compared(Option<Kind>, Option<Kind>),
    /// `&&` or `||`
    Joined(Option<Kind>, Option<Kind>),
    /// `?:`
    Chosen(Option<Kind>, Option<Kind>, Option<Kind>),
    /// `=`: the left side, and the type of the right one.
    Assigned(Left, Option<Kind>),
    /// A computing assignment: its sign, the left side, and the types of both sides.
    Computed(Binary, Left, Option<Kind>, Option<Kind>),
}

/// What the rules read of a node: of its operands their types, where they have one.
#[derive(Clone, Copy, Debug)]
pub enum Shape {
    Item(ItemShape),
    Statement(StatementShape),
    Call(CallShape),
    Operand(OperandShape),
    Operator(OperatorShape),
}
