//! The tree of a source before its types are known (C99, sections 6.5 to 6.9). Each node has the
//! place of its first token. Parentheses leave no node, and neither does a foreign pragma.

use crate::names::{Identifier, Identifiers};
use mpc_values::{Level, Text};

/// A line and a column of the source, both from 1; columns count bytes.
#[derive(Clone, Copy, Debug, PartialEq, Eq)]
pub struct Place {
    pub line: u32,
    pub col: u32,
}

/// The type that a declaration begins with: `int`, `long` or `long int`, or one of MPI's.
#[derive(Clone, Copy, Debug, PartialEq, Eq)]
pub enum Base {
    Int,
    Long,
    Comm,
    Request,
    Status,
}

/// A base, and whether a `*` stands behind it.
#[derive(Clone, Copy, Debug, PartialEq, Eq)]
pub struct TypeName {
    pub base: Base,
    pub pointer: bool,
}

/// A sign before its one operand (C99, section 6.5.3).
#[derive(Clone, Copy, Debug, PartialEq, Eq)]
pub enum Unary {
    /// `-`
    Minus,
    /// `+`
    Plus,
    /// `!`
    Not,
    /// `~`
    Complement,
    /// `*`
    Indirection,
    /// `&`
    Address,
}

/// A sign between its two operands (C99, sections 6.5.5 to 6.5.14).
#[derive(Clone, Copy, Debug, PartialEq, Eq)]
pub enum Binary {
    Multiply,
    Divide,
    Remainder,
    Add,
    Subtract,
    ShiftLeft,
    ShiftRight,
    Less,
    Greater,
    LessEqual,
    GreaterEqual,
    Equal,
    NotEqual,
    BitAnd,
    BitXor,
    BitOr,
    /// `&&`
    And,
    /// `||`
    Or,
}

/// `++` or `--`.
#[derive(Clone, Copy, Debug, PartialEq, Eq)]
pub enum Change {
    Increment,
    Decrement,
}

/// An expression.
#[derive(Debug, Drop)]
pub enum Expr {
    Name(Place, Identifier),
    /// A number's value, and whether it is a long.
    Number(Place, i64, bool),
    /// A text as it stands in the source, with its quotes.
    Text(Place, Text),
    /// A call of the function of this name.
    Call(Place, Identifier, Vec<Expr>),
    Index(Place, Box<Expr>, Box<Expr>),
    Field(Place, Box<Expr>, Identifier),
    /// A `++` or `--` behind its operand.
    Postfix(Place, Change, Box<Expr>),
    /// A `++` or `--` before its operand.
    Prefix(Place, Change, Box<Expr>),
    Unary(Place, Unary, Box<Expr>),
    Cast(Place, TypeName, Box<Expr>),
    SizeOf(Place, Base),
    Binary(Place, Binary, Box<Expr>, Box<Expr>),
    /// `?:`
    Choice(Place, Box<Expr>, Box<Expr>, Box<Expr>),
    /// An assignment; a computing one, as `+=`, has its sign.
    Assign(Place, Option<Binary>, Box<Expr>, Box<Expr>),
}

/// What stands behind the `=` of a declarator, if anything does.
#[derive(Debug, Drop)]
pub enum Initializer {
    Nothing,
    Value(Expr),
    /// Values in braces.
    List(Vec<Expr>),
}

/// A declared variable (C99, section 6.7.5). Its place is that of its `*` or its name.
#[derive(Debug, Drop)]
pub struct Declarator {
    pub at: Place,
    pub pointer: bool,
    pub name: Identifier,
    /// The length, where it is an array.
    pub len: Option<Expr>,
    pub initializer: Initializer,
}

/// A declaration of variables (C99, section 6.7).
#[derive(Debug, Drop)]
pub struct Declaration {
    pub at: Place,
    pub is_static: bool,
    pub base: Base,
    /// At least one.
    pub declarators: Vec<Declarator>,
}

/// What a `for` begins with.
#[derive(Debug, Drop)]
pub enum ForHead {
    Nothing,
    Declared(Declaration),
    Evaluated(Expr),
}

/// A statement (C99, section 6.8), or a declaration in a block.
#[derive(Debug, Drop)]
pub enum Stmt {
    /// A lone `;`.
    Empty(Place),
    Eval(Place, Expr),
    Declare(Declaration),
    /// A block, and the line of its closing brace.
    Block(Place, Vec<Stmt>, u32),
    If(Place, Expr, Box<Stmt>),
    IfElse(Place, Expr, Box<Stmt>, Box<Stmt>),
    While(Place, Expr, Box<Stmt>),
    DoWhile(Place, Box<Stmt>, Expr),
    /// The head, the condition, the step and the body.
    For(Place, ForHead, Option<Expr>, Option<Expr>, Box<Stmt>),
    Return(Place, Option<Expr>),
    Break(Place),
    Continue(Place),
    /// The variables' names, whether it is `nowait`, and the block. Its place is that of the pragma.
    Single(Place, Identifiers, bool, Box<Stmt>),
    Barrier(Place, Identifiers),
}

/// The type of a parameter as it is written.
#[derive(Clone, Copy, Debug, PartialEq, Eq)]
pub enum ParamType {
    Plain(TypeName),
    /// `base NAME []`
    Array(Base),
    /// `char **NAME` or `char *NAME[]`
    Arguments,
}

/// A parameter of a function (C99, section 6.7.5.3).
#[derive(Debug, Drop)]
pub struct Param {
    pub at: Place,
    pub param_type: ParamType,
    pub name: Identifier,
}

/// What a function answers.
#[derive(Clone, Copy, Debug, PartialEq, Eq)]
pub enum Returns {
    Void,
    Value(TypeName),
}

/// The block of a function: the place of its brace, and the line of the closing one.
#[derive(Debug, Drop)]
pub struct Body {
    pub at: Place,
    pub items: Vec<Stmt>,
    pub end_line: u32,
}

/// A prototype or a definition of a function (C99, section 6.9.1).
#[derive(Debug, Drop)]
pub struct Function {
    pub at: Place,
    pub is_static: bool,
    pub returns: Returns,
    pub name: Identifier,
    /// Empty for `()` and for `(void)`.
    pub params: Vec<Param>,
    /// A prototype has none.
    pub body: Option<Body>,
}

/// An item of a source.
#[derive(Debug, Drop)]
pub enum Item {
    /// A directive that gives file-scope variables a level.
    Scope(Place, Level, Identifiers),
    Declare(Declaration),
    Function(Function),
}

/// The tree of a source.
#[derive(Debug, Drop)]
pub struct Tree {
    pub items: Vec<Item>,
    /// The line of the last token that is no foreign pragma, or 1 where there is none.
    pub last_line: u32,
}
