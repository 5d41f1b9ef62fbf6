//! What is found of an expression, by what is found of its operands: its type, and its typed form or the
//! first refusal in it.
ghost use Rattle.std.specs.Prelude.{◌≡◌, IfOk, None, false};
ghost use Rattle.c_tree.specs.ProgramOf.{expr_of};
ghost use Rattle.c_tree.specs.Programs as program;
ghost use Rattle.c_tree.specs.declared.program.Scalar.TheVariants as scalar;
ghost use Rattle.c_tree.specs.declared.program.Width.TheVariants as width;
ghost use Rattle.c_types.specs.Answers.{Makes};
ghost use Rattle.c_types.specs.Calls as calls;
ghost use Rattle.c_types.specs.Constants as constants;
ghost use Rattle.c_types.specs.Env.{first_some};
ghost use Rattle.c_types.specs.Nodes.{blame};
ghost use Rattle.c_types.specs.Outcomes.{fault};
ghost use Rattle.c_types.specs.Rules as rules;
ghost use Rattle.c_types.specs.Typed as typed;
ghost use Rattle.c_types.specs.declared.shapes.OperandShape.TheVariants as operand;
ghost use Rattle.c_types.specs.declared.shapes.OperatorShape.TheVariants as operator;
ghost use Rattle.c_types.specs.declared.shapes.Shape.TheVariants.{Operand, Operator};

use crate::calls::{cast_shape, is_field, unary_shape};
use crate::kinds::{Kind, Left};
use crate::making::{
    assignment, binary_made, cast_made, element_loaded, element_words, field_value, stepped,
    unary_made,
};
use crate::meanings::{binary_shape, meaning_of};
use crate::outcomes::{blamed, both};
use crate::refusals::TypeRefusal;
use crate::rules::kind;
use crate::shapes::{OperandShape, OperatorShape, Shape};
use c_tree::program::Expr;
use c_tree::syntax::{Base, Binary, Change, TypeName, Unary};
use mpc_values::Memory;
use std::alloc::Global;

/// What is found of an expression: its type, if it has one, and its typed form or the first refusal in it.
#[derive(Drop)]
pub struct Looked {
    pub kind: Option<Kind>,
    pub made: Result<Expr, TypeRefusal>,
}

/// A node without operands.
pub fn leaf(shape: Shape, line: u32, value: Expr) -> Looked
    ensures kind { result.kind ≡ rules.kind shape }
    ensures first { fault result.made ≡ blame (rules.rule shape) line None }
    ensures made { Makes result.made (expr_of value) }
{
    Looked {
        kind: kind(shape),
        made: blamed(shape, line, Ok(value)),
    }
}

/// A field of what was found.
pub fn field(alloc: Global, line: u32, name: &[u8], x: Looked) -> Result<Looked, Memory>
    ensures kind { IfOk result (λ r.
        r.kind ≡ rules.kind (Operand (operand.Field (calls.is_field name.now) x.kind))) }
    ensures first { IfOk result (λ r. fault r.made
        ≡ blame (rules.rule (Operand (operand.Field (calls.is_field name.now) x.kind))) line (fault x.made)) }
    ensures made { IfOk result (λ r. (a : program.Expr) → Makes x.made a →
        Makes r.made (program.Load (scalar.Number width.Int) (typed.field_place (typed.is_tag name.now) a))) }
{
    let shape = Shape::Operand(OperandShape::Field(is_field(name), x.kind));
    let kind = kind(shape);
    match blamed(shape, line, x.made) {
        Ok(value) => Ok(Looked {
            kind,
            made: Ok(field_value(alloc, is_tag(name), value)?),
        }),
        Err(refusal) => Ok(Looked {
            kind,
            made: Err(refusal),
        }),
    }
}

fn is_tag(name: &[u8]) -> bool
    ensures { result ≡ typed.is_tag name.now }
{
    name == b"MPI_TAG".as_slice()
}

/// `++` or `--` of what was found, before or behind it.
pub fn step(line: u32, change: Change, before: bool, side: Left, x: Looked) -> Looked
    ensures kind { result.kind ≡ rules.kind (Operand (operand.Stepped side)) }
    ensures first { fault result.made ≡ blame (rules.rule (Operand (operand.Stepped side))) line (fault x.made) }
    ensures made { (a : program.Expr) → Makes x.made a → Makes result.made
        (typed.stepped (typed.update_of (typed.change_operation change) x.kind x.kind) before a) }
{
    let shape = Shape::Operand(OperandShape::Stepped(side));
    let kind = kind(shape);
    match blamed(shape, line, x.made) {
        Ok(value) => Looked {
            kind,
            made: Ok(stepped(change, before, x.kind, value)),
        },
        Err(refusal) => Looked {
            kind,
            made: Err(refusal),
        },
    }
}

/// A sign before what was found.
pub fn unary(alloc: Global, line: u32, sign: Unary, side: Left, x: Looked) -> Result<Looked, Memory>
    ensures kind { IfOk result (λ r. r.kind ≡ rules.kind (calls.unary_shape sign side x.kind)) }
    ensures first { IfOk result (λ r. fault r.made
        ≡ blame (rules.rule (calls.unary_shape sign side x.kind)) line (fault x.made)) }
    ensures made { IfOk result (λ r. (a : program.Expr) → Makes x.made a →
        Makes r.made (typed.unary_made sign x.kind a)) }
{
    let shape = unary_shape(sign, side, x.kind);
    let kind = kind(shape);
    match blamed(shape, line, x.made) {
        Ok(value) => Ok(Looked {
            kind,
            made: Ok(unary_made(alloc, sign, x.kind, value)?),
        }),
        Err(refusal) => Ok(Looked {
            kind,
            made: Err(refusal),
        }),
    }
}

/// A cast of what was found, where a malloc would be for a pointer to such elements.
pub fn cast(
    alloc: Global,
    line: u32,
    want: Option<Base>,
    to: TypeName,
    over_malloc: bool,
    x: Looked,
) -> Result<Looked, Memory>
    ensures kind { IfOk result (λ r. r.kind ≡ rules.kind (calls.cast_shape want to over_malloc x.kind)) }
    ensures first { IfOk result (λ r. fault r.made
        ≡ blame (rules.rule (calls.cast_shape want to over_malloc x.kind)) line (fault x.made)) }
    ensures made { IfOk result (λ r. (a : program.Expr) → Makes x.made a →
        Makes r.made (typed.cast_made to x.kind a)) }
{
    let shape = cast_shape(want, to, over_malloc, x.kind);
    let kind = kind(shape);
    match blamed(shape, line, x.made) {
        Ok(value) => Ok(Looked {
            kind,
            made: Ok(cast_made(alloc, to, x.kind, value)?),
        }),
        Err(refusal) => Ok(Looked {
            kind,
            made: Err(refusal),
        }),
    }
}

/// An element of what was found.
pub fn element(alloc: Global, line: u32, x: Looked, y: Looked) -> Result<Looked, Memory>
    ensures kind { IfOk result (λ r. r.kind ≡ rules.kind (Operand (operand.Element x.kind y.kind))) }
    ensures first { IfOk result (λ r. fault r.made
        ≡ blame (rules.rule (Operand (operand.Element x.kind y.kind))) line (first_some (fault x.made) (fault y.made))) }
    ensures made { IfOk result (λ r. (a b : program.Expr) → Makes x.made a → Makes y.made b →
        Makes r.made (typed.element_loaded x.kind (program.Offset false (typed.element_words x.kind) a b))) }
{
    let shape = Shape::Operand(OperandShape::Element(x.kind, y.kind));
    let kind = kind(shape);
    match blamed(shape, line, both(x.made, y.made)) {
        Ok((pointer, index)) => {
            let place = Expr::Offset(
                false,
                element_words(x.kind),
                Box::new(alloc, pointer)?,
                Box::new(alloc, index)?,
            );
            Ok(Looked {
                kind,
                made: Ok(element_loaded(alloc, x.kind, place)?),
            })
        }
        Err(refusal) => Ok(Looked {
            kind,
            made: Err(refusal),
        }),
    }
}

/// A sign between what was found.
pub fn binary(
    alloc: Global,
    line: u32,
    sign: Binary,
    x: Looked,
    y: Looked,
) -> Result<Looked, Memory>
    ensures kind { IfOk result (λ r. r.kind ≡ rules.kind (constants.binary_shape sign x.kind y.kind)) }
    ensures first { IfOk result (λ r. fault r.made
        ≡ blame (rules.rule (constants.binary_shape sign x.kind y.kind)) line (first_some (fault x.made) (fault y.made))) }
    ensures made { IfOk result (λ r. (a b : program.Expr) → Makes x.made a → Makes y.made b →
        Makes r.made (typed.binary_made (constants.meaning_of sign) x.kind y.kind a b)) }
{
    let shape = binary_shape(sign, x.kind, y.kind);
    let kind = kind(shape);
    match blamed(shape, line, both(x.made, y.made)) {
        Ok((left, right)) => Ok(Looked {
            kind,
            made: Ok(binary_made(alloc, meaning_of(sign), x.kind, y.kind, left, right)?),
        }),
        Err(refusal) => Ok(Looked {
            kind,
            made: Err(refusal),
        }),
    }
}

/// `?:` of what was found.
pub fn choice(
    alloc: Global,
    line: u32,
    test: Looked,
    x: Looked,
    y: Looked,
) -> Result<Looked, Memory>
    ensures kind { IfOk result (λ r. r.kind ≡ rules.kind (Operator (operator.Chosen test.kind x.kind y.kind))) }
    ensures first { IfOk result (λ r. fault r.made
        ≡ blame (rules.rule (Operator (operator.Chosen test.kind x.kind y.kind))) line
        (first_some (fault test.made) (first_some (fault x.made) (fault y.made)))) }
    ensures made { IfOk result (λ r. (t a b : program.Expr) → Makes test.made t → Makes x.made a → Makes y.made b →
        Makes r.made (program.Choice t a b)) }
{
    let shape = Shape::Operator(OperatorShape::Chosen(test.kind, x.kind, y.kind));
    let kind = kind(shape);
    match blamed(shape, line, both(test.made, both(x.made, y.made))) {
        Ok((test, (left, right))) => {
            let value = Expr::Choice(
                Box::new(alloc, test)?,
                Box::new(alloc, left)?,
                Box::new(alloc, right)?,
            );
            Ok(Looked {
                kind,
                made: Ok(value),
            })
        }
        Err(refusal) => Ok(Looked {
            kind,
            made: Err(refusal),
        }),
    }
}

/// What the rules read of an assignment, by its sign where it is a computing one.
pub fn assigned_shape(sign: Option<Binary>, side: Left, a: Option<Kind>, b: Option<Kind>) -> Shape
    ensures { result ≡ calls.assigned_shape sign side a b }
{
    match sign {
        None => Shape::Operator(OperatorShape::Assigned(side, b)),
        Some(sign) => Shape::Operator(OperatorShape::Computed(sign, side, a, b)),
    }
}

/// An assignment of what was found.
pub fn assign(
    alloc: Global,
    line: u32,
    sign: Option<Binary>,
    side: Left,
    x: Looked,
    y: Looked,
) -> Result<Looked, Memory>
    ensures kind { IfOk result (λ r. r.kind ≡ rules.kind (calls.assigned_shape sign side x.kind y.kind)) }
    ensures first { IfOk result (λ r. fault r.made
        ≡ blame (rules.rule (calls.assigned_shape sign side x.kind y.kind)) line (first_some (fault x.made) (fault y.made))) }
    ensures made { IfOk result (λ r. (a b : program.Expr) → Makes x.made a → Makes y.made b →
        Makes r.made (typed.assignment sign x.kind y.kind a b)) }
{
    let shape = assigned_shape(sign, side, x.kind, y.kind);
    let kind = kind(shape);
    match blamed(shape, line, both(x.made, y.made)) {
        Ok((left, right)) => Ok(Looked {
            kind,
            made: Ok(assignment(alloc, sign, x.kind, y.kind, left, right)?),
        }),
        Err(refusal) => Ok(Looked {
            kind,
            made: Err(refusal),
        }),
    }
}
