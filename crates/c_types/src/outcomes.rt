//! The answers of a pass over a part of the tree: what it makes, or the first refusal.
ghost use Rattle.std.specs.Prelude.{◌≡◌, IfOk, Ok, Some};
ghost use Rattle.c_types.specs.Env.{first_some};
ghost use Rattle.c_types.specs.Nodes.{blame};
ghost use Rattle.c_types.specs.Outcomes.{fault, Appends};
ghost use Rattle.c_types.specs.Rules as rules;

use crate::refusals::TypeRefusal;
use crate::rules::rule;
use crate::shapes::Shape;
use mpc_values::Memory;

/// A node's own rule comes before what stands in it.
pub fn blamed<A: Drop>(
    shape: Shape,
    line: u32,
    inside: Result<A, TypeRefusal>,
) -> Result<A, TypeRefusal>
    ensures refused { fault result ≡ blame (rules.rule shape) line (fault inside) }
    ensures made { IfOk result (λ made. inside ≡ Ok made) }
{
    match rule(shape) {
        Some(rule) => Err(TypeRefusal { rule, line }),
        None => inside,
    }
}

/// The first refusal of two parts, of which the first stands before the second.
pub fn both<A: Drop, B: Drop>(
    first: Result<A, TypeRefusal>,
    second: Result<B, TypeRefusal>,
) -> Result<(A, B), TypeRefusal>
    ensures refused { fault result ≡ first_some (fault first) (fault second) }
    ensures left { IfOk result (λ made. first ≡ Ok made.0) }
    ensures right { IfOk result (λ made. second ≡ Ok made.1) }
{
    match first {
        Err(refusal) => Err(refusal),
        Ok(first) => match second {
            Err(refusal) => Err(refusal),
            Ok(second) => Ok((first, second)),
        },
    }
}

/// The first refusal of two parts that make nothing.
pub fn then(
    first: Result<(), TypeRefusal>,
    second: Result<(), TypeRefusal>,
) -> Result<(), TypeRefusal>
    ensures { fault result ≡ first_some (fault first) (fault second) }
{
    match first {
        Err(refusal) => Err(refusal),
        Ok(()) => second,
    }
}

/// The items of one part and then those of the next.
pub fn appended<A: Drop>(
    all: Result<Vec<A>, TypeRefusal>,
    more: Result<Vec<A>, TypeRefusal>,
) -> Result<Result<Vec<A>, TypeRefusal>, Memory>
    ensures refused { IfOk result (λ r. fault r ≡ first_some (fault all) (fault more)) }
    ensures made { IfOk result (λ r. IfOk r (λ items. Appends all more items.items)) }
{
    match all {
        Err(refusal) => Ok(Err(refusal)),
        Ok(mut all) => match more {
            Err(refusal) => Ok(Err(refusal)),
            Ok(mut more) => {
                all.append(&mut more)?;
                Ok(Ok(all))
            }
        },
    }
}
