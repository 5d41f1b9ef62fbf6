//! The names of types (C99, section 6.7.6).
ghost use Rattle.std.specs.Prelude.{◌≡◌, Ok};
ghost use Rattle.c_parse.specs.Expressions as spec;
ghost use Rattle.c_parse.specs.Reading.{Reads, behind_if, itself};

use crate::cursor::Cursor;
use crate::signs::{base_of, is_number, is_star};
use crate::stops::Stop;
use crate::symbols::Key;
use c_tree::syntax::{Base, TypeName};

/// A base: a key, or `long int`.
#[tactic(auto, unfolding(crate::specs::Expressions::type_base))]
pub fn type_base(cursor: &mut Cursor<'_>) -> Result<Base, Stop>
    ensures { Reads itself (spec.type_base cursor.old) result cursor.new }
{
    match base_of(cursor.class()) {
        Some(Base::Long) => {
            cursor.advance();
            cursor.eat_key(Key::Int);
            Ok(Base::Long)
        }
        Some(base) => {
            cursor.advance();
            Ok(base)
        }
        None => Err(Stop::Refused),
    }
}

#[tactic(auto, unfolding(crate::specs::Expressions::sees_star))]
fn sees_star(cursor: &Cursor<'_>, base: Base) -> bool
    ensures { result ≡ spec.sees_star base cursor.now }
{
    is_number(base) && is_star(cursor.class())
}

/// Goes behind a `*`, if it comes next and may stand behind this base, and tells so.
pub fn star(cursor: &mut Cursor<'_>, base: Base) -> bool
    ensures found { result ≡ spec.sees_star base cursor.old }
    ensures after { cursor.new ≡ behind_if (spec.sees_star base cursor.old) cursor.old }
{
    let found = sees_star(cursor, base);
    cursor.advance_if(found);
    found
}

/// A base, and whether a `*` stands behind it.
#[tactic(auto, unfolding(crate::specs::Expressions::type_name))]
pub fn type_name(cursor: &mut Cursor<'_>) -> Result<TypeName, Stop>
    ensures { Reads itself (spec.type_name cursor.old) result cursor.new }
{
    let base = type_base(cursor)?;
    let pointer = star(cursor, base);
    Ok(TypeName { base, pointer })
}
