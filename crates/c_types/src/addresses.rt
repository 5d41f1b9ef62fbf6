//! Which locals of a function have their address taken: a first walk over the function.
ghost use Rattle.std.specs.Prelude.{◌≡◌, OnOk, IfOk, false, [], ◌∷◌, ◌++◌, map, length, cond};
ghost use Rattle.c_tree.specs.SyntaxOf.{expr_of, exprs_of, maybe_of, initializer_of, declarator_of, declaration_of, head_of, stmt_of, stmts_of};
ghost use Rattle.c_types.specs.Addresses as addresses;
ghost use Rattle.c_types.specs.KnownNames.{known};

use crate::kinds::{Decl, Home, Kind, Known, Variable};
use crate::known_names::known;
use crate::scopes::Scopes;
use crate::variables::variable_of;
use c_tree::mpi::MpiFunction;
use c_tree::syntax::{
    Base, Declaration, Declarator, Expr, ForHead, Initializer, Param, Stmt, Unary,
};
use mpc_values::Memory;
use std::alloc::Global;
use std::marker::Model;

/// The scopes of a function at a place of it, and by slot whether a local's address is taken before.
#[derive(Drop)]
pub struct Frame {
    scopes: Scopes,
    taken: Vec<bool>,
}

impl Model for Frame {
    ghost use Rattle.c_types.specs.Addresses as addresses;
    ghost use Rattle.c_types.specs.FrameCode.{frame_code};

    ghost Value = { addresses.Frame };

    ghost coded = { frame_code };

    ghost view = { λ f. record { scopes = f.scopes; taken = f.taken.items } };
}

impl Frame {
    // The address of what a name stands for is taken.
    fn mark(&mut self, decl: Option<Decl>)
        ensures { self.new ≡ addresses.mark self.old decl }
    {
        if let Some(Decl::Variable(variable)) = decl {
            self.mark_home(variable.home);
        }
    }

    fn mark_home(&mut self, home: Home)
        ensures { self.new ≡ addresses.mark_home self.old home }
    {
        if let Home::Local(slot) = home {
            if let Some(taken) = self.taken.get_mut(slot as usize) {
                *taken = true;
            }
        }
    }

    // The next slot, for a local whose address is not taken yet.
    fn next_slot(&mut self) -> Result<u32, Memory>
        ensures grown { OnOk result (self.new ≡ record self.old { taken = self.old.taken ++ false ∷ [] }) }
        ensures number { IfOk result (λ slot. slot ≡ length self.old.taken) }
    {
        let slot = u32::try_from(self.taken.len()).map_err(|_| Memory)?;
        self.taken.push(false)?;
        Ok(slot)
    }
}

// Behind an expression.
#[cycle(through)]
fn through(alloc: Global, frame: &mut Frame, e: &Expr) -> Result<(), Memory>
    ensures { OnOk result (frame.new ≡ addresses.through frame.old (expr_of e.now)) }
{
    match e {
        Expr::Name(_, _) | Expr::Number(_, _, _) | Expr::Text(_, _) | Expr::SizeOf(_, _) => Ok(()),
        Expr::Call(_, name, arguments) => {
            through_call(alloc, frame, name.as_slice(), arguments)?;
            Ok(())
        }
        Expr::Field(_, value, _)
        | Expr::Postfix(_, _, value)
        | Expr::Prefix(_, _, value)
        | Expr::Cast(_, _, value) => through(alloc, frame, value),
        Expr::Unary(_, sign, value) => {
            located(*sign, frame, value);
            through(alloc, frame, value)
        }
        Expr::Index(_, left, right)
        | Expr::Binary(_, _, left, right)
        | Expr::Assign(_, _, left, right) => {
            through(alloc, frame, left)?;
            through(alloc, frame, right)
        }
        Expr::Choice(_, test, left, right) => {
            through(alloc, frame, test)?;
            through(alloc, frame, left)?;
            through(alloc, frame, right)
        }
    }
}

// A sign stands before an operand.
fn located(sign: Unary, frame: &mut Frame, operand: &Expr)
    ensures { frame.new ≡ addresses.located sign frame.old (expr_of operand.now) }
{
    if let (Unary::Address, Expr::Name(_, name)) = (sign, operand) {
        let decl = frame.scopes.find(name.as_slice());
        frame.mark(decl);
    }
}

fn is_start(known: Option<Known>) -> bool
    ensures { result ≡ addresses.is_start known }
{
    match known {
        Some(Known::Mpi(MpiFunction::Init)) => true,
        _ => false,
    }
}

// The arguments of a call of this name.
#[cycle(through)]
fn through_call(
    alloc: Global,
    frame: &mut Frame,
    name: &[u8],
    arguments: &[Expr],
) -> Result<(), Memory>
    ensures { OnOk result (frame.new ≡ cond (addresses.is_start (known name.now)) frame.old (addresses.through_all frame.old (exprs_of arguments.now))) }
{
    if is_start(known(name)) {
        return Ok(());
    }
    through_all(alloc, frame, arguments)
}

#[cycle(through)]
fn through_all(alloc: Global, frame: &mut Frame, all: &[Expr]) -> Result<(), Memory>
    ensures { OnOk result (frame.new ≡ addresses.through_all frame.old (exprs_of all.now)) }
{
    for e in all {
        through(alloc, frame, e)?;
    }
    Ok(())
}

fn through_maybe(alloc: Global, frame: &mut Frame, e: &Option<Expr>) -> Result<(), Memory>
    ensures { OnOk result (frame.new ≡ addresses.through_maybe frame.old (maybe_of e.now)) }
{
    match e {
        Some(e) => through(alloc, frame, e),
        None => Ok(()),
    }
}

// A declarator's name: a static local hides outer names, and takes no slot.
fn with_name(is_static: bool, base: Base, frame: &mut Frame, d: &Declarator) -> Result<(), Memory>
    ensures { OnOk result (frame.new ≡ addresses.with_name is_static base frame.old (declarator_of d.now)) }
{
    let home = if is_static {
        Home::Static(0)
    } else {
        Home::Local(frame.next_slot()?)
    };
    let variable = variable_of(base, d, home);
    frame
        .scopes
        .put(d.name.clone()?.into_vec(), Decl::Variable(variable))
}

// A variable stands in its own initializer.
fn through_initial(
    alloc: Global,
    is_static: bool,
    frame: &mut Frame,
    initializer: &Initializer,
) -> Result<(), Memory>
    ensures { OnOk result (frame.new ≡ addresses.through_initial is_static frame.old (initializer_of initializer.now)) }
{
    match initializer {
        Initializer::Value(value) if !is_static => through(alloc, frame, value),
        _ => Ok(()),
    }
}

fn with_declarators(
    alloc: Global,
    is_static: bool,
    base: Base,
    frame: &mut Frame,
    all: &[Declarator],
) -> Result<(), Memory>
    ensures { OnOk result (frame.new ≡ addresses.with_declarators is_static base frame.old (map declarator_of all.now)) }
{
    for d in all {
        with_name(is_static, base, frame, d)?;
        through_initial(alloc, is_static, frame, &d.initializer)?;
    }
    Ok(())
}

fn with_declaration(alloc: Global, frame: &mut Frame, d: &Declaration) -> Result<(), Memory>
    ensures { OnOk result (frame.new ≡ addresses.with_declaration frame.old (declaration_of d.now)) }
{
    with_declarators(alloc, d.is_static, d.base, frame, &d.declarators)
}

fn through_head(alloc: Global, frame: &mut Frame, head: &ForHead) -> Result<(), Memory>
    ensures { OnOk result (frame.new ≡ addresses.through_head frame.old (head_of head.now)) }
{
    match head {
        ForHead::Nothing => Ok(()),
        ForHead::Declared(declaration) => with_declaration(alloc, frame, declaration),
        ForHead::Evaluated(value) => through(alloc, frame, value),
    }
}

// Behind a statement.
#[cycle(behind)]
fn behind(alloc: Global, frame: &mut Frame, s: &Stmt) -> Result<(), Memory>
    ensures { OnOk result (frame.new ≡ addresses.behind frame.old (stmt_of s.now)) }
{
    match s {
        Stmt::Empty(_) | Stmt::Break(_) | Stmt::Continue(_) | Stmt::Barrier(_, _) => Ok(()),
        Stmt::Eval(_, value) => through(alloc, frame, value),
        Stmt::Declare(declaration) => with_declaration(alloc, frame, declaration),
        Stmt::Block(_, items, _) => {
            behind_block(alloc, frame, items)?;
            Ok(())
        }
        Stmt::If(_, test, body) | Stmt::While(_, test, body) => {
            through(alloc, frame, test)?;
            behind(alloc, frame, body)
        }
        Stmt::IfElse(_, test, body, other) => {
            through(alloc, frame, test)?;
            behind(alloc, frame, body)?;
            behind(alloc, frame, other)
        }
        Stmt::DoWhile(_, body, test) => {
            behind(alloc, frame, body)?;
            through(alloc, frame, test)
        }
        Stmt::For(_, head, test, step, body) => {
            frame.scopes.enter(alloc)?;
            through_head(alloc, frame, head)?;
            through_maybe(alloc, frame, test)?;
            through_maybe(alloc, frame, step)?;
            behind(alloc, frame, body)?;
            frame.scopes.leave();
            Ok(())
        }
        Stmt::Return(_, value) => through_maybe(alloc, frame, value),
        Stmt::Single(_, _, _, body) => behind(alloc, frame, body),
    }
}

#[cycle(behind)]
fn behind_block(alloc: Global, frame: &mut Frame, items: &[Stmt]) -> Result<(), Memory>
    ensures { OnOk result (frame.new ≡ addresses.leave_frame (addresses.behind_all (addresses.enter_frame frame.old) (stmts_of items.now))) }
{
    frame.scopes.enter(alloc)?;
    behind_all(alloc, frame, items)?;
    frame.scopes.leave();
    Ok(())
}

#[cycle(behind)]
fn behind_all(alloc: Global, frame: &mut Frame, all: &[Stmt]) -> Result<(), Memory>
    ensures { OnOk result (frame.new ≡ addresses.behind_all frame.old (stmts_of all.now)) }
{
    for s in all {
        behind(alloc, frame, s)?;
    }
    Ok(())
}

// A parameter takes the next slot.
fn with_parameter(frame: &mut Frame, parameter: &Param) -> Result<(), Memory>
    ensures { OnOk result (frame.new ≡ addresses.with_parameter frame.old parameter.now) }
{
    let variable = Variable {
        kind: Kind::Plain(Base::Int),
        is_array: false,
        home: Home::Local(frame.next_slot()?),
    };
    frame.scopes.put(parameter.name.clone()?.into_vec(), Decl::Variable(variable))
}

fn with_parameters(frame: &mut Frame, all: &[Param]) -> Result<(), Memory>
    ensures { OnOk result (frame.new ≡ addresses.with_parameters frame.old all.now) }
{
    for parameter in all {
        with_parameter(frame, parameter)?;
    }
    Ok(())
}

/// By slot, whether a local's address is taken in a function with these parameters and items.
pub fn taken_slots(alloc: Global, parameters: &[Param], items: &[Stmt]) -> Result<Vec<bool>, Memory>
    ensures { IfOk result (λ taken. taken.items ≡ addresses.taken_slots parameters.now (stmts_of items.now)) }
{
    let mut frame = Frame {
        scopes: Scopes::new(alloc),
        taken: Vec::new(alloc),
    };
    frame.scopes.enter(alloc)?;
    with_parameters(&mut frame, parameters)?;
    behind_all(alloc, &mut frame, items)?;
    Ok(frame.taken)
}
