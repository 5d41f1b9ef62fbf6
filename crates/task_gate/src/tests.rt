//! Visits on several threads, and a pass that lies in another gate's value.
ghost use Rattle.std.specs.Prelude.{◌≡◌, ◌++◌, ◌∷◌, [], IfSome, MatchBool, ℕ, map, vec_len};
ghost use base.Stored.{Gv, gnum};
ghost use Rattle.std.specs.Arc.{arc_value};
ghost use Rattle.mpc_base.specs.Starts.{job_of};
ghost use Rattle.task_gate.specs.Names.{gate_id};
ghost use Rattle.task_gate.specs.Passes.{gate_of, IsAt, IsOutside};

use crate::gates::Gate;
use crate::laws::gate_laws;
use crate::passes::Pass;
use mpc_base::{Job, Spawner, Started, ThreadSpawner, Traced};
use std::alloc::Global;
use std::marker::Model;
use std::sync::{Arc, Wait};
use std::test::*;
use std::thread::Threads;

// A value that appends: the number of the pass, and what it told.
#[derive(Drop)]
struct Log {
    entries: Vec<(u32, u64)>,
}

impl Traced for Log {
    ghost use Rattle.std.specs.Prelude.{map};
    ghost use base.Stored.{gnum, gnil};

    ghost history = { λ log. map (λ e. (e.0, gnum e.1)) log.entries.items };

    ghost base = { λ _. gnil };

    fn item_count(&self) -> u64 {
        self.entries.len() as u64
    }
}

impl Log {
    fn append(&mut self, number: u32, told: u64) -> bool
        ensures { MatchBool result (map {B = ℕ × Gv} (λ e. (e.0, gnum e.1)) self.new.entries.items ≡ map {B = ℕ × Gv} (λ e. (e.0, gnum e.1)) self.old.entries.items ++ (number, gnum told) ∷ []) (self.new.entries.items ≡ self.old.entries.items) }
    {
        self.entries.push((number, told)).is_ok()
    }
}

// One visit, which appends where there is memory.
fn visit<R: Wait>(rt: &R, gate: &Gate<Log>, pass: &mut Pass, number: u32, told: u64)
    requires { IsAt (gate_id gate.now) number pass.old }
    ensures { IsAt (gate_id gate.now) number pass.new }
{
    let mut log = gate.enter(rt, pass);
    log.append(number, told);
    gate.leave(pass, log);
}

fn visit_often<R: Wait>(rt: &R, gate: &Gate<Log>, mut pass: Pass, number: u32, visits: u64) -> Pass
    requires { IsAt (gate_id gate.now) number pass }
    ensures { IsAt (gate_id gate.now) number result }
{
    for told in 0..visits {
        visit(rt, gate, &mut pass, number, told);
    }
    pass
}

// Visits the gate so many times, and appends the number of each visit.
#[derive(Drop)]
struct Visitor {
    gate: Arc<Gate<Log>, Global>,
    pass: Pass,
    number: u32,
    visits: u64,
}

impl Model for Visitor {
    ghost use Rattle.std.specs.Prelude.{ℕ};
    ghost use Rattle.std.specs.Arc.{arc_value};
    ghost use Rattle.std.specs.Coded.{coded×, coded_ℕ};
    ghost use Rattle.atomic_table.specs.Seated.{TableId, table_id_coded};
    ghost use Rattle.task_gate.specs.Names.{gate_id};
    ghost use Rattle.task_gate.specs.Passes.{IsAt};

    ghost Value = { TableId × ℕ };

    ghost coded = { coded× table_id_coded coded_ℕ };

    ghost view = { λ v. (gate_id (arc_value v.gate), v.number) };

    ghost invariant = { λ v. IsAt (gate_id (arc_value v.gate)) v.number v.pass };
}

impl Job for Visitor {
    type Out = Pass;

    ghost use Rattle.task_gate.specs.Passes.{IsAt};

    ghost promise = { λ v pass. IsAt v.0 v.1 pass };

    fn run<R: Threads + Wait>(self, rt: &R) -> Pass {
        let Visitor {
            gate,
            pass,
            number,
            visits,
        } = self;
        visit_often(rt, &gate, pass, number, visits)
    }
}

fn five(mut passes: Vec<Pass>) -> Option<((Pass, Pass), (Pass, Pass), Pass)>
    requires { vec_len passes ≡ 5 }
    ensures { IfSome result (λ t. passes.items ≡ t.0.0 ∷ t.0.1 ∷ t.1.0 ∷ t.1.1 ∷ t.2 ∷ []) }
{
    let fifth = passes.pop()?;
    let fourth = passes.pop()?;
    let third = passes.pop()?;
    let second = passes.pop()?;
    let first = passes.pop()?;
    Some(((first, second), (third, fourth), fifth))
}

// A gate over an empty log, with five passes.
fn opened(alloc: Global) -> Option<(Gate<Log>, ((Pass, Pass), (Pass, Pass), Pass))>
    ensures first { IfSome result (λ r. IsAt (gate_id r.0) 0 r.1.0.0 × IsAt (gate_id r.0) 1 r.1.0.1) }
    ensures second { IfSome result (λ r. IsAt (gate_id r.0) 2 r.1.1.0 × IsAt (gate_id r.0) 3 r.1.1.1) }
    ensures own { IfSome result (λ r. IsAt (gate_id r.0) 4 r.1.2) }
{
    let empty = Log {
        entries: Vec::new(alloc),
    };
    let Ok((gate, passes)) = Gate::new(alloc, empty, 5) else {
        return None;
    };
    let Some(passes) = five(passes) else {
        return None;
    };
    Some((gate, passes))
}

// Four visitors visit side by side, and what their passes know goes to the own pass.
fn run_four<R: Threads + Wait + Clone + Drop + Send + 'static>(
    rt: &R,
    gate: &Gate<Log>,
    own: &mut Pass,
    first: (Visitor, Visitor),
    second: (Visitor, Visitor),
) -> bool
    requires own { IsAt (gate_id gate.now) 4 own.old }
    requires first { (first.0.0 ≡ gate_id gate.now) × (first.1.0 ≡ gate_id gate.now) }
    requires second { (second.0.0 ≡ gate_id gate.now) × (second.1.0 ≡ gate_id gate.now) }
    ensures { IsAt (gate_id gate.now) 4 own.new }
{
    let mut spawner = ThreadSpawner::new();
    let Some((one, two)) = begun(rt, &mut spawner, first) else {
        return false;
    };
    let Some((three, four)) = begun(rt, &mut spawner, second) else {
        finish(rt, gate, own, &mut spawner, one);
        finish(rt, gate, own, &mut spawner, two);
        return false;
    };
    finish(rt, gate, own, &mut spawner, one);
    finish(rt, gate, own, &mut spawner, two);
    finish(rt, gate, own, &mut spawner, three);
    finish(rt, gate, own, &mut spawner, four);
    true
}

fn begun<R: Threads + Wait + Clone + Drop + Send + 'static>(
    rt: &R,
    spawner: &mut ThreadSpawner,
    visitors: (Visitor, Visitor),
) -> Option<(Started<Visitor>, Started<Visitor>)>
    ensures { IfSome result (λ r. (job_of r.0 ≡ visitors.0) × (job_of r.1 ≡ visitors.1)) }
{
    let (one, two) = visitors;
    let Ok(one) = spawner.start(rt, one) else {
        return None;
    };
    let Ok(two) = spawner.start(rt, two) else {
        drop(spawner.join(rt, one));
        return None;
    };
    Some((one, two))
}

fn finish<R: Threads + Wait>(
    rt: &R,
    gate: &Gate<Log>,
    own: &mut Pass,
    spawner: &mut ThreadSpawner,
    started: Started<Visitor>,
)
    requires own { IsAt (gate_id gate.now) 4 own.old }
    requires started { (job_of started).0 ≡ gate_id gate.now }
    ensures { IsAt (gate_id gate.now) 4 own.new }
{
    let pass = spawner.join(rt, started);
    gate.join(own, pass);
}

fn make_visitor(
    gate: &Arc<Gate<Log>, Global>,
    pass: Pass,
    number: u32,
    visits: u64,
) -> Option<Visitor>
    requires { IsAt (gate_id (arc_value gate.now)) number pass }
    ensures { IfSome result (λ v. v.0 ≡ gate_id (arc_value gate.now)) }
{
    let Ok(gate) = Arc::try_clone(gate) else {
        return None;
    };
    Some(Visitor {
        gate,
        pass,
        number,
        visits,
    })
}

// The log after four threads of so many visits each.
fn visited<R: Threads + Wait + Clone + Drop + Send + 'static>(
    rt: &R,
    alloc: Global,
    visits: u64,
) -> Option<Log> {
    let (gate, (first, second, mut own)) = opened(alloc)?;
    let Ok(gate) = Arc::new(alloc, gate) else {
        return None;
    };
    let one = make_visitor(&gate, first.0, 0, visits)?;
    let two = make_visitor(&gate, first.1, 1, visits)?;
    let three = make_visitor(&gate, second.0, 2, visits)?;
    let four = make_visitor(&gate, second.1, 3, visits)?;
    let gate: &Gate<Log> = &gate;
    if !run_four(rt, gate, &mut own, (one, two), (three, four)) {
        return None;
    }
    Some(gate.enter(rt, &mut own))
}

#[test]
fn four_threads_visit_one_gate(rt: HostRuntime) -> Result<(), Fail> {
    gate_laws();
    let log = visited(&rt, rt.alloc(), 1000);
    assert!(rt; log.is_some());
    if let Some(log) = log {
        assert_eq!(rt; log.entries.len(), 4000);
        for number in 0..4 {
            let mut next = 0u64;
            for (of, told) in &log.entries {
                if *of == number {
                    assert_eq!(rt; *told, next, "of pass {number}");
                    next = next.wrapping_add(1);
                }
            }
            assert_eq!(rt; next, 1000, "of pass {number}");
        }
    }
    Ok(())
}

// Keeps a pass of the log's gate, in a gate of its own.
#[derive(Drop)]
struct Shelf {
    gate: Arc<Gate<Log>, Global>,
    pass: Option<Pass>,
}

impl Model for Shelf {
    ghost use Rattle.std.specs.Arc.{arc_value};
    ghost use Rattle.std.specs.Prelude.{IfSome};
    ghost use Rattle.atomic_table.specs.Seated.{TableId, table_id_coded};
    ghost use Rattle.task_gate.specs.Names.{gate_id};
    ghost use Rattle.task_gate.specs.Passes.{IsAt};

    ghost Value = { TableId };

    ghost coded = { table_id_coded };

    ghost view = { λ shelf. gate_id (arc_value shelf.gate) };

    ghost invariant = { λ shelf. IfSome shelf.pass (IsAt (gate_id (arc_value shelf.gate)) 0) };
}

impl Traced for Shelf {
    ghost use Rattle.std.specs.Prelude.{[]};
    ghost use Rattle.atomic_table.specs.Seated.{table_id_coded};

    ghost history = { λ _. [] };

    ghost base = { λ shelf. table_id_coded.code shelf };

    fn item_count(&self) -> u64 {
        0
    }
}

// Takes the pass from the shelf, visits the log's gate with it, and puts it back.
fn visit_from_shelf<R: Wait>(rt: &R, shelves: &Gate<Shelf>, mine: &mut Pass, told: u64)
    requires { (gate_of mine.old ≡ gate_id shelves.now) × IsOutside mine.old }
    ensures { (gate_of mine.new ≡ gate_id shelves.now) × IsOutside mine.new }
{
    let shelf = shelves.enter(rt, mine);
    shelves.leave(mine, after_visit(rt, shelf, told));
}

fn after_visit<R: Wait>(rt: &R, shelf: Shelf, told: u64) -> Shelf
    ensures { result ≡ shelf }
{
    let Shelf { gate, pass } = shelf;
    let log_gate: &Gate<Log> = &gate;
    let pass = match pass {
        Some(mut pass) => {
            visit(rt, log_gate, &mut pass, 0, told);
            Some(pass)
        }
        None => None,
    };
    Shelf { gate, pass }
}

fn only(mut passes: Vec<Pass>) -> Option<Pass>
    requires { vec_len passes ≡ 1 }
    ensures { IfSome result (λ pass. passes.items ≡ pass ∷ []) }
{
    passes.pop()
}

fn shelves(alloc: Global, gate: Arc<Gate<Log>, Global>, pass: Pass) -> Option<(Gate<Shelf>, Pass)>
    requires { IsAt (gate_id (arc_value gate)) 0 pass }
    ensures { IfSome result (λ r. (gate_of r.1 ≡ gate_id r.0) × IsOutside r.1) }
{
    let first = Shelf {
        gate,
        pass: Some(pass),
    };
    let Ok((shelves, passes)) = Gate::new(alloc, first, 1) else {
        return None;
    };
    let Some(mine) = only(passes) else {
        return None;
    };
    Some((shelves, mine))
}

// The log after visits with a pass that lies in another gate's value between them.
fn visited_from_shelf<R: Wait>(rt: &R, alloc: Global) -> Option<Log> {
    let (gate, (passes, _, mut own)) = opened(alloc)?;
    let Ok(gate) = Arc::new(alloc, gate) else {
        return None;
    };
    let Ok(theirs) = Arc::try_clone(&gate) else {
        return None;
    };
    let (shelves, mut mine) = shelves(alloc, theirs, passes.0)?;
    visit_from_shelf(rt, &shelves, &mut mine, 7);
    visit_from_shelf(rt, &shelves, &mut mine, 8);
    let gate: &Gate<Log> = &gate;
    Some(gate.enter(rt, &mut own))
}

#[test]
fn a_pass_lies_in_another_gate(rt: HostRuntime) -> Result<(), Fail> {
    let log = visited_from_shelf(&rt, rt.alloc());
    assert!(rt; log.is_some());
    if let Some(log) = log {
        assert_eq!(rt; log.entries.as_slice(), [(0, 7), (0, 8)].as_slice());
    }
    Ok(())
}
