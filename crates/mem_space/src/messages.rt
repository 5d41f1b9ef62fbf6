//! Messages under way: marks of their places, and their copies.
ghost use Rattle.std.specs.Prelude.{◌≡◌, ◌<◌, ◌≤◌, if◌then◌else◌, IfOk, IfErr, OnErr, Err};
ghost use Rattle.memory_model.specs.Memory.{Memory as Memories};
ghost use Rattle.memory_model.specs.Marks.{barred_to_loads, barred_to_stores};
ghost use Rattle.memory_model.specs.Ranges.{span_of};
ghost use Rattle.memory_model.specs.declared.kinds.Span.{Span as Places};
ghost use Rattle.block_table.specs.Rows.{is_send, is_receive, with_send, with_receive, without_send, without_receive};
ghost use Rattle.object_heap.specs.Objects.{Shows};
ghost use Rattle.object_heap.specs.Marks.{marks_in};
ghost use Rattle.object_heap.specs.Copies.{IsOneCopy};
ghost use Rattle.mem_space.specs.Spaces.{IsTask, owner_for};
ghost use Rattle.mem_space.specs.Places.{IsPlaces, IsMarked, CanCount, Pends, Remarks, SendsOver};
ghost use Rattle.mem_space.specs.Copies.{Holds, Lands, Discards};

use crate::space::Space;
use block_table::Span;
use mpc_values::{Fault, Memory, Word};
use mpi_copy::Held;

impl Space {
    /// Marks the places that a send names, one or more, which are loaded. Its faults are NullAccess, Dangling, Bounds, and
    /// PendingTouch where a receive has a place, in this order (MPI 3.1, section 3.7.2).
    pub fn pend_send(&mut self, task: u32, at: Word, count: u32) -> Result<Span, Fault>
        requires task { IsTask self.old task }
        requires some { 0 < count }
        requires few { CanCount self.old task at count }
        ensures ok { IfOk result (λ span. Pends self.old self.new task at count (barred_to_loads (marks_in self.old.heap)) with_send span) }
        ensures marked { IfOk result (λ span. IsMarked self.new span is_send) }
        ensures err { IfErr result (λ fault. (m : Memories) → Shows self.old.heap m → span_of (owner_for self.old.sharing task) (barred_to_loads (marks_in self.old.heap)) m at count ≡ Err fault) }
        ensures same { OnErr result (self.new ≡ self.old) }
    {
        let span = self.range(task, at, count, false)?;
        self.heap.mark_send(span.key, span.at, span.len);
        Ok(span)
    }

    /// Marks the places that a receive names, one or more, which are stored to. Its faults are NullAccess, Dangling,
    /// Bounds, and PendingTouch where a message under way has a place, in this order (MPI 3.1, section 3.7.2).
    pub fn pend_recv(&mut self, task: u32, at: Word, count: u32) -> Result<Span, Fault>
        requires task { IsTask self.old task }
        requires some { 0 < count }
        ensures ok { IfOk result (λ span. Pends self.old self.new task at count (barred_to_stores (marks_in self.old.heap)) with_receive span) }
        ensures marked { IfOk result (λ span. IsMarked self.new span is_receive) }
        ensures err { IfErr result (λ fault. (m : Memories) → Shows self.old.heap m → span_of (owner_for self.old.sharing task) (barred_to_stores (marks_in self.old.heap)) m at count ≡ Err fault) }
        ensures same { OnErr result (self.new ≡ self.old) }
    {
        let span = self.range(task, at, count, true)?;
        self.heap.mark_recv(span.key, span.at, span.len);
        Ok(span)
    }

    /// Takes the marks of a send, or else of a receive, away from its places, each of which has one.
    pub fn unpend(&mut self, span: Span, send: bool)
        requires { IsMarked self.old span (if send then is_send else is_receive) }
        ensures { (places : Places) → IsPlaces self.old span places → Remarks self.old self.new places (if send then without_send else without_receive) }
    {
        self.heap.is_sound();
        if send {
            self.heap.unmark_send(span.key, span.at, span.len);
        } else {
            self.heap.unmark_recv(span.key, span.at, span.len);
        }
    }

    /// Copies the words of a send's places to the first places of its receive, inside the heap. It takes no memory,
    /// whatever the length.
    pub fn send_over(&mut self, from: Span, to: Span)
        requires source { IsMarked self.old from is_send }
        requires target { IsMarked self.old to is_receive }
        requires fits { from.len ≤ to.len }
        ensures { SendsOver self.old self.new from to }
    {
        self.heap.is_sound();
        self.heap.send_over(from, to);
    }

    /// Copies the words of a send's places into a range of its own. After want of memory the space is as it was.
    pub fn hold(&mut self, from: Span) -> Result<Held, Memory>
        requires { IsMarked self.old from is_send }
        ensures ok { IfOk result (λ held. Holds self.old self.new from held) }
        ensures err { OnErr result (self.new ≡ self.old) }
    {
        self.heap.is_sound();
        let held = self.heap.hold(from)?;
        Ok(held)
    }

    /// Copies a held message to the first places of its receive and releases its range. It takes no memory.
    pub fn land(&mut self, held: Held, to: Span)
        requires copy { IsOneCopy self.old.heap held }
        requires target { IsMarked self.old to is_receive }
        requires fits { held.len ≤ to.len }
        ensures { Lands self.old self.new held to }
    {
        self.heap.is_sound();
        self.heap.land(held, to);
    }

    /// Releases the range of a held message that is not received. It takes no memory.
    pub fn discard(&mut self, held: Held)
        requires { IsOneCopy self.old.heap held }
        ensures { Discards self.old self.new held }
    {
        self.heap.discard(held);
    }
}
