//! The communicators of a run.
ghost use Rattle.std.specs.Prelude.{◌≡◌, ◌≢◌, ℕ, ◌+◌, ◌<◌, ◌≤◌, ◌==◌, List, [], ◌∷◌, length, position, IsSome, IfSome, IfOk, OnOk, OnErr};
ghost use Rattle.std.specs.List.{range_with_len};
ghost use Rattle.std.specs.Option.{option_map};
ghost use Rattle.std.specs.Borrow.{Bor};
ghost use Rattle.mpi_comm.specs.declared.communicators.Seen.{Seen};
ghost use Rattle.mpc_values.specs.declared.limits.TheConstants.{MAX_GIVEN};
ghost use Rattle.mpi_comm.specs.Communicators.{comm_world};
ghost use Rattle.mpi_comm.specs.Splitting.{groups_of};
ghost use Rattle.mpi_comm.specs.Numbers.{chosen_of, numbers_in};
ghost use Rattle.mpi_comm.specs.Seen.{seen_all, seen_at, alive, members_at, size_in, rank_in, member_in, duplicated, split_up, ended, AreGroups};

use crate::communicators::{Members, Seen};
use crate::splitting;
use mpc_values::Memory;
use std::alloc::Global;
use std::marker::Model;

/// The communicators that were made, living and freed, by number from 1 on. 1 is MPI_COMM_WORLD, and a number is
/// never given again.
#[derive(Debug, Drop)]
pub struct Comms {
    alloc: Global,
    list: Vec<Seen>,
}

impl Model for Comms {
    ghost use Rattle.std.specs.Prelude.{List};
    ghost use Rattle.mpi_comm.specs.declared.communicators.Seen.{Seen};

    ghost Value = { List Seen };

    ghost use Rattle.mpi_comm.specs.Seen.{AreGroups};

    ghost view = { λ comms. comms.list.items };

    ghost invariant = { λ comms. AreGroups comms.list.items };
}

impl Comms {
    /// MPI_COMM_WORLD alone, with a number of tasks from 1 to 256: the rank of a task is its number.
    pub fn new(alloc: Global, tasks: u32) -> Result<Comms, Memory>
        requires some { 1 ≤ tasks }
        requires few { tasks ≤ 256 }
        ensures { IfOk result (λ comms. comms ≡ seen_all (comm_world tasks ∷ [])) }
    {
        let world = tasks_below(alloc, tasks)?;
        let mut list = Vec::new(alloc);
        list.push(Seen {
            members: Members::of(world),
            lives: true,
        })?;
        Ok(Comms { alloc, list })
    }

    /// Makes a communicator with the members of a living one, and gives its number (MPI 3.1, section 6.4.2). After want
    /// of memory all is as it was.
    pub fn dup(&mut self, comm: u32) -> Result<u32, Memory>
        requires living { IsSome (alive (seen_at self.old comm)) }
        requires few { length self.old < MAX_GIVEN }
        ensures number { IfOk result (λ number. number ≡ length self.old + 1) }
        ensures after { OnOk result (self.new ≡ duplicated self.old (members_at self.old comm)) }
        ensures err { OnErr result (self.new ≡ self.old) }
    {
        let same = Vec::from_slice(self.alloc, members_of(self.list.as_slice(), comm))?;
        self.list.push(Seen {
            members: Members::of(same),
            lives: true,
        })?;
        Ok(self.list.len() as u32)
    }

    /// Makes a communicator for each colour of a living one's members, by rising colour, with its members by key and
    /// then by old rank (MPI 3.1, section 6.4.2). Each member has a colour and a key, in rank order. Gives the number of
    /// each member's new communicator; it is 0, MPI_COMM_NULL, for a negative colour, as MPI_UNDEFINED. After want of
    /// memory all is as it was. It takes time in proportion to the members and the logarithm of their number.
    pub fn split(&mut self, comm: u32, colours: &[i32], keys: &[i32]) -> Result<Vec<u32>, Memory>
        requires living { IsSome (alive (seen_at self.old comm)) }
        requires few { length self.old < MAX_GIVEN }
        requires colours { length colours.now ≡ length (members_at self.old comm) }
        requires keys { length keys.now ≡ length (members_at self.old comm) }
        ensures numbers { let members = members_at self.old comm in let groups = groups_of members (chosen_of colours.now keys.now) in IfOk result (λ numbers. numbers.items ≡ numbers_in (length self.old + 1) groups members) }
        ensures after { OnOk result (self.new ≡ split_up self.old (members_at self.old comm) (chosen_of colours.now keys.now)) }
        ensures err { OnErr result (self.new ≡ self.old) }
    {
        let first = self.count() as u32 + 1;
        let members = members_of(self.list.as_slice(), comm);
        let (numbers, mut made) = splitting::grouped(self.alloc, first, members, colours, keys)?;
        self.list.append(&mut made)?;
        Ok(numbers)
    }

    /// Ends a living communicator other than MPI_COMM_WORLD (MPI 3.1, section 6.4.3). Its number is not given again.
    pub fn free(&mut self, comm: u32)
        requires living { IsSome (alive (seen_at self.old comm)) }
        requires not_world { comm ≢ 1 }
        ensures { self.new ≡ ended self.old comm }
    {
        let one = &mut self.list[comm as usize - 1];
        one.lives = false;
    }

    /// How many communicators were made.
    pub fn count(&self) -> usize
        ensures { result ≡ length self.now }
    {
        self.list.len()
    }

    /// How many members a living communicator has (MPI 3.1, section 6.4.1); `None` for any other number.
    pub fn size(&self, comm: u32) -> Option<u32>
        ensures size { result ≡ size_in (alive (seen_at self.now comm)) }
        ensures groups { AreGroups self.now }
    {
        Some(living(self.list.as_slice(), comm)?.as_slice().len() as u32)
    }

    /// A task's rank in a living communicator (MPI 3.1, section 6.4.1); `None` for any other number, and where the task
    /// is no member. It looks through the members, of which there are at most 256.
    pub fn rank_of(&self, comm: u32, task: u32) -> Option<u32>
        ensures { result ≡ rank_in task (alive (seen_at self.now comm)) }
    {
        rank_in(living(self.list.as_slice(), comm)?, task)
    }

    /// The task that has a rank in a living communicator; `None` for any other number, and where the communicator has
    /// no such rank.
    pub fn member(&self, comm: u32, rank: u32) -> Option<u32>
        ensures { result ≡ member_in rank (alive (seen_at self.now comm)) }
    {
        living(self.list.as_slice(), comm)?
            .as_slice()
            .get(rank as usize)
            .copied()
    }

    /// A task's rank in a communicator, living or freed; `None` where none of that number was made, and where the task
    /// is no member. A message that was posted before the free still has it.
    pub fn old_rank(&self, comm: u32, task: u32) -> Option<u32>
        ensures { result ≡ rank_in task (seen_at self.now comm) }
    {
        rank_in(&made(self.list.as_slice(), comm)?.members, task)
    }
}

/// The communicator of a number, counted from 1, if one was made.
fn made(list: &[Seen], comm: u32) -> Option<&Seen>
    ensures { option_map (λ (one : Bor Seen). one.now) result ≡ seen_at list.now comm }
{
    list.get((comm as usize).checked_sub(1)?)
}

/// The members of the communicator of a number, if it lives.
fn living(list: &[Seen], comm: u32) -> Option<&Members>
    ensures { option_map (λ (members : Bor (List ℕ)). members.now) result ≡ option_map (λ (one : Seen). one.members) (alive (seen_at list.now comm)) }
{
    let one = made(list, comm)?;
    if one.lives { Some(&one.members) } else { None }
}

/// The tasks of the communicator of a number that was made.
fn members_of(list: &[Seen], comm: u32) -> &[u32]
    requires { IsSome (seen_at list.now comm) }
    ensures tasks { result.now ≡ members_at list.now comm }
    ensures few { length result.now ≤ 256 }
{
    list[comm as usize - 1].members.as_slice()
}

/// The task's rank among the members.
fn rank_in(members: &Members, task: u32) -> Option<u32>
    ensures { result ≡ position (λ member. member == task) members.now }
{
    let rank = place_of(members.as_slice(), task)?;
    Some(rank as u32)
}

/// The task's place in a list.
fn place_of(members: &[u32], task: u32) -> Option<usize>
    ensures place { result ≡ position (λ member. member == task) members.now }
    ensures within { IfSome result (λ place. place < length members.now) }
{
    members.iter().position(|member| *member == task)
}

/// The tasks from 0 on, so many.
fn tasks_below(alloc: Global, tasks: u32) -> Result<Vec<u32>, Memory>
    ensures { IfOk result (λ list. list.items ≡ range_with_len 0 tasks) }
{
    Ok((0..tasks).collect(alloc)?)
}
