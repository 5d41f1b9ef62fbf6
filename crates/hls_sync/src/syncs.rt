//! The meetings of tasks at constructs.
ghost use Rattle.std.specs.Prelude.{◌≡◌, ℕ, ◌-◌, ◌<◌, ◌==◌, ◌||◌, not, is_some, length, slice_index, List, [], Some, IfOk};
ghost use Rattle.c_tree.specs.declared.program.HlsKind.TheVariants.{Single, Nowait, Barrier};
ghost use Rattle.hls_sync.specs.declared.visits.Visit.{Visit};
ghost use Rattle.hls_sync.specs.Meetings.{Site};
ghost use Rattle.hls_sync.specs.Ways.{way_of, may_go, may_leave_bar};
ghost use Rattle.hls_sync.specs.Turnouts.{reached, without_running};
ghost use Rattle.hls_sync.specs.Syncs.{seat_at, turnout_of, rows_of, IsGiven, IsSeat, arrived, with_running};
ghost use Rattle.hls_sync.specs.Shown.{IsApart, IsSiteOf, Shows, Arrives, Leaves};

use crate::instances::Instance;
use crate::seats::{Seat, number_of};
use crate::visits::HlsRow;
use mpc_values::{Memory, Way};
use std::alloc::Global;
use std::collections::BTreeMap;
use std::marker::Model;

/// The meetings at constructs of the tasks of each instance.
#[derive(Drop)]
pub struct HlsSync {
    seats: Vec<Seat>,
    // The number of the seat of a construct and a task.
    index: BTreeMap<(u32, u32), usize>,
    instances: Vec<Instance>,
}

impl Model for HlsSync {
    ghost use Rattle.hls_sync.specs.Syncs.{Syncs};

    ghost Value = { Syncs };

    ghost use Rattle.hls_sync.specs.Kept.{seen_of, IsKept};

    ghost view = { seen_of };

    ghost invariant = { IsKept };
}

/// What an arrival finds: the number of the instance, how many of its tasks had come to the meeting, and how many it has.
#[derive(Clone, Copy, Debug)]
struct Arrival {
    place: usize,
    before: usize,
    size: usize,
}

/// How the meeting of a task's latest arrival stands: whether all of the instance have come, and whether nobody runs the
/// block. Both hold of a task that has not arrived.
#[derive(Clone, Copy, Debug)]
struct Latest {
    whole: bool,
    free: bool,
}

impl HlsSync {
    ghost use Rattle.hls_sync.specs.Kept.{IsTied};

    /// The tables for rows that each give a task's instance for a construct. No two rows have the same construct and
    /// task. The tasks of an instance at a construct are those of its rows.
    pub fn new(alloc: Global, rows: &[HlsRow]) -> Result<HlsSync, Memory>
        requires { IsApart rows.now }
        ensures rows { IfOk result (λ s. rows_of s ≡ rows.now) }
        ensures shows { IfOk result (λ s. (site : Site) → IsSiteOf rows.now site → Shows s site [] []) }
    {
        let mut seats = Vec::new(alloc);
        let mut index = BTreeMap::new(alloc);
        let mut instances = Vec::new(alloc);
        let mut numbers = BTreeMap::new(alloc);
        for row in rows {
            let place = number_of(alloc, &mut numbers, &mut instances, row)?;
            let instance = &mut instances[place];
            instance.add()?;
            index.insert((row.construct, row.task), seats.len())?;
            seats.push(Seat {
                row: *row,
                came: 0,
                place,
            })?;
        }
        Ok(HlsSync {
            seats,
            index,
            instances,
        })
    }

    /// A task arrives at a single. It is to run the block where it is the last of its instance to come to the meeting,
    /// and else to hold.
    pub fn enter(&mut self, construct: u32, inst: u32, task: u32) -> Way
        requires { IsGiven self.old construct inst task }
        ensures way { (site : Site) (visits exits : List Visit) → site.kind ≡ Single → site.construct ≡ construct → Shows self.old site visits exits → result ≡ way_of site visits task }
        ensures after { Arrives self.old self.new Single construct task }
    {
        let k = self.find(construct, inst, task);
        let arrival = self.arrive(k);
        if arrival.before + 1 == arrival.size {
            self.begin(arrival.place, task);
            Way::Run
        } else {
            Way::Hold
        }
    }

    /// A task arrives at a single nowait. It is to run the block where it is the first of its instance to come to the
    /// meeting, and else to skip it.
    pub fn enter_nowait(&mut self, construct: u32, inst: u32, task: u32) -> Way
        requires { IsGiven self.old construct inst task }
        ensures way { (site : Site) (visits exits : List Visit) → site.kind ≡ Nowait → site.construct ≡ construct → Shows self.old site visits exits → result ≡ way_of site visits task }
        ensures after { Arrives self.old self.new Nowait construct task }
    {
        let k = self.find(construct, inst, task);
        let arrival = self.arrive(k);
        if arrival.before == 0 {
            Way::Run
        } else {
            Way::Skip
        }
    }

    /// Whether a task that holds at a single may go on: the running task has left the meeting of its latest arrival. A
    /// task that has not arrived may.
    pub fn may_go(&self, construct: u32, inst: u32, task: u32) -> bool
        requires { IsGiven self.now construct inst task }
        ensures { (site : Site) (visits exits : List Visit) → site.kind ≡ Single → site.construct ≡ construct → Shows self.now site visits exits → result ≡ may_go site visits exits task }
    {
        let k = self.find(construct, inst, task);
        let latest = self.latest(k);
        latest.whole && latest.free
    }

    /// A task leaves the block of a single of either kind: this ends the latest meeting that the task runs and has not
    /// ended. Where there is none, nothing changes.
    pub fn exit(&mut self, construct: u32, inst: u32, task: u32)
        requires { IsGiven self.old construct inst task }
        ensures { Leaves self.old self.new construct task }
    {
        let k = self.find(construct, inst, task);
        self.end(k, task);
    }

    /// A task arrives at a barrier.
    pub fn arrive_bar(&mut self, construct: u32, inst: u32, task: u32)
        requires { IsGiven self.old construct inst task }
        ensures { Arrives self.old self.new Barrier construct task }
    {
        let k = self.find(construct, inst, task);
        self.arrive(k);
    }

    /// Whether a task may go on after a barrier: all tasks of its instance have come to the meeting of its latest
    /// arrival. A task that has not arrived may.
    pub fn may_leave_bar(&self, construct: u32, inst: u32, task: u32) -> bool
        requires { IsGiven self.now construct inst task }
        ensures { (site : Site) (visits exits : List Visit) → site.construct ≡ construct → Shows self.now site visits exits → result ≡ may_leave_bar site visits task }
    {
        let k = self.find(construct, inst, task);
        self.latest(k).whole
    }

    /// The number of a seat.
    fn find(&self, construct: u32, inst: u32, task: u32) -> usize
        requires { IsGiven self.now construct inst task }
        ensures seat { IsSeat self.now result construct inst task }
        ensures tied { IsTied self.now }
    {
        match self.index.get(&(construct, task)) {
            Some(seat) => *seat,
            None => inst as usize,
        }
    }

    /// Notes that the task of a seat comes.
    fn arrive(&mut self, k: usize) -> Arrival
        requires { k < length self.old.seats }
        ensures after { self.new ≡ arrived self.old k }
        ensures place { result.place ≡ (seat_at self.old k).place }
        ensures before { result.before ≡ reached (turnout_of self.old k).counts (seat_at self.old k).came }
        ensures size { result.size ≡ length (turnout_of self.old k).counts }
        ensures below { result.before < result.size }
        ensures one { slice_index (turnout_of self.old k).counts result.before ≡ (seat_at self.old k).came }
    {
        let seat = self.seats[k];
        let instance = &mut self.instances[seat.place];
        let before = instance.reached(seat.came);
        let size = instance.size();
        instance.advance(seat.came);
        self.seats[k].came = seat.came.saturating_add(1);
        Arrival {
            place: seat.place,
            before,
            size,
        }
    }

    /// How the meeting of the latest arrival of a seat's task stands.
    fn latest(&self, k: usize) -> Latest
        requires { k < length self.now.seats }
        ensures whole { result.whole ≡ ((seat_at self.now k).came == 0 || reached (turnout_of self.now k).counts ((seat_at self.now k).came - 1) == length (turnout_of self.now k).counts) }
        ensures free { result.free ≡ ((seat_at self.now k).came == 0 || not (is_some (turnout_of self.now k).running)) }
        ensures few { reached (turnout_of self.now k).counts (seat_at self.now k).came < length (turnout_of self.now k).counts }
    {
        let seat = self.seats[k];
        let instance = &self.instances[seat.place];
        if seat.came == 0 {
            Latest {
                whole: true,
                free: true,
            }
        } else {
            Latest {
                whole: instance.reached(seat.came - 1) == instance.size(),
                free: !instance.is_running(),
            }
        }
    }

    /// Notes that a task runs the block of its instance's latest meeting.
    fn begin(&mut self, place: usize, task: u32)
        requires { place < length self.old.instances }
        ensures { self.new ≡ with_running self.old place (Some task) }
    {
        let instance = &mut self.instances[place];
        instance.run(task);
    }

    /// Notes that the task of a seat leaves the block, if it runs that of the latest meeting.
    fn end(&mut self, k: usize, task: u32)
        requires { k < length self.old.seats }
        ensures { self.new ≡ with_running self.old (seat_at self.old k).place (without_running (turnout_of self.old k).running task) }
    {
        let place = self.seats[k].place;
        let instance = &mut self.instances[place];
        instance.leave(task);
    }
}
