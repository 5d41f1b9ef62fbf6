//! Worked cases of runs, each an equation that the check computes on the definitions: what is asked in which order,
//! and what becomes of it. The cases are in specs/.
#![tactic(auto)]

ghost use Rattle.world_cases.specs.Matching.{Matching};
ghost use Rattle.world_cases.specs.TagsAndOrder.{TagsAndOrder};
ghost use Rattle.world_cases.specs.Lengths.{Lengths};
ghost use Rattle.world_cases.specs.Held.{Held};
ghost use Rattle.world_cases.specs.Pending.{Pending};
ghost use Rattle.world_cases.specs.Communicators.{Communicators};
ghost use Rattle.world_cases.specs.Collectives.{Collectives};
ghost use Rattle.world_cases.specs.Sharing.{Sharing};
ghost use Rattle.world_cases.specs.Objects.{Objects};
ghost use Rattle.world_cases.specs.Programs.{Programs};
ghost use Rattle.world_cases.specs.WholeRuns.{WholeRuns};
ghost use Rattle.world_cases.specs.OneMessage.{OneMessage};
ghost use Rattle.world_cases.specs.StencilOfTwo.{StencilOfTwo};
ghost use Rattle.world_cases.specs.StencilOfEight.{StencilOfEight};
ghost use Rattle.world_cases.specs.Exchanges.{Exchanges};
ghost use Rattle.world_cases.specs.Deliveries.{Deliveries};
ghost use Rattle.world_cases.specs.Buffers.{Buffers};
ghost use Rattle.world_cases.specs.Splits.{Splits};
ghost use Rattle.world_cases.specs.Meetings.{Meetings};
ghost use Rattle.world_cases.specs.Instances.{Instances};
ghost use Rattle.world_cases.specs.Endings.{Endings};
ghost use Rattle.world_cases.specs.FaultOrders.{FaultOrders};
ghost use Rattle.world_cases.specs.Arrivals.{Arrivals};
ghost use Rattle.world_cases.specs.Output.{Output};

/// Six postings for one receiver meet as the queue should match them (MPI 3.1, section 3.5).
pub fn matching()
    ensures { Matching }
{}

/// A receive takes a message by tag, by source, and of two that fit the one sent first.
pub fn tags_and_order()
    ensures { TagsAndOrder }
{}

/// Messages that are too long, shorter, of another datatype, empty, and to nobody.
pub fn lengths()
    ensures { Lengths }
{}

/// Which sends are eager, by the words that the sender's eager messages hold already.
pub fn held()
    ensures { Held }
{}

/// What a store, a load and a receive meet while a message is under way, and a free after it.
pub fn pending()
    ensures { Pending }
{}

/// Communicators are split by colour and key, duplicated, and freed.
pub fn communicators()
    ensures { Communicators }
{}

/// What each rank gets of a collective call, who waits, and which arguments are looked at.
pub fn collectives()
    ensures { Collectives }
{}

/// Shared variables and their directives, over two instances.
pub fn sharing()
    ensures { Sharing }
{}

/// Private variables, blocks and locals, the quota, the output, and the limit of entries.
pub fn objects()
    ensures { Objects }
{}

/// A whole program, with the three ways to pick tasks.
pub fn programs()
    ensures { Programs }
{}

/// Whole programs on two tasks, from the start to the end.
pub fn whole_runs()
    ensures { WholeRuns }
{}

/// One message of a whole run, by the relations that say what holds of all.
pub fn one_message()
    ensures { OneMessage }
{}

/// A user's program, whole, on two ranks.
pub fn stencil_of_two()
    ensures { StencilOfTwo }
{}

/// The same on eight ranks.
pub fn stencil_of_eight()
    ensures { StencilOfEight }
{}

/// Two ranks send to each other and then receive, from the first entry to the last.
pub fn exchanges()
    ensures { Exchanges }
{}

/// Which message comes, and what of it, from the first entry to the last.
pub fn deliveries()
    ensures { Deliveries }
{}

/// What the places of messages under way meet, from the first entry to the last.
pub fn buffers()
    ensures { Buffers }
{}

/// Communicators are split, duplicated and freed, from the first entry to the last.
pub fn splits()
    ensures { Splits }
{}

/// Collective calls of three, four and five ranks, from the first entry to the last.
pub fn meetings()
    ensures { Meetings }
{}

/// Shared variables of two NUMA instances and of a node, from the first entry to the last.
pub fn instances()
    ensures { Instances }
{}

/// How runs end: dead blocks, the quota, arithmetic, an abort, and a fault while others wait.
pub fn endings()
    ensures { Endings }
{}

/// Which fault a call has where several causes stand together.
pub fn fault_orders()
    ensures { FaultOrders }
{}

/// How two arrivals at a meeting differ, and leaves that write nothing.
pub fn arrivals()
    ensures { Arrivals }
{}

/// How much a task may print.
pub fn output()
    ensures { Output }
{}
