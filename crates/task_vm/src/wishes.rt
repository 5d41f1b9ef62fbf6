//! What a step of a script wants.
ghost use Rattle.std.specs.Prelude.{◌≡◌, IfOk};
ghost use Rattle.mpc_values.specs.declared.values.Word.TheVariants.{Req};
ghost use Rattle.c_tree.specs.Scripts as due;
ghost use Rattle.task_vm.specs.Wishes.{Wishes};

use crate::arguments::{
    coll_of, comm_at, free_of, number_at, place_of, pointer_at, recv_of, send_of, word_behind,
};
use crate::scripts::Script;
use crate::words::moved;
use c_tree::scripts::{ScriptStep, Target};
use mpc_values::{Call, Fault, Memory, Status, Word, Words};

/// What a step wants: a call, which is told beside, nothing, or that the task fails.
#[derive(Clone, Copy, Debug)]
pub(crate) enum Wish {
    Wants,
    Skips,
    Breaks(Fault),
}

/// What a step of a script does: the script goes on, or it asks a call at a line, which is told beside;
/// or no step is left.
#[derive(Clone, Copy, Debug)]
pub(crate) enum Taken {
    Went,
    Asked(u32),
    Ended,
}

// A call is wanted.
fn want(call: &mut Call, wanted: Call) -> Wish
    ensures { Wishes result call.new (due.Wants wanted) }
{
    *call = wanted;
    Wish::Wants
}

// A load at a place, where there is one.
fn load(call: &mut Call, place: Result<Word, Fault>) -> Wish
    ensures { Wishes result call.new (due.loaded place) }
{
    match place {
        Ok(at) => want(call, Call::Load { at }),
        Err(fault) => Wish::Breaks(fault),
    }
}

// A store at a place, where there is one.
fn store(call: &mut Call, place: Result<Word, Fault>, word: Word) -> Wish
    ensures { Wishes result call.new (due.stored place word) }
{
    match place {
        Ok(at) => want(call, Call::Store { at, word }),
        Err(fault) => Wish::Breaks(fault),
    }
}

// One of the words of a status, by its number.
fn status_word(status: Status, word: u32) -> Word
    ensures { result ≡ due.status_word status word }
{
    match word {
        0 => Word::Int(i64::from(status.source)),
        1 => Word::Int(i64::from(status.tag)),
        _ => Word::Int(i64::from(status.count)),
    }
}

fn flag_of(status: Option<Status>) -> Word
    ensures { result ≡ due.flag_of status }
{
    match status {
        None => Word::Int(0),
        Some(_) => Word::Int(1),
    }
}

// A store of MPI_REQUEST_NULL in a list of requests, at an index that is not negative.
fn null_at_index(call: &mut Call, first: Word, index: i32) -> Wish
    ensures { Wishes result call.new (due.null_at_index first index) }
{
    if index < 0 {
        return Wish::Skips;
    }
    store(call, moved(first, i128::from(index)), Word::Req(0))
}

impl Script {
    // A word of the status goes to its place, where one was given and is wanted.
    fn store_status(&self, target: Target, word: u32, call: &mut Call) -> Wish
        ensures { Wishes result call.new (due.status_wanted self.now.mpi.ignored self.now.found.status (due.place_of self.now.arguments self.now.index target) word) }
    {
        if self.mpi.ignored {
            return Wish::Skips;
        }
        let Some(status) = self.found.status else {
            return Wish::Skips;
        };
        match place_of(&self.arguments, self.index, target) {
            Ok(place) => store(call, word_behind(place, word), status_word(status, word)),
            Err(fault) => Wish::Breaks(fault),
        }
    }

    // A store of MPI_REQUEST_NULL, where a status was given.
    fn store_null(&self, target: Target, call: &mut Call) -> Wish
        ensures { Wishes result call.new (due.where_given self.now.found.status (due.stored (due.place_of self.now.arguments self.now.index target) (Req 0))) }
    {
        match self.found.status {
            None => Wish::Skips,
            Some(_) => store(
                call,
                place_of(&self.arguments, self.index, target),
                Word::Req(0),
            ),
        }
    }

    // A wait for one of the requests that were collected.
    fn any_of(&self, call: &mut Call) -> Result<Wish, Memory>
        ensures { IfOk result (λ r. Wishes r call.new (due.Wants (Call.AnyOf self.now.found.requests))) }
    {
        let requests = Vec::from_slice(self.alloc, &self.found.requests)?;
        Ok(want(
            call,
            Call::AnyOf {
                reqs: Words::of(requests),
            },
        ))
    }

    /// What a step wants of the arguments, for the request of the index, behind what was found.
    pub(crate) fn wanted(&self, step: ScriptStep, call: &mut Call) -> Result<Wish, Memory>
        ensures { IfOk result (λ r. Wishes r call.new (due.wanted self.now.mpi self.now.arguments self.now.index self.now.found step)) }
    {
        let words = self.arguments.as_slice();
        let wish = match step {
            ScriptStep::Init => want(call, Call::Init),
            ScriptStep::Finalize => want(call, Call::Finalize),
            ScriptStep::Abort(comm, code) => self.abort(comm, code, call),
            ScriptStep::Rank(comm) => want(
                call,
                Call::Rank {
                    comm: comm_at(words, comm),
                },
            ),
            ScriptStep::Size(comm) => want(
                call,
                Call::Size {
                    comm: comm_at(words, comm),
                },
            ),
            ScriptStep::LoadComm(place) => load(call, Ok(pointer_at(words, place))),
            ScriptStep::Arrive(c) => want(
                call,
                Call::Arrive {
                    coll: coll_of(&self.mpi, words, &c),
                },
            ),
            ScriptStep::Leave(comm) => want(
                call,
                Call::Leave {
                    comm: comm_at(words, comm),
                },
            ),
            ScriptStep::ArriveFree => want(
                call,
                Call::Arrive {
                    coll: free_of(self.found.word),
                },
            ),
            ScriptStep::LeaveFree => want(
                call,
                Call::Leave {
                    comm: self.found.word,
                },
            ),
            ScriptStep::StoreWord(place) => self.store_at(place, self.found.word, call),
            ScriptStep::StoreNullComm(place) => self.store_at(place, Word::Comm(0), call),
            ScriptStep::Send(p) => want(call, send_of(&self.mpi, words, p, false)),
            ScriptStep::SyncSend(p) => want(call, send_of(&self.mpi, words, p, true)),
            ScriptStep::Recv(p) => want(call, recv_of(&self.mpi, words, p)),
            ScriptStep::Complete => want(
                call,
                Call::Complete {
                    req: self.found.request,
                },
            ),
            ScriptStep::CompleteEarlier => want(
                call,
                Call::Complete {
                    req: self.found.earlier,
                },
            ),
            ScriptStep::StoreRequest(place) => self.store_at(place, self.found.request, call),
            ScriptStep::LoadRequest(target) => load(call, place_of(words, self.index, target)),
            ScriptStep::CollectRequest(target) => load(call, place_of(words, self.index, target)),
            ScriptStep::Test => want(
                call,
                Call::Test {
                    req: self.found.request,
                },
            ),
            ScriptStep::StoreNullRequest(target) => self.store_null(target, call),
            ScriptStep::AnyOf => self.any_of(call)?,
            ScriptStep::StoreNullAtIndex(place) => {
                null_at_index(call, pointer_at(words, place), self.found.index)
            }
            ScriptStep::StoreIndex(place) => {
                self.store_at(place, Word::Int(i64::from(self.found.index)), call)
            }
            ScriptStep::StoreFlag(place) => self.store_at(place, flag_of(self.found.status), call),
            ScriptStep::StoreStatus(target, word) => self.store_status(target, word, call),
            ScriptStep::Probe(peer, tag, comm) => self.probe(peer, tag, comm, call),
            ScriptStep::Iprobe(peer, tag, comm) => self.iprobe(peer, tag, comm, call),
            ScriptStep::LoadCount(place) => load(call, word_behind(pointer_at(words, place), 2)),
        };
        Ok(wish)
    }

    // A store at a place that an argument names.
    fn store_at(&self, place: u32, word: Word, call: &mut Call) -> Wish
        ensures { Wishes result call.new (due.Wants (Call.Store (due.pointer_at self.now.arguments place) word)) }
    {
        store(call, Ok(pointer_at(&self.arguments, place)), word)
    }

    fn abort(&self, comm: u32, code: u32, call: &mut Call) -> Wish
        ensures { Wishes result call.new (due.Wants (Call.Abort (due.comm_at self.now.arguments comm) (due.number_at self.now.arguments code))) }
    {
        let words = self.arguments.as_slice();
        let (comm, code) = (comm_at(words, comm), number_at(words, code));
        want(call, Call::Abort { comm, code })
    }

    fn probe(&self, peer: u32, tag: u32, comm: u32, call: &mut Call) -> Wish
        ensures { Wishes result call.new (due.Wants (Call.Probe (due.number_at self.now.arguments peer) (due.number_at self.now.arguments tag) (due.comm_at self.now.arguments comm))) }
    {
        let words = self.arguments.as_slice();
        let (peer, tag) = (number_at(words, peer), number_at(words, tag));
        let comm = comm_at(words, comm);
        want(call, Call::Probe { peer, tag, comm })
    }

    fn iprobe(&self, peer: u32, tag: u32, comm: u32, call: &mut Call) -> Wish
        ensures { Wishes result call.new (due.Wants (Call.Iprobe (due.number_at self.now.arguments peer) (due.number_at self.now.arguments tag) (due.comm_at self.now.arguments comm))) }
    {
        let words = self.arguments.as_slice();
        let (peer, tag) = (number_at(words, peer), number_at(words, tag));
        let comm = comm_at(words, comm);
        want(call, Call::Iprobe { peer, tag, comm })
    }
}
