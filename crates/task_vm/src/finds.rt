//! What is found behind the answer to a step of a script.
ghost use Rattle.std.specs.Prelude.{◌≡◌, [], ◌∷◌, ◌++◌, OnOk};
ghost use Rattle.mpc_values.specs.declared.values.Word.TheVariants.{Int};
ghost use Rattle.c_tree.specs.declared.program.Width.TheVariants as type_;
ghost use Rattle.c_tree.specs.Numbers.{number_of};
ghost use Rattle.c_tree.specs.Words as of_words;
ghost use Rattle.c_tree.specs.Asking.{word_of};
ghost use Rattle.c_tree.specs.Scripts as due;

use crate::scripts::Found;
use crate::words::{comm_of, int_of, request_of};
use c_tree::scripts::ScriptStep;
use mpc_values::{Answer, Memory, Status, Word};
use std::alloc::AllocError;

/// The word that an answer gives.
pub(crate) fn word_of(answer: Answer) -> Word
    ensures { result ≡ word_of answer }
{
    match answer {
        Answer::Gives(word) => word,
        _ => Word::Undef,
    }
}

// The request that a posting made.
fn posted(answer: Answer) -> Word
    ensures { result ≡ due.posted answer }
{
    match answer {
        Answer::Posted { req, .. } => Word::Req(req),
        _ => Word::Req(0),
    }
}

// The status that an answer gives.
fn status_of(answer: Answer) -> Option<Status>
    ensures { result ≡ due.status_of answer }
{
    match answer {
        Answer::Got(status) => Some(status),
        Answer::Flag(status) => status,
        Answer::Any { status, .. } => Some(status),
        _ => None,
    }
}

fn index_of(answer: Answer) -> i32
    ensures { result ≡ due.index_of answer }
{
    match answer {
        Answer::Any { index, .. } => index,
        _ => 0,
    }
}

// The number that an answer gives, as an int.
fn number_word(answer: Answer) -> Word
    ensures { result ≡ Int (number_of type_.Int (word_of answer)) }
{
    Word::Int(i64::from(int_of(word_of(answer))))
}

impl Found {
    // The request of a posting, behind those that were posted before.
    fn post(&mut self, answer: Answer)
        ensures { self.new ≡ record self.old { request = due.posted answer; earlier = self.old.request } }
    {
        self.earlier = self.request;
        self.request = posted(answer);
    }

    // The request that was loaded, behind those that were collected.
    fn collect(&mut self, answer: Answer) -> Result<(), Memory>
        ensures { OnOk result (self.new ≡ record self.old { requests = self.old.requests ++ of_words.request_of (word_of answer) ∷ [] }) }
    {
        self.requests.push(request_of(word_of(answer)))?;
        Ok(())
    }

    /// What the answer to a step tells.
    pub(crate) fn find(&mut self, step: ScriptStep, answer: Answer) -> Result<(), Memory>
        ensures { OnOk result (self.new ≡ due.found_behind step self.old answer) }
    {
        match step {
            ScriptStep::Rank(_) => self.word = number_word(answer),
            ScriptStep::Size(_) => self.word = number_word(answer),
            ScriptStep::LoadCount(_) => self.word = number_word(answer),
            ScriptStep::LoadComm(_) => self.word = comm_of(word_of(answer)),
            ScriptStep::Leave(_) => self.word = comm_of(word_of(answer)),
            ScriptStep::Send(_) => self.post(answer),
            ScriptStep::SyncSend(_) => self.post(answer),
            ScriptStep::Recv(_) => self.post(answer),
            ScriptStep::Complete => self.status = status_of(answer),
            ScriptStep::CompleteEarlier => self.status = status_of(answer),
            ScriptStep::Test => self.status = status_of(answer),
            ScriptStep::Probe(_, _, _) => self.status = status_of(answer),
            ScriptStep::Iprobe(_, _, _) => self.status = status_of(answer),
            ScriptStep::LoadRequest(_) => self.request = request_of(word_of(answer)),
            ScriptStep::CollectRequest(_) => self.collect(answer)?,
            ScriptStep::AnyOf => {
                self.status = status_of(answer);
                self.index = index_of(answer);
            }
            _ => {}
        }
        Ok(())
    }
}
