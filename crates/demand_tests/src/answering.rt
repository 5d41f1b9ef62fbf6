//! How a table writes an answer, which is as the journal writes it.

use mpc_values::{Answer, Obj, Status, Way, Word};

fn obj_of(text: &str) -> Option<Obj> {
    if let Some(number) = text.strip_prefix('g') {
        return Some(Obj::Glob(number.parse().ok()?));
    }
    let number = text.strip_prefix('d')?;
    Some(Obj::Dyn(number.parse().ok()?))
}

fn word_of(text: &str) -> Option<Word> {
    if text == "null" {
        return Some(Word::Null);
    }
    if let Some((obj, at)) = text.split_once('+') {
        return Some(Word::Ptr {
            obj: obj_of(obj)?,
            at: at.parse().ok()?,
        });
    }
    if let Some(number) = text.strip_prefix('i') {
        return Some(Word::Int(number.parse().ok()?));
    }
    if let Some(number) = text.strip_prefix('c') {
        return Some(Word::Comm(number.parse().ok()?));
    }
    let number = text.strip_prefix('r')?;
    Some(Word::Req(number.parse().ok()?))
}

// A status as three numbers.
fn status_of(text: &str) -> Option<Status> {
    let (source, text) = text.split_once(' ')?;
    let (tag, count) = text.split_once(' ')?;
    Some(Status {
        source: source.parse().ok()?,
        tag: tag.parse().ok()?,
        count: count.parse().ok()?,
    })
}

// A posting as four numbers.
fn posted_of(text: &str) -> Option<Answer> {
    let (req, text) = text.split_once(' ')?;
    let (post, text) = text.split_once(' ')?;
    let (met, words) = text.split_once(' ')?;
    Some(Answer::Posted {
        req: req.parse().ok()?,
        post: post.parse().ok()?,
        met: met.parse().ok()?,
        words: words.parse().ok()?,
    })
}

// An index and a status.
fn any_of(text: &str) -> Option<Answer> {
    let (index, status) = text.split_once(' ')?;
    Some(Answer::Any {
        index: index.parse().ok()?,
        status: status_of(status)?,
    })
}

/// The answer that a text writes.
pub fn answer_of(text: &str) -> Option<Answer> {
    if let Some((kind, numbers)) = text.split_once(' ') {
        return match kind {
            "p" => posted_of(numbers),
            "s" => Some(Answer::Got(status_of(numbers)?)),
            "f" => Some(Answer::Flag(Some(status_of(numbers)?))),
            "a" => any_of(numbers),
            _ => None,
        };
    }
    match text {
        "ok" => Some(Answer::Done),
        "f" => Some(Answer::Flag(None)),
        "run" => Some(Answer::Entered(Way::Run)),
        "skip" => Some(Answer::Entered(Way::Skip)),
        "hold" => Some(Answer::Entered(Way::Hold)),
        word => Some(Answer::Gives(word_of(word)?)),
    }
}
