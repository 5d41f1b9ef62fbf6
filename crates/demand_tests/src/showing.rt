//! How a table writes a call: its name in the table of calls, and its fields in order. A word is written as
//! the journal writes it, and `undef` where nothing was stored.
use mpc_values::{Call, Coll, Obj, Text, Word};
use std::alloc::{AllocError, Global};

fn shown_obj(alloc: Global, obj: Obj) -> Result<String, AllocError> {
    match obj {
        Obj::Glob(number) => format!(in alloc; "g{number}"),
        Obj::Dyn(number) => format!(in alloc; "d{number}"),
    }
}

fn shown_word(alloc: Global, word: Word) -> Result<String, AllocError> {
    match word {
        Word::Undef => format!(in alloc; "undef"),
        Word::Int(number) => format!(in alloc; "i{number}"),
        Word::Null => format!(in alloc; "null"),
        Word::Ptr { obj, at } => {
            let obj = shown_obj(alloc, obj)?;
            format!(in alloc; "{obj}+{at}")
        }
        Word::Comm(number) => format!(in alloc; "c{number}"),
        Word::Req(number) => format!(in alloc; "r{number}"),
    }
}

// All fields of a collective call, in the order in which they are declared.
fn shown_coll(alloc: Global, coll: &Coll) -> Result<String, AllocError> {
    let comm = shown_word(alloc, coll.comm)?;
    let from = shown_word(alloc, coll.from)?;
    let into = shown_word(alloc, coll.into)?;
    let Coll {
        what,
        root,
        op,
        kind,
        count,
        other,
        colour,
        key,
        ..
    } = *coll;
    format!(in alloc;
        "{what:?} {comm} {root} {op:?} {kind:?} {count} {other} {from} {into} {colour} {key}"
    )
}

fn shown_text(alloc: Global, text: &Text) -> Result<String, AllocError> {
    match str::from_utf8(text.as_slice()) {
        Ok(text) => format!(in alloc; "{text:?}"),
        Err(_) => format!(in alloc; "other bytes"),
    }
}

fn shown_words(alloc: Global, words: &[Word]) -> Result<String, AllocError> {
    let mut text = String::new(alloc);
    for word in words {
        let word = shown_word(alloc, *word)?;
        text.push_str(" ")?;
        text.push_str(word.as_str())?;
    }
    Ok(text)
}

// The fields of a posting, a probe or a call on several requests.
fn shown_message(alloc: Global, call: &Call) -> Result<String, AllocError> {
    match call {
        Call::Send {
            at,
            count,
            kind,
            peer,
            tag,
            comm,
            sync,
        } => {
            let at = shown_word(alloc, *at)?;
            let comm = shown_word(alloc, *comm)?;
            let way = if *sync { " sync" } else { "" };
            format!(in alloc; " {at} {count} {kind:?} {peer} {tag} {comm}{way}")
        }
        Call::Recv {
            at,
            count,
            kind,
            peer,
            tag,
            comm,
        } => {
            let at = shown_word(alloc, *at)?;
            let comm = shown_word(alloc, *comm)?;
            format!(in alloc; " {at} {count} {kind:?} {peer} {tag} {comm}")
        }
        Call::AnyOf { reqs } => shown_words(alloc, reqs.as_slice()),
        Call::Probe { peer, tag, comm } | Call::Iprobe { peer, tag, comm } => {
            let comm = shown_word(alloc, *comm)?;
            format!(in alloc; " {peer} {tag} {comm}")
        }
        _ => format!(in alloc; ""),
    }
}

// The fields of any other call with words.
fn shown_fields(alloc: Global, call: &Call) -> Result<String, AllocError> {
    match call {
        Call::Load { at } | Call::Free { at } => {
            let at = shown_word(alloc, *at)?;
            format!(in alloc; " {at}")
        }
        Call::Store { at, word } => {
            let at = shown_word(alloc, *at)?;
            let word = shown_word(alloc, *word)?;
            format!(in alloc; " {at} {word}")
        }
        Call::Complete { req } | Call::Test { req } => {
            let req = shown_word(alloc, *req)?;
            format!(in alloc; " {req}")
        }
        Call::Drop { obj } => {
            let obj = shown_obj(alloc, *obj)?;
            format!(in alloc; " {obj}")
        }
        Call::Print { text } => {
            let text = shown_text(alloc, text)?;
            format!(in alloc; " {text}")
        }
        Call::Abort { comm, code } => {
            let comm = shown_word(alloc, *comm)?;
            format!(in alloc; " {comm} {code}")
        }
        Call::Rank { comm } | Call::Size { comm } | Call::Leave { comm } => {
            let comm = shown_word(alloc, *comm)?;
            format!(in alloc; " {comm}")
        }
        Call::Arrive { coll } => {
            let coll = shown_coll(alloc, coll)?;
            format!(in alloc; " {coll}")
        }
        _ => shown_message(alloc, call),
    }
}

/// A call with its line, as `3 store g0+0 i5`.
pub fn shown(alloc: Global, line: u32, call: &Call) -> Result<String, AllocError> {
    let name = call.name();
    match call {
        Call::New { len } => format!(in alloc; "{line} {name} {len}"),
        Call::Malloc { n } => format!(in alloc; "{line} {name} {n}"),
        Call::Broke { fault } => format!(in alloc; "{line} {name} {fault:?}"),
        Call::Finish { code } => format!(in alloc; "{line} {name} {code}"),
        Call::HlsEnter { construct }
        | Call::HlsWait { construct }
        | Call::HlsExit { construct }
        | Call::HlsBar { construct }
        | Call::HlsBarWait { construct } => format!(in alloc; "{line} {name} {construct}"),
        _ => {
            let fields = shown_fields(alloc, call)?;
            format!(in alloc; "{line} {name}{fields}")
        }
    }
}
