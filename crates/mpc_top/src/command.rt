//! The words of the command.
ghost use Rattle.std.specs.Prelude.{◌≡◌, map, string_bytes, MatchOption, true};
ghost use Rattle.mpc_top.specs.Command.{NamesSource, NamesNone, begins_with_dash, mode_word};

/// What is done with the source.
#[derive(Clone, Copy, Debug, PartialEq, Eq)]
pub enum Mode {
    /// It is read and its types are checked.
    Check,
    /// It is run as one task.
    Serial,
}

fn begins_with_dash(name: &str) -> bool
    ensures { result ≡ begins_with_dash name.now }
{
    name.as_bytes().first() == Some(&b'-')
}

fn mode_of(word: &str) -> Option<Mode>
    ensures { MatchOption result ((mode : Mode) → word.now ≡ mode_word mode → ⊥) (λ mode. word.now ≡ mode_word mode) }
{
    if word == "check" {
        return Some(Mode::Check);
    }
    if word == "serial" {
        return Some(Mode::Serial);
    }
    None
}

/// The mode and the name of the source file, where the words are `check` or `serial` and a name that
/// does not begin with a dash.
pub fn source_named<'a>(words: &'a [String]) -> Option<(Mode, &'a str)>
    ensures { MatchOption result (NamesNone (map string_bytes words.now)) (λ named. NamesSource (map string_bytes words.now) named.0 named.1.now) }
{
    if words.len() != 2 {
        return None;
    }
    let name = words[1].as_str();
    if begins_with_dash(name) {
        return None;
    }
    let Some(mode) = mode_of(words[0].as_str()) else {
        return None;
    };
    Some((mode, name))
}
