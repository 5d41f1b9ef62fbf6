ghost use Rattle.std.specs.Prelude.{◌≡◌};

use mpc_values::StaticVar;
use std::marker::Model;

/// Static variables in order of their numbers, counted from 0.
#[derive(Debug, Drop)]
pub struct Globals {
    list: Vec<StaticVar>,
}

impl Model for Globals {
    ghost use Rattle.std.specs.Prelude.{List};
    ghost use Rattle.mpc_values.specs.declared.owners.StaticVar.{StaticVar};

    ghost Value = { List StaticVar };

    ghost view = { λ globals. globals.list.items };
}

impl Globals {
    pub fn of(list: Vec<StaticVar>) -> Globals
        ensures { result ≡ list.items }
    {
        Globals { list }
    }

    pub fn as_slice(&self) -> &[StaticVar]
        ensures { result.now ≡ self.now }
    {
        self.list.as_slice()
    }

    pub fn into_vec(self) -> Vec<StaticVar>
        ensures { result.items ≡ self }
    {
        let Globals { list } = self;
        list
    }
}
