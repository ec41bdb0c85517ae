// What ends a run before a record.
ghost use Rattle.std.specs.Prelude.{◌≡◌};
ghost use Rattle.judge.specs.Runs.{number_of};

use machine::Forbidden;

#[derive(Clone, Copy, Debug, PartialEq, Eq)]
pub enum Stop {
    // the record cannot be read; where no record is left there are no bytes to read, which is `NoRecord`
    Unread(record::Refusal),
    // a rule turns its event away
    Forbidden(Forbidden),
}

impl Stop {
    // The documents' number.
    pub(crate) fn number(self) -> u16
        ensures { result ≡ number_of self }
    {
        match self {
            Stop::Unread(refusal) => refusal.number(),
            Stop::Forbidden(rule) => rule.number(),
        }
    }
}

impl From<record::Refusal> for Stop {
    ghost use Rattle.judge.specs.declared.stop.Stop.TheVariants.{Unread};

    ghost from_gives = { λ refusal stop. stop ≡ Unread refusal };

    fn from(refusal: record::Refusal) -> Stop {
        Stop::Unread(refusal)
    }
}

impl From<Forbidden> for Stop {
    ghost use Rattle.judge.specs.declared.stop.Stop.TheVariants.{Forbidden};

    ghost from_gives = { λ rule stop. stop ≡ Forbidden rule };

    fn from(rule: Forbidden) -> Stop {
        Stop::Forbidden(rule)
    }
}
