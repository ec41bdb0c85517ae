// The refusals of this layer, with their numbers.
ghost use Rattle.std.specs.Prelude.{◌≡◌, ℕ};
ghost use Rattle.record.specs.Answers.{number_of, Numbers, refusal_of, numbered_by};
ghost use Rattle.record.specs.Versions.{later_refusal};

use crate::versions::new_at;

// By which reading (1 to 4) and writing (17) turn away, at their numbers.
#[derive(Clone, Copy, Debug, PartialEq, Eq)]
pub enum Refusal {
    // no bytes
    NoRecord = 1,
    // bytes end inside the record
    CutShort = 2,
    UnknownKind = 3,
    // a length under 2, or wrong for the kind
    WrongLength = 4,
    // the output is shorter than the record
    NoRoom = 17,
}

impl Refusal {
    pub fn number(self) -> u16
        ensures { result ≡ number_of self }
    {
        self as u16
    }

    // What refuses the record at a position behind the first of a trace of that version, where this refuses it read
    // alone: an unknown kind in the place of a wrong length, if the version does not know the kind.
    #[tactic(auto, using(crate::proofs::NewKinds::others_stay), unfolding(crate::specs::Versions::later_refusal))]
    pub fn later(self, version: u16, trace: &[u8], at: usize) -> Refusal
        ensures { number_of result ≡ later_refusal version trace.now at (number_of self) }
    {
        match self {
            Refusal::WrongLength if new_at(version, trace, at) => Refusal::UnknownKind,
            _ => self,
        }
    }
}

// A number that no refusal of this layer has.
#[derive(Clone, Copy, Debug, PartialEq, Eq)]
pub struct NoRefusal;

impl TryFrom<u16> for Refusal {
    type Error = NoRefusal;

    ghost try_from_gives = { Numbers };

    fn try_from(number: u16) -> Result<Self, NoRefusal> {
        match number {
            1 => Ok(Refusal::NoRecord),
            2 => Ok(Refusal::CutShort),
            3 => Ok(Refusal::UnknownKind),
            4 => Ok(Refusal::WrongLength),
            17 => Ok(Refusal::NoRoom),
            _ => Err(NoRefusal),
        }
    }
}

// What has the number of a refusal: a refusal of this layer, or the number itself, whichever it is.
pub trait Numbered: Copy {
    ghost number: { Self → ℕ };

    fn as_number(self) -> u16
        ensures { result ≡ number self };
}

impl Numbered for Refusal {
    ghost number = { number_of };

    fn as_number(self) -> u16 {
        self.number()
    }
}

impl Numbered for u16 {
    ghost number = { λ k. k };

    fn as_number(self) -> u16 {
        self
    }
}

// The number of the refusal, 0 where there is none.
pub fn refusal_of<T: Copy, E: Numbered>(answer: Result<T, E>) -> u16
    ensures { result ≡ refusal_of (numbered_by E.number answer) }
{
    match answer {
        Ok(_) => 0,
        Err(refusal) => refusal.as_number(),
    }
}
