// What every crate above needs to speak of a base: its limits, and the answer of a call. The rules themselves are
// definitions, in specs/.
#![tactic(auto)]

ghost use Rattle.std.specs.Prelude.{◌≡◌};
ghost use Rattle.rules.specs.02-Limits.{limits};
ghost use Rattle.rules.specs.09-Refusals.{number_of, value_of, answered};

// The room of a base. The definitions cannot name a constant of the source, so `all` ties the two.
#[derive(Clone, Copy)]
pub struct Limits {
    pub name: usize,
    pub sdss: usize,
    pub types: usize,
    pub presences: usize,
    pub applications: usize,
    pub ends: usize,
}

impl Limits {
    pub const NAME: usize = 16;

    pub const SDSS: usize = 16;

    pub const TYPES: usize = 128;

    pub const PRESENCES: usize = 512;

    pub const APPLICATIONS: usize = 256;

    pub const ENDS: usize = 512;

    pub fn all() -> Limits
        ensures { result ≡ limits }
    {
        Limits {
            name: Limits::NAME,
            sdss: Limits::SDSS,
            types: Limits::TYPES,
            presences: Limits::PRESENCES,
            applications: Limits::APPLICATIONS,
            ends: Limits::ENDS,
        }
    }
}

// Why a call is refused: a row of 01's table each, as 02 amends it, and the type or the place that the refusal tells.
#[derive(Clone, Copy, Debug, PartialEq, Eq)]
pub enum Refused {
    NotSound,
    UnknownSds,
    SystemSds,
    Malformed,
    UnknownCode,
    NoSuchType,
    WrongKind,
    Repeated,
    AlreadyThere,
    NameTaken,
    SdsInUse(usize),
    NotThere,
    NoRoom,
    ShortOutput,
    ChildPresent(usize),
    ApplicationPresent(usize),
    EndPresent(usize),
    UnknownMode,
    MalformedFile(usize),
    UnsoundFile,
}

impl Refused {
    // 01's number.
    pub fn number(self) -> usize
        ensures { result ≡ number_of self }
    {
        match self {
            Refused::NotSound => 1,
            Refused::UnknownSds => 2,
            Refused::SystemSds => 3,
            Refused::Malformed => 4,
            Refused::UnknownCode => 5,
            Refused::NoSuchType => 6,
            Refused::WrongKind => 7,
            Refused::Repeated => 8,
            Refused::AlreadyThere => 9,
            Refused::NameTaken => 11,
            Refused::SdsInUse(_) => 12,
            Refused::NotThere => 13,
            Refused::NoRoom => 14,
            Refused::ShortOutput => 15,
            Refused::ChildPresent(_) => 16,
            Refused::ApplicationPresent(_) => 17,
            Refused::EndPresent(_) => 18,
            Refused::UnknownMode => 19,
            Refused::MalformedFile(_) => 20,
            Refused::UnsoundFile => 21,
        }
    }

    // What it tells, 0 where it tells nothing.
    pub fn value(self) -> usize
        ensures { result ≡ value_of self }
    {
        match self {
            Refused::SdsInUse(t) => t,
            Refused::ChildPresent(t) => t,
            Refused::ApplicationPresent(t) => t,
            Refused::EndPresent(t) => t,
            Refused::MalformedFile(at) => at,
            _ => 0,
        }
    }
}

// What a call gives where it is done: the values in 01's order; those that it does not speak of are 0.
#[derive(Clone, Copy, Debug, PartialEq, Eq)]
pub struct Done(pub usize, pub usize, pub usize);

// What C gets of a call: 01's number, 0 where it is done, and the values.
#[repr(C)]
#[derive(Clone, Copy)]
pub struct Answer {
    pub no: usize,
    pub one: usize,
    pub two: usize,
    pub three: usize,
}

impl From<Result<Done, Refused>> for Answer {
    ghost from_gives = { λ call answer. answer ≡ answered call };

    fn from(call: Result<Done, Refused>) -> Answer {
        match call {
            Ok(Done(one, two, three)) => Answer {
                no: 0,
                one,
                two,
                three,
            },
            Err(refused) => Answer {
                no: refused.number(),
                one: refused.value(),
                two: 0,
                three: 0,
            },
        }
    }
}
