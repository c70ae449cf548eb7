// The calls of a file.
ghost use Rattle.callfile.specs.Records.{numbers, call_of};
ghost use Rattle.callfile.specs.Kinds.{byte_of, KindRead};
ghost use Rattle.std.specs.Prelude.{◌≡◌};

use crate::fault::ReaderFault;

// A call as a record tells it.
#[derive(Clone, Copy, Debug, PartialEq, Eq)]
pub enum Call {
    // A new index with so many sites.
    New(u32),
    // A link between two sites, with a weight number.
    Link(u32, u32, u32),
    // Strikes the link with this number.
    Strike(u32),
    // Gives the link with this number another weight number.
    Reweigh(u32, u32),
    // Names a site as a hub.
    Name(u32),
    // Takes the name of a hub from a site.
    Unname(u32),
}

// What a call does, without its numbers.
#[derive(Clone, Copy, Debug, PartialEq, Eq)]
pub enum Kind {
    New,
    Link,
    Strike,
    Reweigh,
    Name,
    Unname,
}

// The kind of the call with this byte.
impl TryFrom<u8> for Kind {
    type Error = ReaderFault;

    ghost try_from_gives = { KindRead };

    fn try_from(byte: u8) -> Result<Kind, ReaderFault> {
        match byte {
            0 => Ok(Kind::New),
            1 => Ok(Kind::Link),
            2 => Ok(Kind::Strike),
            3 => Ok(Kind::Reweigh),
            4 => Ok(Kind::Name),
            5 => Ok(Kind::Unname),
            _ => Err(ReaderFault::UnknownCall(byte)),
        }
    }
}

impl Kind {
    // How many numbers a call of this kind takes.
    pub(crate) fn numbers(self) -> u32
        ensures { result ≡ numbers (byte_of self) }
    {
        match self {
            Kind::Link => 3,
            Kind::Reweigh => 2,
            Kind::New | Kind::Strike | Kind::Name | Kind::Unname => 1,
        }
    }

    // The call of this kind with the first of these numbers.
    pub(crate) fn call(self, a: u32, b: u32, c: u32) -> Call
        ensures { result ≡ call_of (byte_of self) a b c }
    {
        match self {
            Kind::New => Call::New(a),
            Kind::Link => Call::Link(a, b, c),
            Kind::Strike => Call::Strike(a),
            Kind::Reweigh => Call::Reweigh(a, b),
            Kind::Name => Call::Name(a),
            Kind::Unname => Call::Unname(a),
        }
    }
}
