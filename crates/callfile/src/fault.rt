ghost use Rattle.callfile.specs.Faults.{number, detail, layer};
ghost use Rattle.callfile.specs.declared.fault.ReaderFault.TheVariants.{Index};
ghost use Rattle.std.specs.Prelude.{◌≡◌};

use index::fault::IndexFault;

// Why a record is refused.
#[derive(Clone, Copy, Debug, PartialEq, Eq)]
pub enum ReaderFault {
    // The index, or the network below it, refused.
    Index(IndexFault),
    // The file ends inside a record: the bytes left over.
    Partial(u32),
    // No call has this byte.
    UnknownCall(u8),
    // A spare or unused byte is not zero: its place in the record.
    NotZero(u32),
}

impl From<IndexFault> for ReaderFault {
    ghost from_gives = { λ e r. r ≡ Index e };

    fn from(fault: IndexFault) -> ReaderFault {
        ReaderFault::Index(fault)
    }
}

impl ReaderFault {
    // The number by which the refusal is known.
    pub fn number(self) -> u32
        ensures { result ≡ number self }
    {
        match self {
            ReaderFault::Index(fault) => fault.number(),
            ReaderFault::Partial(_) => 14,
            ReaderFault::UnknownCall(_) => 15,
            ReaderFault::NotZero(_) => 16,
        }
    }

    // What the refusal is about.
    pub fn detail(self) -> u32
        ensures { result ≡ detail self }
    {
        match self {
            ReaderFault::Index(fault) => fault.detail(),
            ReaderFault::Partial(bytes) => bytes,
            ReaderFault::UnknownCall(byte) => u32::from(byte),
            ReaderFault::NotZero(place) => place,
        }
    }

    // The layer that refuses: 1 for the network, 2 for the index, 3 for the reader itself.
    pub fn layer(self) -> u32
        ensures { result ≡ layer self }
    {
        match self {
            ReaderFault::Index(fault) => fault.layer(),
            _ => 3,
        }
    }
}
