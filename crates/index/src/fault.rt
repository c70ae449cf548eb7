ghost use Rattle.index.specs.Faults.{number, detail, layer};
ghost use Rattle.index.specs.declared.fault.IndexFault.TheVariants.{Network};
ghost use Rattle.std.specs.Prelude.{◌≡◌};

use network::fault::NetworkFault;
use network::sizes::SizeFault;

// Why an index refuses.
#[derive(Clone, Copy, Debug, PartialEq, Eq)]
pub enum IndexFault {
    // The network refused.
    Network(NetworkFault),
    // A size is over its largest: that size.
    TooLarge(u32),
    // A memory is too short for its size: the memory's length.
    TooShort(u32),
    // There is no such site: the site given.
    NoSuchSite(u32),
    // The site is a hub already: that site.
    HubAlready(u32),
    // All hub places are taken: how many there are.
    HubsFull(u32),
    // The site is no hub: that site.
    NoHub(u32),
    // The book and the network differ in sites: the network's sites.
    SitesDiffer(u32),
    // No build stands.
    NotBuilt,
    // The balls together exceed the entry places: the lowest site whose ball does not fit.
    NoRoom(u32),
    // No walk joins the two sites.
    Unjoined,
}

impl From<NetworkFault> for IndexFault {
    ghost from_gives = { λ e r. r ≡ Network e };

    fn from(fault: NetworkFault) -> IndexFault {
        IndexFault::Network(fault)
    }
}

impl SizeFault for IndexFault {
    ghost use Rattle.index.specs.declared.fault.IndexFault.TheVariants.{TooLarge, TooShort};

    ghost large = { TooLarge };

    ghost small = { TooShort };

    fn too_large(size: u32) -> IndexFault {
        IndexFault::TooLarge(size)
    }

    fn too_short(length: u32) -> IndexFault {
        IndexFault::TooShort(length)
    }
}

impl IndexFault {
    // The number by which the refusal is known.
    pub fn number(self) -> u32
        ensures { result ≡ number self }
    {
        match self {
            IndexFault::Network(fault) => fault.number(),
            IndexFault::TooLarge(_) | IndexFault::TooShort(_) => 1,
            IndexFault::NoSuchSite(_) => 2,
            IndexFault::HubAlready(_) => 6,
            IndexFault::HubsFull(_) => 7,
            IndexFault::NoHub(_) => 8,
            IndexFault::SitesDiffer(_) => 9,
            IndexFault::NotBuilt => 10,
            IndexFault::NoRoom(_) => 11,
            IndexFault::Unjoined => 12,
        }
    }

    // The size, length, site or count that the refusal is about; 0 where it is about none.
    pub fn detail(self) -> u32
        ensures { result ≡ detail self }
    {
        match self {
            IndexFault::Network(fault) => fault.detail(),
            IndexFault::TooLarge(number)
            | IndexFault::TooShort(number)
            | IndexFault::NoSuchSite(number)
            | IndexFault::HubAlready(number)
            | IndexFault::HubsFull(number)
            | IndexFault::NoHub(number)
            | IndexFault::SitesDiffer(number)
            | IndexFault::NoRoom(number) => number,
            IndexFault::NotBuilt | IndexFault::Unjoined => 0,
        }
    }

    // The layer that refuses: 1 for the network, 2 for the index itself.
    pub fn layer(self) -> u32
        ensures { result ≡ layer self }
    {
        match self {
            IndexFault::Network(fault) => fault.layer(),
            _ => 2,
        }
    }
}
