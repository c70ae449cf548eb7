ghost use Rattle.network.specs.Faults.{number, detail, layer};
ghost use Rattle.std.specs.Prelude.{◌≡◌};

// Why a network refuses.
#[derive(Clone, Copy, Debug, PartialEq, Eq)]
pub enum NetworkFault {
    // A size is over its largest: that size.
    TooLarge(u32),
    // A memory is too short for its size: the memory's length.
    TooShort(u32),
    // There is no such site: the site given.
    NoSuchSite(u32),
    // A weight number or a rate is over its largest: that number.
    TooHeavy(u32),
    // All link places have been used: how many there are.
    LinksUsed(u32),
    // The link number was never given, or the link was struck: that number.
    NoSuchLink(u32),
}

impl NetworkFault {
    // The number by which the refusal is known.
    pub fn number(self) -> u32
        ensures { result ≡ number self }
    {
        match self {
            NetworkFault::TooLarge(_) | NetworkFault::TooShort(_) => 1,
            NetworkFault::NoSuchSite(_) => 2,
            NetworkFault::TooHeavy(_) => 3,
            NetworkFault::LinksUsed(_) => 4,
            NetworkFault::NoSuchLink(_) => 5,
        }
    }

    // The size, length, site, weight or link that the refusal is about.
    pub fn detail(self) -> u32
        ensures { result ≡ detail self }
    {
        match self {
            NetworkFault::TooLarge(given)
            | NetworkFault::TooShort(given)
            | NetworkFault::NoSuchSite(given)
            | NetworkFault::TooHeavy(given)
            | NetworkFault::LinksUsed(given)
            | NetworkFault::NoSuchLink(given) => given,
        }
    }

    // The layer that refuses: networks are the first.
    pub fn layer(self) -> u32
        ensures { result ≡ layer self }
    {
        1
    }
}
