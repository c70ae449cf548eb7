// How a register is made, over memory that its user lends.
ghost use Rattle.register.specs.Memories.{HoldsMemory, KeepsMemory, Made, Renewed, blank_record, lent, memory_of, no_chain, register_meaning, size_fault};
ghost use Rattle.network.specs.Sizes.{checked};
ghost use Rattle.std.specs.Prelude.{◌≡◌, ◌≤◌, ◌++◌, drop, false, is_ok, length, replicate};

use crate::Register;
use crate::memory::{LinkRecord, SiteChain};
use network::fault::NetworkFault;
use network::lent::overwrite;
use network::sizes::{check_memory, check_size};
use weight::Weight;

// The most sites and the most link places that a register can have.
pub const MOST_SITES: u32 = 4096;

pub const MOST_LINKS: u32 = 16384;

// How many sites a register has, and how many link places.
#[derive(Clone, Copy, Debug, PartialEq, Eq)]
pub struct RegisterSizes {
    pub sites: u32,
    pub places: u32,
}

// Tests the sizes of a register and the lengths of the memory lent for it, in this order:
// sites, their memory, link places, their memory.
pub fn check_sizes(
    sizes: RegisterSizes,
    site_memory: usize,
    link_memory: usize,
) -> Result<(), NetworkFault>
    ensures { result ≡ checked (size_fault sizes.sites site_memory sizes.places link_memory) }
{
    check_size(sizes.sites, MOST_SITES)?;
    check_memory(site_memory, sizes.sites)?;
    check_size(sizes.places, MOST_LINKS)?;
    check_memory(link_memory, sizes.places)
}

// Empties the chains of the first so many sites.
fn empty_chains(chains: &mut [SiteChain], sites: u32)
    requires { sites ≤ length chains.old }
    ensures { chains.new ≡ replicate sites no_chain ++ drop sites chains.old }
{
    overwrite(&mut chains[..sites as usize], SiteChain::default());
}

impl<'a, W: Weight> Register<'a, W> {
    // A register of these sizes, without links; one with no sites where `check_sizes` refuses.
    pub fn new(
        sizes: RegisterSizes,
        chains: &'a mut [SiteChain],
        records: &'a mut [LinkRecord<W>],
    ) -> Register<'a, W>
        ensures made { Made sizes.sites sizes.places (lent chains.old records.old) (memory_of result) }
        ensures memory { HoldsMemory chains.entry records.entry result }
    {
        let mut register = Register {
            sites: 0,
            places: 0,
            used: 0,
            chains,
            records,
        };
        let _ = register.renew(sizes);
        register
    }

    // Tests sizes against the register's memory, as `check_sizes` does.
    pub fn check(&self, sizes: RegisterSizes) -> Result<(), NetworkFault>
        ensures { result ≡ checked (size_fault sizes.sites (register_meaning self.now).site_room sizes.places (register_meaning self.now).link_room) }
    {
        check_sizes(sizes, self.chains.len(), self.records.len())
    }

    // The register made anew over its own memory; a refusal leaves it as it was.
    pub fn renew(&mut self, sizes: RegisterSizes) -> Result<(), NetworkFault>
        ensures renewed { Renewed sizes.sites sizes.places (memory_of self.old) result (memory_of self.new) }
        ensures left { is_ok result ≡ false → self.new ≡ self.old }
        ensures memory { KeepsMemory self.old self.new }
    {
        self.check(sizes)?;
        empty_chains(self.chains, sizes.sites);
        self.sites = sizes.sites;
        self.places = sizes.places;
        self.used = 0;
        Ok(())
    }
}

// A record as memory holds it before any link: to make the memory that is lent. By hand, since its weight is the kind's zero.
impl<W: Weight> Default for LinkRecord<W> {
    ghost is_default = { λ record'. record' ≡ blank_record W.Weight.algebra };

    fn default() -> LinkRecord<W> {
        LinkRecord {
            one: 0,
            other: 0,
            weight: W::zero(),
            standing: false,
            next_one: None,
            next_other: None,
        }
    }
}
