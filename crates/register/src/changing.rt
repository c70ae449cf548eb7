// The changes of a register.
ghost use Rattle.register.specs.Chains.{with_next, pointed, ended, struck_record, reweighed_record};
ghost use Rattle.network.specs.Registers.{stands, with_link, link_rule, strike_rule, reweigh_rule};
ghost use Rattle.register.specs.Memories.{Spared, memory_of, register_meaning};
ghost use Rattle.network.specs.Rulings.{Follows};
ghost use Rattle.std.specs.Prelude.{◌≡◌, ℕ, ◌<◌, IsTrue, false, length, get_or, is_ok, Some, slice_index_or, slice_set};

use crate::Register;
use crate::memory::{LinkRecord, SiteChain};
use network::fault::NetworkFault;
use weight::Weight;

// The largest weight number of a link.
pub const HEAVIEST: u32 = 1_000_000;

impl<W: Weight> LinkRecord<W> {
    // Strikes the link, in place.
    fn strike(&mut self)
        ensures { self.new ≡ struck_record self.old }
    {
        self.standing = false;
    }

    // Gives the link another weight, in place.
    fn reweigh(&mut self, weight: W)
        ensures { self.new ≡ reweighed_record weight self.old }
    {
        self.weight = weight;
    }
}

// The record with the number as the next one at the site, at whichever of its ends that is.
fn with_next<W: Weight>(link: LinkRecord<W>, site: u32, number: u32) -> LinkRecord<W>
    ensures { result ≡ with_next site number link }
{
    let next_one = if link.one == site {
        Some(number)
    } else {
        link.next_one
    };
    let next_other = if link.other == site {
        Some(number)
    } else {
        link.next_other
    };
    LinkRecord {
        next_one,
        next_other,
        ..link
    }
}

// Lets the last record of a chain name the number as the next one at the site; an empty chain has none.
fn point_on<W: Weight>(records: &mut [LinkRecord<W>], last: Option<u32>, site: u32, number: u32)
    requires { (i : ℕ) → last ≡ Some i → i < length records.old }
    ensures { records.new ≡ pointed site number last records.old }
{
    if let Some(last) = last {
        records[last as usize] = with_next(records[last as usize], site, number);
    }
}

// Puts the link with this number at the end of the site's chain.
fn append<W: Weight>(
    chains: &mut [SiteChain],
    records: &mut [LinkRecord<W>],
    site: u32,
    number: u32,
)
    requires there { site < length chains.old }
    requires last { (i : ℕ) (d : SiteChain) → (get_or chains.old site d).last ≡ Some i → i < length records.old }
    ensures chains { (d : SiteChain) → chains.new ≡ slice_set chains.old site (ended number (slice_index_or chains.old site d)) }
    ensures records { (d : SiteChain) → records.new ≡ pointed site number (get_or chains.old site d).last records.old }
{
    let chain = chains[site as usize];
    point_on(records, chain.last, site, number);
    chains[site as usize] = SiteChain {
        first: chain.first.or(Some(number)),
        last: Some(number),
    };
}

impl<'a, W: Weight> Register<'a, W> {
    // Adds a link, which takes the next number.
    fn add(&mut self, one: u32, other: u32, weight: W)
        requires room { self.old.used < self.old.places }
        requires ends { (one < self.old.sites) × (other < self.old.sites) }
        ensures means { register_meaning self.new ≡ with_link (register_meaning self.old) one other weight }
        ensures spared { Spared (memory_of self.old) (memory_of self.new) }
    {
        let number = self.used;
        // The chains fit `used` again only at the end, so both slices are taken out of `self` until then.
        let chains = &mut *self.chains;
        let records = &mut *self.records;
        records[number as usize] = LinkRecord {
            one,
            other,
            weight,
            standing: true,
            next_one: None,
            next_other: None,
        };
        append(chains, records, one, number);
        if other != one {
            append(chains, records, other, number);
        }
        self.used = number + 1;
    }

    // A new link between two sites, by its weight number; answers the link's own number.
    pub(crate) fn link(&mut self, one: u32, other: u32, weight: u32) -> Result<u32, NetworkFault>
        ensures obeys { Follows (link_rule W.Weight.algebra (register_meaning self.old) one other weight) (register_meaning self.old) result (register_meaning self.new) }
        ensures left { is_ok result ≡ false → self.new ≡ self.old }
        ensures spared { Spared (memory_of self.old) (memory_of self.new) }
    {
        if one >= self.sites {
            return Err(NetworkFault::NoSuchSite(one));
        }
        if other >= self.sites {
            return Err(NetworkFault::NoSuchSite(other));
        }
        if weight > HEAVIEST {
            return Err(NetworkFault::TooHeavy(weight));
        }
        if self.used >= self.places {
            return Err(NetworkFault::LinksUsed(self.places));
        }
        let number = self.used;
        self.add(one, other, W::of_number(weight));
        Ok(number)
    }

    // Whether the link with this number was given and stands.
    fn stands(&self, number: u32) -> bool
        ensures told { result ≡ stands number (register_meaning self.now).given }
        ensures given { IsTrue result → number < self.now.used }
    {
        number < self.used && self.records[number as usize].standing
    }

    // Takes out the link with this number.
    pub(crate) fn strike(&mut self, number: u32) -> Result<u32, NetworkFault>
        ensures obeys { Follows (strike_rule (register_meaning self.old) number) (register_meaning self.old) result (register_meaning self.new) }
        ensures left { is_ok result ≡ false → self.new ≡ self.old }
        ensures spared { Spared (memory_of self.old) (memory_of self.new) }
    {
        if !self.stands(number) {
            return Err(NetworkFault::NoSuchLink(number));
        }
        // Tried as `self.records[..].strike()`: a record is not lent out of a struct that has ghost fields.
        let records = &mut *self.records;
        records[number as usize].strike();
        Ok(number)
    }

    // Gives the link with this number another weight number.
    pub(crate) fn reweigh(&mut self, number: u32, weight: u32) -> Result<u32, NetworkFault>
        ensures obeys { Follows (reweigh_rule W.Weight.algebra (register_meaning self.old) number weight) (register_meaning self.old) result (register_meaning self.new) }
        ensures left { is_ok result ≡ false → self.new ≡ self.old }
        ensures spared { Spared (memory_of self.old) (memory_of self.new) }
    {
        if !self.stands(number) {
            return Err(NetworkFault::NoSuchLink(number));
        }
        if weight > HEAVIEST {
            return Err(NetworkFault::TooHeavy(weight));
        }
        let records = &mut *self.records;
        records[number as usize].reweigh(W::of_number(weight));
        Ok(number)
    }
}
