// How the links of a site are told, along its chain.
ghost use Rattle.register.specs.Chains.{Ones, Others, first_from, next_at, ends_of};
ghost use Rattle.network.specs.Links.{first};
ghost use Rattle.network.specs.Registers.{told, links_from};
ghost use Rattle.register.specs.Memories.{given_of};
ghost use Rattle.std.specs.Prelude.{◌≡◌, ℕ, map, drop};

use crate::memory::LinkRecord;
use network::link::Link;
use weight::Weight;

// The link of a record as it stands at the site.
fn told<W: Weight>(link: LinkRecord<W>, site: u32, number: u32) -> Link<W>
    ensures { result ≡ told site number (given_of link) }
{
    let far = if link.one == site {
        link.other
    } else {
        link.one
    };
    Link {
        mark: number,
        far,
        weight: link.weight,
    }
}

// The next link number at the site, after the record's own.
pub(crate) fn next_at<W: Weight>(link: LinkRecord<W>, site: u32) -> Option<u32>
    ensures { result ≡ next_at site link }
{
    if link.one == site {
        link.next_one
    } else {
        link.next_other
    }
}

// The first standing link of the site's chain from `start` on: struck links are passed over. The chain goes by numbers of
// records, since there is no heap for nodes.
pub(crate) fn standing_from<W: Weight>(
    records: &[LinkRecord<W>],
    site: u32,
    start: Option<u32>,
) -> Option<Link<W>>
    requires chained { (Ones records.now) × (Others records.now) }
    requires started { (j : ℕ) × (start ≡ first_from site j (map ends_of (drop j records.now))) }
    ensures { (j : ℕ) → start ≡ first_from site j (map ends_of (drop j records.now)) → result ≡ first (links_from site j (map given_of (drop j records.now))) }
{
    let mut at = start;
    while let Some(number) = at {
        let link = records[number as usize];
        if link.standing {
            return Some(told(link, site, number));
        }
        at = next_at(link, site);
    }
    None
}
