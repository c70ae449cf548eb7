// The hub total of two sites.
ghost use Rattle.query.specs.Hubs.{Placed, ThroughTold, HubTold};
ghost use Rattle.std.specs.Prelude.{◌≡◌, ◌*◌, ◌<◌, ◌≤◌, length};

use filling::places::{RowPlace, SitePlace};
use oracle::rule::no_wider;
use weight::Weight;

// The hubs of a build, and the rows that it filled, one for each hub place, with a place for each of so many sites.
#[derive(Drop)]
pub(crate) struct HubRows<'t, W> {
    pub(crate) hub_list: &'t [Option<u32>],
    pub(crate) rows: &'t [RowPlace<W>],
    pub(crate) sites: usize,
    ghost row_each: { length rows.now ≡ length hub_list.now * sites },
    ghost few_hubs: { length hub_list.now ≤ 64 },
    ghost few_sites: { sites ≤ 4096 },
}

impl<'t, W: Weight> HubRows<'t, W> {
    // The place of a hub in the hub list.
    fn place_of(&self, hub: u32) -> Option<usize>
        ensures { Placed self.now.hub_list.now hub result }
    {
        self.hub_list
            .iter()
            .map_while(|known| *known)
            .position(|known| known == hub)
    }

    // The total through the hub of the site with this place to another site, by the hub's row.
    fn through(&self, place: SitePlace<W>, to: u32) -> Option<W>
        requires { to < self.now.sites }
        ensures { ThroughTold W.Weight.algebra self.now.hub_list.now self.now.rows.now self.now.sites place to result }
    {
        let radius = place.radius?;
        let row = self.place_of(place.hub?)?;
        let rest = self.rows[row * self.sites + to as usize].distance?;
        Some(radius.add(rest))
    }

    // The hub total: through the hub of the one site where its radius is at most that of the other, else through the hub
    // of the other.
    pub(crate) fn total(&self, here: SitePlace<W>, there: SitePlace<W>, s: u32, t: u32) -> Option<W>
        requires { (s < self.now.sites) × (t < self.now.sites) }
        ensures { HubTold W.Weight.algebra self.now.hub_list.now self.now.rows.now self.now.sites here there s t result }
    {
        if no_wider(here.radius, there.radius) {
            self.through(here, t)
        } else {
            self.through(there, s)
        }
    }
}
