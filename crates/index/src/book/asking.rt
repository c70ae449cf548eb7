// Questions to a book.
ghost use Rattle.index.specs.Asking.{no_site, not_built, Told};
ghost use Rattle.index.specs.Books.{state};
ghost use Rattle.network.specs.Sizes.{checked};
ghost use Rattle.std.specs.Prelude.{◌≡◌};

use super::Book;
use crate::fault::IndexFault;
use network::Network;
use query::figure::figure;
use weight::Weight;

impl<W: Weight> Book<'_, W> {
    // The number of sites.
    pub fn sites(&self) -> u32
        ensures { result ≡ (state self.now).sites }
    {
        self.sizes.sites
    }

    // Refuses a site that does not exist.
    pub(crate) fn check_site(&self, site: u32) -> Result<(), IndexFault>
        ensures { result ≡ checked (no_site (state self.now).sites site) }
    {
        if site >= self.sites() {
            return Err(IndexFault::NoSuchSite(site));
        }
        Ok(())
    }

    // Refuses where no build stands.
    pub(crate) fn check_built(&self) -> Result<(), IndexFault>
        ensures { result ≡ checked (not_built (state self.now).built) }
    {
        if !self.built {
            return Err(IndexFault::NotBuilt);
        }
        Ok(())
    }

    // The figure of two sites, as the tables tell it, with its manner, a number by a rule of the project.
    pub(crate) fn ask<N: Network<W = W>>(&self, network: &N, s: u32, t: u32) -> Option<(W, u32)>
        ensures { Told W.Weight.algebra (N.Network.graph (N.Network.means network.now)) (state self.now) s t result }
    {
        let sites = self.sizes.sites as usize;
        let hub_places = self.sizes.hub_places as usize;
        figure(
            network,
            &self.hub_list[..hub_places],
            &self.site_places[..sites],
            &self.rows[..hub_places * sites],
            &self.entries[..self.sizes.entry_places as usize],
            s,
            t,
        )
    }
}
