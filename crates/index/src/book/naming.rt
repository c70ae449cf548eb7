// Which sites are hubs.
ghost use Rattle.index.specs.Books.{state, hubs_of};
ghost use Rattle.index.specs.Calls.{Follows, at_site, naming, unnaming};
ghost use Rattle.index.specs.Hubs.{sought};
ghost use Rattle.std.specs.Prelude.{◌≡◌, length};

use super::Book;
use super::hubs::{put, take_out};
use crate::fault::IndexFault;
use weight::Weight;

impl<W: Weight> Book<'_, W> {
    // How many hubs are named.
    pub(crate) fn hubs(&self) -> u32
        ensures { result ≡ length (hubs_of (state self.now)) }
    {
        self.hub_count
    }

    // The place of the site among the hubs, or the place where it would come.
    fn find_hub(&self, site: u32) -> Result<usize, usize>
        ensures { result ≡ sought site (hubs_of (state self.now)) }
    {
        self.hub_list[..self.hub_count as usize].binary_search(&Some(site))
    }

    // Names the site as a hub.
    pub(crate) fn name(&mut self, site: u32) -> Result<u32, IndexFault>
        ensures { Follows (at_site (state self.old) site (naming W.Weight.algebra (state self.old) site)) (state self.old) result (state self.new) }
    {
        self.check_site(site)?;
        let Err(at) = self.find_hub(site) else {
            return Err(IndexFault::HubAlready(site));
        };
        let hubs = self.hubs();
        if hubs >= self.sizes.hub_places {
            return Err(IndexFault::HubsFull(self.sizes.hub_places));
        }
        // Written apart from the book, whose facts hold again once the hubs are counted.
        let hub_list = &mut *self.hub_list;
        put(hub_list, hubs as usize, at, site);
        self.hub_count = hubs + 1;
        self.unbuild();
        Ok(hubs + 1)
    }

    // Takes the name of a hub from the site.
    pub(crate) fn unname(&mut self, site: u32) -> Result<u32, IndexFault>
        ensures { Follows (at_site (state self.old) site (unnaming W.Weight.algebra (state self.old) site)) (state self.old) result (state self.new) }
    {
        self.check_site(site)?;
        let Ok(at) = self.find_hub(site) else {
            return Err(IndexFault::NoHub(site));
        };
        let hubs = self.hubs();
        let hub_list = &mut *self.hub_list;
        take_out(hub_list, hubs as usize, at);
        self.hub_count = hubs - 1;
        self.unbuild();
        Ok(hubs - 1)
    }
}
