// The build of a book.
ghost use Rattle.filling.specs.Tables.{Filled};
ghost use Rattle.index.specs.Books.{state};
ghost use Rattle.index.specs.Building.{tables_of, RestKept, Built};
ghost use Rattle.std.specs.Prelude.{◌≡◌, ◌≤◌, length};

use super::Book;
use crate::fault::IndexFault;
use filling::tables::{Unfilled, fill};
use network::Network;
use shortest::waiting::Waiting;
use weight::Weight;

impl<W: Weight> Book<'_, W> {
    // Fills the tables with those of the network.
    fn fill<N: Network<W = W>>(
        &mut self,
        network: &N,
        waiting: &mut [Waiting<W>],
    ) -> Result<u32, Unfilled>
        ensures filled { Filled W.Weight.algebra (N.Network.graph (N.Network.means network.now)) (tables_of (state self.old) waiting.old) result (tables_of (state self.new) waiting.new) }
        ensures rest { RestKept (state self.old) (state self.new) }
    {
        let sites = self.sizes.sites as usize;
        let hub_places = self.sizes.hub_places as usize;
        // Tried as `&self.hub_list[..hub_places]`: lent beside `&mut` parts of the book, nothing is known of it afterwards.
        let hub_list = &mut self.hub_list[..hub_places];
        fill(
            network,
            hub_list,
            &mut self.site_places[..sites],
            &mut self.rows[..hub_places * sites],
            &mut self.entries[..self.sizes.entry_places as usize],
            waiting,
        )
    }

    // Builds a book that agrees with the network in sites, over a waiting place for each of them, whatever it held:
    // the tables stand, or they are blank where the balls do not fit.
    pub(crate) fn build<N: Network<W = W>>(
        &mut self,
        network: &N,
        waiting: &mut [Waiting<W>],
    ) -> Result<u32, IndexFault>
        requires agreed { (state self.old).sites ≡ (N.Network.graph (N.Network.means network.now)).sites }
        requires room { (state self.old).sites ≤ length waiting.old }
        ensures { Built W.Weight.algebra (N.Network.graph (N.Network.means network.now)) waiting.old (state self.old) result waiting.new (state self.new) }
    {
        match self.fill(network, waiting) {
            Ok(count) => {
                self.built = true;
                Ok(count)
            }
            Err(Unfilled::NoRoom(site)) => {
                self.built = false;
                Err(IndexFault::NoRoom(site))
            }
            // The memory of a book fits a network that agrees with it in sites, so this is never met.
            Err(Unfilled::Misfit) => Err(IndexFault::SitesDiffer(self.sites())),
        }
    }
}
