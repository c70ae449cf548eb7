// The calls on an index. An index is a network and a book, which its user holds side by side: in one value a figure would
// lend both as `&mut`, or a naming the network, and ask more of callers.
ghost use Rattle.index.specs.Asking.{Asked};
ghost use Rattle.index.specs.Books.{state};
ghost use Rattle.index.specs.Building.{Built};
ghost use Rattle.index.specs.Calls.{differ, Changed, Named, Unnamed};
ghost use Rattle.network.specs.Sizes.{checked};
ghost use Rattle.std.specs.Prelude.{◌≡◌, false, is_ok};

use crate::book::Book;
use crate::fault::IndexFault;
use network::Network;
use shortest::waiting::Waiting;

// Refuses a book that differs from the network in sites.
fn check_agreed<N: Network>(network: &N, book: &Book<'_, N::W>) -> Result<(), IndexFault>
    ensures { result ≡ checked (differ (state book.now).sites (N.Network.graph (N.Network.means network.now)).sites) }
{
    let sites = network.sites();
    if book.sites() != sites {
        return Err(IndexFault::SitesDiffer(sites));
    }
    Ok(())
}

// A change of the network. Granted, it blanks the book's build, also where the change alters nothing:
// no figure of an earlier build outlives it.
pub fn change<N: Network>(
    network: &mut N,
    book: &mut Book<'_, N::W>,
    change: N::Change,
) -> Result<u32, IndexFault>
    ensures changed { Changed N.W.Weight.algebra N.Network.graph N.Network.rule change (N.Network.means network.old) (state book.old) result (N.Network.means network.new) (state book.new) }
    ensures left { is_ok result ≡ false → network.new ≡ network.old }
{
    check_agreed(network, book)?;
    let answer = network.change(change)?;
    book.unbuild();
    Ok(answer)
}

// Names a site as a hub, and answers how many hubs there are then.
pub fn name<N: Network>(
    network: &N,
    book: &mut Book<'_, N::W>,
    site: u32,
) -> Result<u32, IndexFault>
    ensures { Named N.W.Weight.algebra (N.Network.graph (N.Network.means network.now)).sites site (state book.old) result (state book.new) }
{
    check_agreed(network, book)?;
    book.name(site)
}

// Takes the name of a hub from a site, and answers how many hubs are left.
pub fn unname<N: Network>(
    network: &N,
    book: &mut Book<'_, N::W>,
    site: u32,
) -> Result<u32, IndexFault>
    ensures { Unnamed N.W.Weight.algebra (N.Network.graph (N.Network.means network.now)).sites site (state book.old) result (state book.new) }
{
    check_agreed(network, book)?;
    book.unname(site)
}

// Fills the book with the tables for the hubs named and the links that stand, whatever it held, and answers how many
// entries the balls have. It searches over the waiting places, of which the first, one for each site, are blank afterwards.
pub fn build<N: Network>(
    network: &N,
    book: &mut Book<'_, N::W>,
    waiting: &mut [Waiting<N::W>],
) -> Result<u32, IndexFault>
    ensures { Built N.W.Weight.algebra (N.Network.graph (N.Network.means network.now)) waiting.old (state book.old) result waiting.new (state book.new) }
{
    check_agreed(network, book)?;
    if waiting.len() < book.sites() as usize {
        return Err(IndexFault::TooShort(waiting.len() as u32));
    }
    book.build(network, waiting)
}

// The figure of two sites and its manner, by a rule of the project a number: 0 for a site and itself, 1 for a meeting,
// 2 for a hub. It is refused where no build stands, and where no walk joins the two. Network and book are left as they are.
pub fn figure<N: Network>(
    network: &N,
    book: &Book<'_, N::W>,
    s: u32,
    t: u32,
) -> Result<(N::W, u32), IndexFault>
    ensures { Asked N.W.Weight.algebra (N.Network.graph (N.Network.means network.now)) (state book.now) s t result }
{
    check_agreed(network, book)?;
    book.check_site(s)?;
    book.check_site(t)?;
    book.check_built()?;
    book.ask(network, s, t).ok_or(IndexFault::Unjoined)
}
