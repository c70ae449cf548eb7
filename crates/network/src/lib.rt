// Networks: sites, and links between them that can be asked for one by one and changed.
#![tactic(auto)]

ghost use Rattle.network.specs.Graph.{Graph};
ghost use Rattle.network.specs.Links.{first, after};
ghost use Rattle.network.specs.Rulings.{Ruling, Follows, Lawful};
ghost use Rattle.std.specs.Prelude.{◌≡◌, false, is_ok};

pub mod changes;
pub mod fault;
pub mod lent;
pub mod link;
pub mod links;
pub mod sizes;

use fault::NetworkFault;
use link::Link;
use weight::Weight;

// What every network shows.
pub trait Network {
    type W: Weight;

    type Change: Copy;

    // What the network means, in the words of its own sort, and the graph that this is.
    ghost Meaning: { Type 0 };

    ghost means: { Self → Meaning };

    ghost graph: { Meaning → Graph Self.W };

    // What holds of the meaning of every network of this sort.
    ghost Valid: { Meaning → Type 0 };

    // The sort's rule for changes, from the meaning alone.
    ghost rule: { Meaning → Self.Change → Ruling Meaning };

    // Every network of this sort is valid, a valid one shows what every network shows, and a granted change keeps this.
    ghost lawful: { Lawful means graph Valid rule };

    // The number of sites.
    fn sites(&self) -> u32
        ensures { result ≡ (graph (means self.now)).sites };

    // The first link at the site; none where it has none or does not exist.
    fn first_link(&self, site: u32) -> Option<Link<Self::W>>
        ensures { result ≡ first ((graph (means self.now)).links site) };

    // The link after the one with this mark at the site; none where that is the last one there,
    // where the mark is not there, or where the site does not exist.
    fn next_link(&self, site: u32, mark: u32) -> Option<Link<Self::W>>
        ensures { result ≡ after ((graph (means self.now)).links site) mark };

    // Does exactly what the rule says of the meaning. A refusal leaves all memory as it was.
    fn change(&mut self, change: Self::Change) -> Result<u32, NetworkFault>
        ensures obeys { Follows (rule (means self.old) change) (means self.old) result (means self.new) }
        ensures left { is_ok result ≡ false → self.new ≡ self.old };
}
