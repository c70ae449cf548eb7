// A register is a network.
ghost use Rattle.network.specs.Registers.{Meaning, graph, Valid, rule};
ghost use Rattle.register.specs.Memories.{Spared, memory_of, register_meaning};
ghost use Rattle.register.specs.Validity.{lawful};
ghost use Rattle.network.specs.Rulings.{Follows};
ghost use Rattle.std.specs.Prelude.{◌≡◌, false, is_ok};

use crate::Register;
use crate::telling::{next_at, standing_from};
use network::Network;
use network::changes::RegisterChange;
use network::fault::NetworkFault;
use network::link::Link;
use weight::Weight;

impl<'a, W: Weight> Network for Register<'a, W> {
    type W = W;

    type Change = RegisterChange;

    ghost Meaning = { Meaning W };

    ghost means = { register_meaning };

    ghost graph = { graph };

    ghost Valid = { Valid };

    ghost rule = { rule W.Weight.algebra };

    ghost lawful = { lawful W.Weight.algebra };

    fn sites(&self) -> u32 {
        self.sites
    }

    fn first_link(&self, site: u32) -> Option<Link<W>> {
        if site >= self.sites {
            return None;
        }
        let start = self.chains[site as usize].first;
        standing_from(&self.records[..self.used as usize], site, start)
    }

    fn next_link(&self, site: u32, mark: u32) -> Option<Link<W>> {
        let given = &self.records[..self.used as usize];
        let link = *given.get(mark as usize)?;
        if !link.standing || (link.one != site && link.other != site) {
            return None;
        }
        standing_from(given, site, next_at(link, site))
    }

    // Places past the register's sizes stay as they were.
    fn change(&mut self, change: RegisterChange) -> Result<u32, NetworkFault>
        ensures obeys { Follows (rule W.Weight.algebra (register_meaning self.old) change) (register_meaning self.old) result (register_meaning self.new) }
        ensures left { is_ok result ≡ false → self.new ≡ self.old }
        ensures spared { Spared (memory_of self.old) (memory_of self.new) }
    {
        match change {
            RegisterChange::Link(one, other, weight) => self.link(one, other, weight),
            RegisterChange::Strike(number) => self.strike(number),
            RegisterChange::Reweigh(number, weight) => self.reweigh(number, weight),
        }
    }
}
