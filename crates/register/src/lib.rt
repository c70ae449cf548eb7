// The register: a network whose links are entered one by one, over memory that its user lends.
#![tactic(auto)]

ghost use Rattle.register.specs.Chains.{Sized, Inside, Firsts, Lasts, Ones, Others};
ghost use Rattle.std.proofs.Props.{props};
ghost use Rattle.std.specs.Prelude.{ℕ, ◌<◌, length, take};

pub mod calls;
mod changing;
pub mod making;
pub mod memory;
mod telling;

use memory::{LinkRecord, SiteChain};

// A network whose links are given numbers, from 0 on, which are their marks: the first `used` records are the links
// given so far, and the chain of each site leads through those that touch it. The sizes stand beside the slices, since the
// memory lent may be longer, and serves a later register of other sizes (no heap).
#[derive(Drop)]
pub struct Register<'a, W> {
    sites: u32,
    places: u32,
    used: u32,
    chains: &'a mut [SiteChain],
    records: &'a mut [LinkRecord<W>],
    ghost sized: { Sized sites places used (length chains.now) (length records.now) },
    ghost inside: { Inside sites (take used records.now) },
    ghost firsts: { (u : ℕ) → u < sites → Firsts u chains.now (take used records.now) } by { Prim.hlevel props },
    ghost lasts: { (u : ℕ) → u < sites → Lasts u chains.now (take used records.now) } by { Prim.hlevel props },
    ghost ones: { Ones (take used records.now) } by { Prim.hlevel props },
    ghost others: { Others (take used records.now) } by { Prim.hlevel props },
}

#[cfg(test)]
mod tests {
    use crate::Register;
    use crate::making::RegisterSizes;
    use crate::memory::{LinkRecord, SiteChain};
    use network::Network;
    use network::changes::RegisterChange;
    use network::link::Link;
    use network::links::Links;
    use weight::delay::Delay;

    // Goes on with a round that it is handed: `next` asks nothing of its caller, so this is proved without a condition.
    fn told_next<N: Network>(round: &mut Links<'_, N>) -> Option<Link<N::W>> {
        round.next()
    }

    #[test]
    fn round_is_handed_on(rt: HostRuntime) {
        let mut chains = [SiteChain::default(); 2];
        let mut records = [LinkRecord::<Delay>::default(); 2];
        let mut register = Register::new(
            RegisterSizes {
                sites: 2,
                places: 2,
            },
            &mut chains,
            &mut records,
        );
        let first = register.change(RegisterChange::Link(0, 1, 5));
        let second = register.change(RegisterChange::Link(1, 0, 7));
        assert!(rt; first.is_ok() && second.is_ok());
        let mut round = Links::at(&register, 0);
        assert_eq!(rt; told_next(&mut round).map(|link| link.mark), Some(0));
        assert_eq!(rt; told_next(&mut round).map(|link| link.mark), Some(1));
        assert!(rt; told_next(&mut round).is_none());
        assert!(rt; told_next(&mut round).is_none());
    }
}
