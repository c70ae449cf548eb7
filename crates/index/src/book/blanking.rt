// The blanking of a build.
ghost use Rattle.index.specs.Books.{state, unbuilt, emptied};
ghost use Rattle.std.specs.Prelude.{◌≡◌};

use super::Book;
use filling::tables::blank_all;
use weight::Weight;

impl<W: Weight> Book<'_, W> {
    // Blanks every place of the book but the hub list.
    pub(crate) fn empty(&mut self)
        ensures { state self.new ≡ emptied W.Weight.algebra (state self.old) }
    {
        let sites = self.sizes.sites as usize;
        let rows = self.sizes.hub_places as usize * sites;
        let entries = self.sizes.entry_places as usize;
        blank_all(
            &mut self.site_places[..sites],
            &mut self.rows[..rows],
            &mut self.entries[..entries],
        );
        self.built = false;
    }

    // Blanks the build, where one stands.
    pub(crate) fn unbuild(&mut self)
        ensures { state self.new ≡ unbuilt W.Weight.algebra (state self.old) }
    {
        if self.built {
            self.empty();
        }
    }
}
