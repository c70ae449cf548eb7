// The hub list: hubs by ascending site number, then blanks.
ghost use Rattle.index.specs.Hubs.{moved_up, moved_down};
ghost use Rattle.std.specs.Prelude.{◌≡◌, ◌<◌, ◌≤◌, length};

// Puts the site at this place; the hubs from there on, of which there are so many in all, move up by one.
pub(crate) fn put(hub_list: &mut [Option<u32>], hubs: usize, at: usize, site: u32)
    requires within { (at ≤ hubs) × (hubs < length hub_list.old) }
    ensures { hub_list.new ≡ moved_up hubs at (Some site) hub_list.old }
{
    hub_list[at..=hubs].rotate_right(1);
    hub_list[at] = Some(site);
}

// Takes out the hub at this place; those after it move down by one.
pub(crate) fn take_out(hub_list: &mut [Option<u32>], hubs: usize, at: usize)
    requires within { (at < hubs) × (hubs ≤ length hub_list.old) }
    ensures { hub_list.new ≡ moved_down hubs at None hub_list.old }
{
    hub_list[at..hubs].rotate_left(1);
    hub_list[hubs - 1] = None;
}
