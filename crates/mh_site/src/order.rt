//! Needs in ascending order.

ghost use Rattle.std.specs.Prelude.{◌≡◌, map};
ghost use Rattle.mh_site.specs.Ascending.{ascending};
ghost use Rattle.mh_site.specs.Definitions.{link_in_order, site_in_order};

use crate::link::Link;
use crate::site::Site;
use mh_base::Listing;

// Sorts the needs of each link of each site in ascending order. It does not allocate.
pub(crate) fn order_sites(sites: &mut Vec<Site>)
    ensures value { sites.new.items ≡ map site_in_order sites.old.items }
{
    for index in 0..sites.len() {
        let site = &mut sites[index];
        order_all(&mut site.links);
    }
}

fn order_all(links: &mut Listing<Link>)
    ensures value { links.new ≡ map link_in_order links.old }
{
    order_links(&mut links.items);
}

fn order_links(links: &mut Vec<Link>)
    ensures value { links.new.items ≡ map link_in_order links.old.items }
{
    for index in 0..links.len() {
        let link = &mut links[index];
        order_needs(&mut link.needs);
    }
}

fn order_needs(needs: &mut Listing<u32>)
    ensures value { needs.new ≡ ascending needs.old }
{
    needs.items.sort_unstable();
}
