//! The numbers of links, which count through all sites in order.

ghost use Rattle.std.specs.Prelude.{◌≡◌, ◌++◌, ◌∷◌, [], replicate, IfOk, OnOk};
ghost use Rattle.mh_site.specs.Links.{AreNumbers};

use crate::site::Site;
use mh_base::NoMemory;
use std::alloc::Global;

// For each site, the number of its first link, and for each link, the number of its site.
#[derive(Debug, Drop)]
pub(crate) struct Numbering {
    pub(crate) firsts: Vec<usize>,
    pub(crate) homes: Vec<usize>,
}

// Numbers the links of these sites.
pub(crate) fn number_links(alloc: Global, sites: &[Site]) -> Result<Numbering, NoMemory>
    ensures value { IfOk result (λ n. AreNumbers sites.now n.firsts.items n.homes.items) }
{
    let mut firsts = Vec::new(alloc);
    let mut homes = Vec::new(alloc);
    for site in 0..sites.len() {
        let links = sites[site].links.as_slice().len();
        push(&mut firsts, homes.as_slice().len())?;
        push_home(&mut homes, site, links)?;
    }
    Ok(Numbering { firsts, homes })
}

// Appends the number of a site once for each of its links.
fn push_home(homes: &mut Vec<usize>, site: usize, links: usize) -> Result<(), NoMemory>
    ensures value { OnOk result (homes.new.items ≡ homes.old.items ++ replicate links site) }
{
    for _link in 0..links {
        push(homes, site)?;
    }
    Ok(())
}

fn push(numbers: &mut Vec<usize>, number: usize) -> Result<(), NoMemory>
    ensures value { OnOk result (numbers.new.items ≡ numbers.old.items ++ number ∷ []) }
{
    numbers.push(number).map_err(|_| NoMemory)
}
