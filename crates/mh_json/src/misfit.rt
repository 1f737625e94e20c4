//! Faults of definitions and problems, as faults of the JSON that they were read from.
ghost use Rattle.std.specs.Prelude.{◌≡◌, ◌⊎◌, ◌++◌};
ghost use Rattle.mh_json.specs.declared.fault.InputFault.TheVariants.{NoMemory};
ghost use Rattle.mh_json.specs.Misfits.{keys_of_link, keys_of_point, keys_of_site, of_misfit, of_problem_misfit};
ghost use Rattle.mh_json.specs.Misreads.{behind};
ghost use Rattle.mh_json.specs.declared.key.Key.TheVariants.{Item, Member};

use crate::fault::InputFault;
use crate::key::{Field, Key};
use crate::misread::Misread;
use mh_network::{ProblemMisfit, ProblemPlace};
use mh_site::{DefinitionMisfit, DefinitionPlace, LinkPart, PointPart, SitePart};
use std::alloc::Global;

/// Places a fault at an item of the list at a key.
fn at_item(alloc: Global, misread: Misread, field: Field, item: usize) -> Misread
    ensures value { (result.fault ≡ NoMemory)
        ⊎ (result ≡ behind (Member field) (behind (Item item) misread)) }
{
    let item = misread.behind(alloc, Key::Item(item));
    item.behind(alloc, Key::Member(field))
}

/// Places a fault at a part of a point.
fn of_point(alloc: Global, misread: Misread, part: PointPart) -> Misread
    ensures value { (result.fault ≡ NoMemory) ⊎ (result ≡ record {
      fault = misread.fault;
      path = keys_of_point part ++ misread.path;
    }) }
{
    match part {
        PointPart::Whole => misread,
        PointPart::Name => misread.behind(alloc, Key::Member(Field::Name)),
        PointPart::Cost => misread.behind(alloc, Key::Member(Field::Cost)),
    }
}

/// Places a fault at a part of a site.
fn of_site(alloc: Global, misread: Misread, part: SitePart) -> Misread
    ensures value { (result.fault ≡ NoMemory) ⊎ (result ≡ record {
      fault = misread.fault;
      path = keys_of_site part ++ misread.path;
    }) }
{
    let field = match part {
        SitePart::Whole => return misread,
        SitePart::Name => Field::Name,
        SitePart::Level => Field::Level,
        SitePart::Key => Field::Key,
        SitePart::Target => Field::Target,
        SitePart::Links => Field::Links,
    };
    misread.behind(alloc, Key::Member(field))
}

/// Places a fault at a part of a link.
fn of_link(alloc: Global, misread: Misread, part: LinkPart) -> Misread
    ensures value { (result.fault ≡ NoMemory) ⊎ (result ≡ record {
      fault = misread.fault;
      path = keys_of_link part ++ misread.path;
    }) }
{
    let field = match part {
        LinkPart::Whole => return misread,
        LinkPart::When => Field::When,
        LinkPart::Weight => Field::Weight,
        LinkPart::Charge => Field::Charge,
        LinkPart::Needs => Field::Needs,
    };
    misread.behind(alloc, Key::Member(field))
}

/// Returns the fault of a definition, with the keys that lead to its place.
pub(crate) fn misread_of_misfit(alloc: Global, misfit: DefinitionMisfit) -> Misread
    ensures value { (result.fault ≡ NoMemory) ⊎ (result ≡ of_misfit misfit) }
{
    let misread = Misread::of(InputFault::from(misfit.fault));
    match misfit.place {
        DefinitionPlace::Whole => misread,
        DefinitionPlace::Points => misread.behind(alloc, Key::Member(Field::Points)),
        DefinitionPlace::Sites => misread.behind(alloc, Key::Member(Field::Sites)),
        DefinitionPlace::Point { point, part } => {
            at_item(alloc, of_point(alloc, misread, part), Field::Points, point)
        }
        DefinitionPlace::Site { site, part } => {
            at_item(alloc, of_site(alloc, misread, part), Field::Sites, site)
        }
        DefinitionPlace::Link { site, link, part } => {
            let link = at_item(alloc, of_link(alloc, misread, part), Field::Links, link);
            at_item(alloc, link, Field::Sites, site)
        }
    }
}

/// Returns the fault of a problem, with the keys that lead to its place.
pub(crate) fn misread_of_problem(alloc: Global, misfit: ProblemMisfit) -> Misread
    ensures value { (result.fault ≡ NoMemory) ⊎ (result ≡ of_problem_misfit misfit) }
{
    let misread = Misread::of(InputFault::from(misfit.fault));
    match misfit.place {
        ProblemPlace::Whole => misread,
        ProblemPlace::Links => misread.behind(alloc, Key::Member(Field::Links)),
        ProblemPlace::Points => misread.behind(alloc, Key::Member(Field::Costs)),
        ProblemPlace::Needs(link) => {
            let needs = misread.behind(alloc, Key::Member(Field::Needs));
            at_item(alloc, needs, Field::Links, link)
        }
    }
}
