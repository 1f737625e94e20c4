//! Properties that C queries, each a number.

ghost use Rattle.std.specs.Prelude.{◌≡◌};
ghost use Rattle.std.specs.List.{slice_get};
ghost use Rattle.mhlink_c.specs.Details.{details};

/// A property of a book, as a number, by the kind of item that has it.
#[derive(Clone, Copy, Debug)]
pub(crate) enum Detail {
    Count(CountDetail),
    Point(PointDetail),
    Site(SiteDetail),
    Link(LinkDetail),
    Plan(PlanDetail),
}

/// A number of items.
#[derive(Clone, Copy, Debug)]
pub(crate) enum CountDetail {
    Points,
    Sites,
    Links,
}

/// Of a point.
#[derive(Clone, Copy, Debug)]
pub(crate) enum PointDetail {
    /// 1 if the point is valid, and 0 if it is not.
    Valid,
    Cost,
}

/// Of a site.
#[derive(Clone, Copy, Debug)]
pub(crate) enum SiteDetail {
    Level,
    /// The position of the key, if the site has one.
    Key,
    /// The kind of the result, numbered as that of a value.
    Result,
    Parameters,
    /// The kind of a parameter.
    Parameter,
    Links,
    /// The number of a link.
    Link,
    /// The number of links installed.
    Held,
    /// The number of an installed link.
    HeldLink,
    /// The number of retargetings.
    Retargetings,
}

/// Of a link.
#[derive(Clone, Copy, Debug)]
pub(crate) enum LinkDetail {
    Site,
    Weight,
    Charge,
    Needs,
    /// The number of a point that it needs.
    Need,
    /// 1 if all points that it needs are valid, and 0 if an installation leaves it out.
    Eligible,
}

/// Of a published plan.
#[derive(Clone, Copy, Debug)]
pub(crate) enum PlanDetail {
    Links,
    /// The number of a link.
    Link,
    Points,
    /// The number of a point.
    Point,
    /// 1 if the site was not retargeted since the plan's snapshot, and 0 if an installation skips
    /// it.
    Current,
}

// All properties, each at the index by which C selects it.
const DETAILS: [Detail; 26] = [
    Detail::Count(CountDetail::Points),
    Detail::Count(CountDetail::Sites),
    Detail::Count(CountDetail::Links),
    Detail::Point(PointDetail::Valid),
    Detail::Point(PointDetail::Cost),
    Detail::Site(SiteDetail::Level),
    Detail::Site(SiteDetail::Key),
    Detail::Site(SiteDetail::Result),
    Detail::Site(SiteDetail::Parameters),
    Detail::Site(SiteDetail::Parameter),
    Detail::Site(SiteDetail::Links),
    Detail::Site(SiteDetail::Link),
    Detail::Site(SiteDetail::Held),
    Detail::Site(SiteDetail::HeldLink),
    Detail::Site(SiteDetail::Retargetings),
    Detail::Link(LinkDetail::Site),
    Detail::Link(LinkDetail::Weight),
    Detail::Link(LinkDetail::Charge),
    Detail::Link(LinkDetail::Needs),
    Detail::Link(LinkDetail::Need),
    Detail::Link(LinkDetail::Eligible),
    Detail::Plan(PlanDetail::Links),
    Detail::Plan(PlanDetail::Link),
    Detail::Plan(PlanDetail::Points),
    Detail::Plan(PlanDetail::Point),
    Detail::Plan(PlanDetail::Current),
];

/// Returns the property of a number.
pub(crate) fn detail_of(number: u32) -> Option<Detail>
    ensures value { result ≡ slice_get details number }
{
    detail_at(&DETAILS, number as usize)
}

fn detail_at(all: &[Detail], place: usize) -> Option<Detail>
    ensures value { result ≡ slice_get all.now place }
{
    let detail = all.get(place)?;
    Some(*detail)
}
