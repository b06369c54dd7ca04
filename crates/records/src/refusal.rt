// Why a call is refused: the rows of the table "When the gate stays shut", and those that later requests add.
ghost use Rattle.std.specs.Prelude.{◌≡◌};
ghost use Rattle.records.specs.Refusals.{number};

// A row that refuses. Its number is the paper's (`number`).
#[derive(Clone, Copy, PartialEq, Eq)]
pub enum Refusal {
    CorruptStore,
    ListHead,
    TooManySites,
    ListLength,
    SiteMark,
    DepotAbove63,
    NoLitres,
    PlanHead,
    TooManyGroups,
    OtherSiteCount,
    PlanLength,
    PlanMark,
    GroupsMeet,
    GroupsUnlisted,
    ShareBroken,
    LoadUneven,
    GroupsRise,
    NoPlanHeld,
    NoSuchSite,
    DepotUnlisted,
    BufferShort,
    NotInEdition1,
    CrewsAbove9,
    SiteUncrewed,
}

impl Refusal {
    // The row's number.
    pub fn number(self) -> u8
        ensures { result ≡ number self }
    {
        match self {
            Refusal::CorruptStore => 0,
            Refusal::ListHead => 1,
            Refusal::TooManySites => 2,
            Refusal::ListLength => 3,
            Refusal::SiteMark => 4,
            Refusal::DepotAbove63 => 5,
            Refusal::NoLitres => 6,
            Refusal::PlanHead => 7,
            Refusal::TooManyGroups => 8,
            Refusal::OtherSiteCount => 9,
            Refusal::PlanLength => 10,
            Refusal::PlanMark => 11,
            Refusal::GroupsMeet => 12,
            Refusal::GroupsUnlisted => 13,
            Refusal::ShareBroken => 14,
            Refusal::LoadUneven => 15,
            Refusal::GroupsRise => 16,
            Refusal::NoPlanHeld => 17,
            Refusal::NoSuchSite => 18,
            Refusal::DepotUnlisted => 19,
            Refusal::BufferShort => 20,
            Refusal::NotInEdition1 => 21,
            Refusal::CrewsAbove9 => 22,
            Refusal::SiteUncrewed => 23,
        }
    }
}
