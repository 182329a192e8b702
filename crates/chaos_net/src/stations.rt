//! Both stations of a running net, by side.
use crate::station::KeptStation;
use chaos_lab::Side;

/// Both stations. An event at one of them leaves the other as it is.
#[derive(Drop)]
pub(crate) struct Stations {
    pub(crate) a: KeptStation,
    pub(crate) b: KeptStation,
}

impl Stations {
    ghost use Rattle.std.specs.Prelude.{◌≡◌};
    ghost use Rattle.std.specs.Borrow.{sem};
    ghost use Rattle.chaos_net.specs.Inside.{kept_at};
    ghost use Rattle.chaos_net.specs.Lending.{LendsStation};

    /// The station at a side.
    pub(crate) fn at(&self, side: Side) -> &KeptStation
        ensures { result.now ≡ kept_at self.now side }
    {
        match side {
            Side::A => &self.a,
            Side::B => &self.b,
        }
    }

    /// The same, lent to be changed.
    pub(crate) fn at_mut(&mut self, side: Side) -> &mut KeptStation
        ensures* writes_back { sem 𝓛 (LendsStation self.entry side result) }
        ensures value { result.now ≡ kept_at self.old side }
    {
        match side {
            Side::A => &mut self.a,
            Side::B => &mut self.b,
        }
    }
}
