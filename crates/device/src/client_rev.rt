// Which revision a device serves, by CLIENT_REV.
ghost use Rattle.std.specs.Prelude.{◌≡◌};
ghost use Rattle.device.specs.Revision.{is_revision1, may_run, revision_of};
ghost use Rattle.device.specs.State.{client_rev_rule};

use crate::{Registers, Revision};

impl Registers {
    pub fn is_revision1(self) -> bool
        ensures { result ≡ is_revision1 self }
    {
        !self.client_rev_written || self.client_rev == 1
    }

    pub fn may_run(self) -> bool
        ensures { result ≡ may_run self }
    {
        self.is_revision1() || self.client_rev == 2
    }

    // Of a device that is on.
    #[tactic(auto, unfolding(crate::specs::Revision::revision_for))]
    pub fn revision(self) -> Revision
        ensures { result ≡ revision_of self }
    {
        if self.client_rev == 2 {
            Revision::Two
        } else {
            Revision::One
        }
    }

    // 0 is unset, or a number that was rejected.
    #[tactic(auto, unfolding(crate::specs::State::client_rev_rule))]
    pub(crate) fn keeps_client_rev_rule(self) -> bool
        ensures { result ≡ client_rev_rule self }
    {
        match self.client_rev {
            0 => !self.on || !self.client_rev_written,
            1 | 2 => self.client_rev_written,
            _ => false,
        }
    }
}
