// What a record is to the driver.
ghost use Rattle.std.specs.Prelude.{◌≡◌};
ghost use Rattle.assembly.specs.Kind.{kind_of};

use crate::Kind;
use geometry::Layout;
use records::Event;
use records::codes::{
    ALL_SLOTS, DEV_CONF, DEV_RESET, DEV_SET, EV_DEV, EV_SYN, SYN_DROPPED, SYN_REPORT, UNKNOWN_SLOT,
};

impl Kind {
    #[tactic(auto, unfolding(crate::specs::Kind::kind_of, crate::specs::Kind::dev_kind))]
    pub(crate) fn of(layout: Layout, event: Event) -> Kind
        ensures { result ≡ kind_of layout.geometry event }
    {
        let slot = event.value;
        match (event.kind, event.code) {
            (EV_SYN, SYN_REPORT) => Kind::SynReport,
            (EV_SYN, SYN_DROPPED) => Kind::SynDropped,
            (EV_DEV, DEV_SET) if layout.is_slot(slot) || slot == UNKNOWN_SLOT => Kind::DevSet,
            (EV_DEV, DEV_SET) => Kind::BadDevSet,
            (EV_DEV, DEV_CONF) if layout.is_slot(slot) => Kind::DevConf,
            (EV_DEV, DEV_RESET) if layout.is_slot(slot) => Kind::DevReset,
            (EV_DEV, DEV_RESET) if slot == ALL_SLOTS => Kind::DevResetAll,
            (EV_DEV, _) => Kind::BadDev,
            _ => Kind::Other,
        }
    }
}
