// What stands at each offset of the BAR, and which accesses are refused.
#![tactic(auto)]

ghost use Rattle.std.specs.Prelude.{◌≡◌, true, false, IfOk};
ghost use Rattle.answers.specs.Refusal.{answer_of};
ghost use Rattle.answers.specs.Refusals.{first_refusal};
ghost use Rattle.access.specs.Place.{registers, place_in, place_of, is_read_only, is_nothing};
ghost use Rattle.access.specs.Access.{access_refusals};

use answers::Refusal;
use geometry::{Geometry, Layout};

// What stands at an offset of the BAR. Kept: `Nothing` is a place like the others, as the definition has it (`place_in`), and an offset and
// a width go side by side, as `thayarqo_read` and `thayarqo_write` are given them.
#[derive(Clone, Copy)]
pub enum Place {
    Magic,
    Rev,
    Control,
    EventSize,
    Npages,
    Acceleration,
    Isr,
    ConfSize,
    ClientRev,
    ReadPtr,
    EventArea,
    EntryPage,
    Nothing,
}

// Where the event area begins.
pub const AREA_OFFSET: u64 = 0x1000;

#[tactic(auto, unfolding(crate::specs::Place::place_in))]
fn register_at(offset: u64) -> Place
    ensures { result ≡ place_in registers offset }
{
    match offset {
        0x000 => Place::Magic,
        0x004 => Place::Rev,
        0x100 => Place::Control,
        0x104 => Place::EventSize,
        0x108 => Place::Npages,
        0x10C => Place::Acceleration,
        0x110 => Place::Isr,
        0x114 => Place::ConfSize,
        0x118 => Place::ClientRev,
        _ => Place::Nothing,
    }
}

impl Place {
    #[tactic(auto, unfolding(crate::specs::Place::place_of))]
    pub fn at(geometry: Geometry, offset: u64) -> Place
        ensures { result ≡ place_of geometry offset }
    {
        if offset < AREA_OFFSET {
            register_at(offset)
        } else if offset == AREA_OFFSET {
            Place::ReadPtr
        } else if offset < AREA_OFFSET + geometry.area_length() as u64 {
            Place::EventArea
        } else {
            Place::EntryPage
        }
    }

    fn is_nothing(self) -> bool
        ensures { result ≡ is_nothing self }
    {
        matches!(self, Place::Nothing)
    }

    fn is_read_only(self) -> bool
        ensures { result ≡ is_read_only self }
    {
        matches!(
            self,
            Place::Magic
                | Place::Rev
                | Place::EventSize
                | Place::Npages
                | Place::ConfSize
                | Place::EventArea
                | Place::EntryPage
        )
    }
}

// The place that a read is granted where the call is right.
#[tactic(auto, unfolding(answers::specs::Refusals::first_refusal))]
fn register_place(geometry: Geometry, offset: u64, width: u32) -> Result<Place, Refusal>
    ensures tested { answer_of result ≡ first_refusal (access_refusals true geometry false offset width) }
    ensures granted { IfOk result (λ place. place ≡ place_of geometry offset) }
{
    if width != 4 || offset % 4 != 0 || offset >= geometry.bar_length() {
        return Err(Refusal::BadAccess);
    }
    let place = Place::at(geometry, offset);
    if place.is_nothing() {
        Err(Refusal::NoRegister)
    } else {
        Ok(place)
    }
}

// The place that an access is granted. `valid` says that the geometry, the lent lengths and the state are right.
pub fn place_granted(
    valid: bool,
    geometry: Geometry,
    writes: bool,
    offset: u64,
    width: u32,
) -> Result<Place, Refusal>
    ensures tested { answer_of result ≡ first_refusal (access_refusals valid geometry writes offset width) }
    ensures granted { IfOk result (λ place. place ≡ place_of geometry offset) }
{
    if !valid {
        return Err(Refusal::Invalid);
    }
    let place = register_place(geometry, offset, width)?;
    if writes && place.is_read_only() {
        Err(Refusal::ReadOnly)
    } else {
        Ok(place)
    }
}

// The place that a read of a call that is right is granted.
pub fn place_read(layout: Layout, offset: u64, width: u32) -> Result<Place, Refusal>
    ensures tested { answer_of result ≡ first_refusal (access_refusals true layout.geometry false offset width) }
    ensures granted { IfOk result (λ place. place ≡ place_of layout.geometry offset) }
{
    place_granted(true, layout.geometry, false, offset, width)
}

// The place that a write is granted.
pub fn place_written(layout: Layout, offset: u64, width: u32) -> Result<Place, Refusal>
    ensures tested { answer_of result ≡ first_refusal (access_refusals true layout.geometry true offset width) }
    ensures granted { IfOk result (λ place. place ≡ place_of layout.geometry offset) }
{
    place_granted(true, layout.geometry, true, offset, width)
}
