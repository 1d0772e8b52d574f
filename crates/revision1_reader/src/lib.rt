// The reader of a revision 1 guest: one record a step. It has no state of its own.
#![tactic(auto)]

ghost use Rattle.std.specs.Prelude.{◌≡◌};
ghost use Rattle.answers.specs.Refusal.{answer_of};
ghost use Rattle.revision1_reader.specs.Step.{taken_of, take_answer, take_of};

use answers::{DONE, Refusal};
use geometry::Geometry;
use reading::{area_layout, take_oldest};
use records::Event;

// What a step hands back: its answer, and the 8 bytes of the record, zeros where none was taken. Kept beside the Result:
// `thayarqo_revision1_step` answers this struct.
#[repr(C)]
#[derive(Clone, Copy)]
pub struct Taken {
    pub answer: u8,
    pub flags: u16,
    pub revision: u16,
    pub data: u32,
}

// Kept apart from the other structs of C: one conversion for all would need a trait that sets the fields of each.
impl From<Result<Event, Refusal>> for Taken {
    ghost from_gives = { λ outcome taken. taken ≡ taken_of outcome };

    fn from(outcome: Result<Event, Refusal>) -> Taken {
        match outcome {
            Ok(event) => Taken {
                answer: DONE,
                flags: event.kind,
                revision: event.code,
                data: event.value,
            },
            Err(refusal) => Taken {
                answer: refusal.number(),
                flags: 0,
                revision: 0,
                data: 0,
            },
        }
    }
}

// Takes one record.
pub fn step(geometry: Geometry, area: &mut [u8]) -> Result<Event, Refusal>
    ensures { let take = take_of geometry area.old in
        (taken_of result ≡ take.taken) × ((area.new ≡ take.area) × (answer_of result ≡ take_answer geometry area.old)) }
{
    let layout = area_layout(geometry, area.len())?;
    take_oldest(layout.ring(), area)
}
