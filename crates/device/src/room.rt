// Room for the records that a call puts.
ghost use Rattle.std.specs.Prelude.{◌≡◌, length};
ghost use Rattle.answers.specs.Refusal.{answer_of};
ghost use Rattle.records.specs.Ring.{Holds};
ghost use Rattle.device.specs.Room.{room_refusal};

use answers::Refusal;
use records::RingIndex;

// READ_PTR is fetched once: what was tested is what the room is counted from.
#[tactic(auto, unfolding(answers::specs::Refusals::first_refusal))]
pub fn check_room(write: RingIndex, area: &[u8], count: u32) -> Result<(), Refusal>
    requires { Holds (length area.now) write.ring }
    ensures { answer_of result ≡ room_refusal write.ring area.now write.index count }
{
    if count == 0 {
        return Ok(());
    }
    let read = RingIndex::checked(write.ring, records::read_pointer(area)).ok_or(
        Refusal::BadIndex,
    )?;
    if write.has_room(read, count) {
        Ok(())
    } else {
        Err(Refusal::NoRoom)
    }
}
